//! The tools that a page uses beside the program, each in the forms that are shown here.
use crate::report::{head, tail};
use sha2::{Digest, Sha256};
use std::alloc::{AllocError, Global};
use std::fs::{File, Files};
use std::io::{Error, ErrorKind};
use std::{fs, io};

/// What a tool does of a pipe.
#[derive(Clone, Copy)]
pub enum Tool<'a> {
    /// `echo 'TEXT'`
    Echo(&'a str),
    /// `printf 'TEXT'`, in which `\n`, `\r`, `\t` and `\NNN`, the byte of three octal digits, are as in C.
    Printf(&'a str),
    /// `cat FILE..`: files one after another, where `-` is what comes.
    Cat(&'a str),
    /// `sed 's/^/~/'`: a `~` before each line.
    Marked,
    /// `sed 's/$/~/'`: a `~` after each line, which shows its blanks.
    Ended,
    /// `tr a-z A-Z`: capitals.
    Capitals,
    /// `head -N`
    Head(usize),
    /// `head -c N`: the first bytes.
    Start(usize),
    /// `tail -N`
    Tail(usize),
    /// `tail -c +N`: the bytes from the Nth one on.
    End(usize),
    /// `sha256sum`: the digest of what comes.
    Sha256Sum,
    /// `cmp FILE FILE`, where `-` is what comes: nothing, where both are alike.
    Compare(&'a str, &'a str),
    /// `stat -c %s FILE..`: how many bytes each file has.
    Lengths(&'a str),
    /// `find . -name FILE`: its path, if there is such a file.
    Find(&'a str),
    /// `cp FILE FILE`
    Copy(&'a str, &'a str),
    /// `rm FILE..`
    Remove(&'a str),
    /// `dd of=FILE bs=1 seek=N conv=notrunc status=none`: what comes, over the bytes of the file from place N on.
    Overwrite(&'a str, usize),
}

impl<'a> Tool<'a> {
    pub fn new(text: &'a str) -> Option<Self> {
        match text.split_once(" ") {
            Some(("echo", text)) => Some(Tool::Echo(unquoted(text)?)),
            Some(("printf", text)) => Some(Tool::Printf(unquoted(text)?)),
            Some(("cat", paths)) => Some(Tool::Cat(paths)),
            Some(("sed", "'s/^/~/'")) => Some(Tool::Marked),
            Some(("sed", "'s/$/~/'")) => Some(Tool::Ended),
            Some(("tr", "a-z A-Z")) => Some(Tool::Capitals),
            Some(("head", words)) => match words.strip_prefix("-c ") {
                Some(count) => Some(Tool::Start(count.parse().ok()?)),
                None => Some(Tool::Head(lines(words)?)),
            },
            Some(("tail", words)) => match words.strip_prefix("-c +") {
                Some(count) => Some(Tool::End(count.parse().ok()?)),
                None => Some(Tool::Tail(lines(words)?)),
            },
            Some(("cmp", paths)) => paths.split_once(" ").map(|it| Tool::Compare(it.0, it.1)),
            Some(("stat", words)) => Some(Tool::Lengths(words.strip_prefix("-c %s ")?)),
            Some(("find", words)) => Some(Tool::Find(words.strip_prefix(". -name ")?)),
            Some(("cp", paths)) => paths.split_once(" ").map(|it| Tool::Copy(it.0, it.1)),
            Some(("rm", paths)) => Some(Tool::Remove(paths)),
            Some(("dd", words)) => Tool::overwrite(words),
            None if text == "sha256sum" => Some(Tool::Sha256Sum),
            _ => None,
        }
    }

    fn overwrite(words: &'a str) -> Option<Self> {
        let words = words.strip_prefix("of=")?;
        let (path, words) = words
            .strip_suffix(" conv=notrunc status=none")?
            .split_once(" bs=1 seek=")?;
        Some(Tool::Overwrite(path, words.parse().ok()?))
    }

    /// What it writes that is given this input.
    pub fn run(
        self,
        rt: &(impl Files<File = File> + AllocGlobal),
        input: &[u8],
    ) -> io::Result<Vec<u8>> {
        match self {
            Tool::Echo(text) => Ok(format!(in rt.alloc(); "{text}\n")?.into_bytes()),
            Tool::Printf(text) => unescaped(rt.alloc(), text),
            Tool::Cat(paths) => joined(rt, paths, input),
            Tool::Marked => Ok(marked(rt.alloc(), input)?),
            Tool::Ended => Ok(ended(rt.alloc(), input)?),
            Tool::Capitals => Ok(input.to_ascii_uppercase(rt.alloc())?),
            Tool::Head(lines) => Ok(head(rt.alloc(), input, lines)?),
            Tool::Start(count) => Ok(copied(rt.alloc(), input.get(..count).unwrap_or(input))?),
            Tool::Tail(lines) => Ok(tail(rt.alloc(), input, lines)?),
            Tool::End(first) => {
                let rest = input.get(first.saturating_sub(1)..).unwrap_or(b"");
                Ok(copied(rt.alloc(), rest)?)
            }
            Tool::Sha256Sum => Ok(sum(rt.alloc(), input)?),
            Tool::Compare(one, other) => compared(rt, one, other, input),
            Tool::Lengths(paths) => lengths(rt, paths),
            Tool::Find(path) => Ok(found(rt, path)?),
            Tool::Copy(from, to) => changed(rt.alloc(), fs::copy(rt, from, to)),
            Tool::Remove(paths) => changed(rt.alloc(), remove(rt, paths)),
            Tool::Overwrite(path, at) => changed(rt.alloc(), overwrite(rt, path, at, input)),
        }
    }
}

/// A number of lines, as `-5`.
fn lines(count: &str) -> Option<usize> {
    count.strip_prefix("-")?.parse().ok()
}

/// A text without the quotes around it.
fn unquoted(text: &str) -> Option<&str> {
    text.strip_prefix("'")?.strip_suffix("'")
}

/// What a tool writes that changes files alone: nothing.
fn changed<T: Drop>(alloc: Global, end: io::Result<T>) -> io::Result<Vec<u8>> {
    end.map(|_| Vec::new(alloc))
}

/// The bytes of a text, in which a `\` and what follows it stand for a byte.
fn unescaped(alloc: Global, text: &str) -> io::Result<Vec<u8>> {
    let mut bytes: Vec<u8> = Vec::new(alloc);
    for (i, part) in text.split("\\").enumerate() {
        let plain = if i == 0 {
            part
        } else {
            let (byte, plain) = escape(part).ok_or(Error::from(ErrorKind::Unsupported))?;
            bytes.push(byte)?;
            plain
        };
        bytes.extend_from_slice(plain.as_bytes())?;
    }
    Ok(bytes)
}

/// The byte that stands behind a `\`, and what follows it.
fn escape(part: &str) -> Option<(u8, &str)> {
    for (letter, byte) in [("n", b'\n'), ("r", b'\r'), ("t", b'\t')] {
        if let Some(plain) = part.strip_prefix(letter) {
            return Some((byte, plain));
        }
    }
    let (digits, plain) = part.split_at_checked(3)?;
    Some((u8::from_str_radix(digits, 8).ok()?, plain))
}

/// What a file holds, or what comes where the path is `-`.
fn contents(
    rt: &(impl Files<File = File> + AllocGlobal),
    path: &str,
    input: &[u8],
) -> io::Result<Vec<u8>> {
    if path == "-" {
        Ok(copied(rt.alloc(), input)?)
    } else {
        fs::read(rt, path)
    }
}

fn copied(alloc: Global, bytes: &[u8]) -> Result<Vec<u8>, AllocError> {
    let mut all: Vec<u8> = Vec::new(alloc);
    all.extend_from_slice(bytes)?;
    Ok(all)
}

/// What the files hold, one after another.
fn joined(
    rt: &(impl Files<File = File> + AllocGlobal),
    paths: &str,
    input: &[u8],
) -> io::Result<Vec<u8>> {
    let mut all: Vec<u8> = Vec::new(rt.alloc());
    for path in paths.split_whitespace() {
        all.extend_from_slice(contents(rt, path, input)?.as_slice())?;
    }
    Ok(all)
}

/// That both differ, if they do.
fn compared(
    rt: &(impl Files<File = File> + AllocGlobal),
    one: &str,
    other: &str,
    input: &[u8],
) -> io::Result<Vec<u8>> {
    if contents(rt, one, input)? == contents(rt, other, input)? {
        return Ok(Vec::new(rt.alloc()));
    }
    Ok(format!(in rt.alloc(); "{one} {other} differ\n")?.into_bytes())
}

/// The lengths of files in bytes, a line each.
fn lengths(rt: &(impl Files<File = File> + AllocGlobal), paths: &str) -> io::Result<Vec<u8>> {
    let mut all: Vec<u8> = Vec::new(rt.alloc());
    for path in paths.split_whitespace() {
        let line = format!(in rt.alloc(); "{}\n", fs::metadata(rt, path)?.len())?;
        all.extend_from_slice(line.as_bytes())?;
    }
    Ok(all)
}

/// The path of a file, if it is there.
fn found(rt: &(impl Files<File = File> + AllocGlobal), path: &str) -> Result<Vec<u8>, AllocError> {
    match fs::metadata(rt, path) {
        Ok(_) => Ok(format!(in rt.alloc(); "./{path}\n")?.into_bytes()),
        Err(_) => Ok(Vec::new(rt.alloc())),
    }
}

fn remove(rt: &impl Files<File = File>, paths: &str) -> io::Result<()> {
    for path in paths.split_whitespace() {
        fs::remove_file(rt, path)?;
    }
    Ok(())
}

/// Puts bytes over those of a file from a place on, up to its end.
fn overwrite(
    rt: &(impl Files<File = File> + AllocGlobal),
    path: &str,
    at: usize,
    bytes: &[u8],
) -> io::Result<()> {
    let mut all = fs::read(rt, path)?;
    for (place, byte) in all.iter_mut().skip(at).zip(bytes.iter()) {
        *place = *byte;
    }
    fs::write(rt, path, all.as_slice())
}

/// The digest of bytes, as `sha256sum` shows that of what comes.
fn sum(alloc: Global, bytes: &[u8]) -> Result<Vec<u8>, AllocError> {
    let mut hasher = Sha256::new();
    hasher.update(bytes);
    let digest: [u8; 32] = hasher.finalize();
    let digits = hex::encode(alloc, digest)?;
    Ok(format!(in alloc; "{digits}  -\n")?.into_bytes())
}

/// The lines, each behind a `~`.
fn marked(alloc: Global, input: &[u8]) -> Result<Vec<u8>, AllocError> {
    let mut all: Vec<u8> = Vec::new(alloc);
    for line in input.split_inclusive(|byte| *byte == b'\n') {
        all.push(b'~')?;
        all.extend_from_slice(line)?;
    }
    Ok(all)
}

/// The lines, each with a `~` behind it.
fn ended(alloc: Global, input: &[u8]) -> Result<Vec<u8>, AllocError> {
    let mut all: Vec<u8> = Vec::new(alloc);
    for byte in input {
        if *byte == b'\n' {
            all.push(b'~')?;
        }
        all.push(*byte)?;
    }
    Ok(all)
}
