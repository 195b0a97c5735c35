//! Calls of the program, and what they leave.
ghost use Rattle.std.specs.Prelude.{◌<◌};

use crate::assertions::{Assert, assert_same};
use interpreter::{Forth, Memory};
use recovery::format;
use sector_disk::{FileDisk, HostFile, HostFiles, MemoryDisk, SectorFile};
use sessions::{RunFault, run_over};
use std::fs::File;
use std::io::{Read, Write};
use std::process::Abort;
use std::rt::Files;
use std::test::Fail;
use std::{fs, io};
use stores::Store;
use terminal::{Led, Reached, StdTexts, StdWorld, Streams, TextFiles, command_over};

/// What a call of the program left.
#[derive(Debug, Drop)]
pub(crate) struct Left {
    pub(crate) status: u8,
    pub(crate) output: Vec<u8>,
    pub(crate) errors: Vec<u8>,
}

/// What is told where a call of an image fails.
pub(crate) const DEVICE_FAULT: &str = "forth83: image: device fault\n";

/// What is told where call `k` fails of those that make an image, of which there are so many. The first ones fill its file, and the last one gives it its name.
pub(crate) fn told_of_making(k: u64, filled: u64, calls: u64) -> &'static str {
    if k < filled || k.saturating_add(1) == calls {
        "forth83: image: cannot open\n"
    } else {
        DEVICE_FAULT
    }
}

/// The program, over systems of the whole language.
pub(crate) fn command<R: Read + Drop, W: Write + Drop, E: Write + Drop>(
    rt: &(impl Files<File = File> + AllocGlobal),
    words: &[&str],
    input: R,
    output: W,
    errors: E,
) -> u8 {
    let mut streams = Streams {
        input: Led::new(rt.alloc(), input),
        output,
        errors,
    };
    let here = StdWorld::new(rt, words);
    let (_, status) = command_over(
        &here.reached::<Forth<FileDisk>, Forth<MemoryDisk>>(),
        words,
        &mut streams,
    );
    status
}

/// Calls the program.
pub(crate) fn call(
    rt: &(impl Files<File = File> + AllocGlobal),
    words: &[&str],
    input: &[u8],
) -> Left {
    let mut input = input;
    let mut output: Vec<u8> = Vec::new(rt.alloc());
    let mut errors: Vec<u8> = Vec::new(rt.alloc());
    let status = command(rt, words, &mut input, &mut output, &mut errors);
    Left {
        status,
        output,
        errors,
    }
}

/// Calls the program, and compares what it left.
pub(crate) fn check(
    rt: &(impl Files<File = File> + AllocGlobal + Abort),
    words: &[&str],
    input: &[u8],
    status: u8,
    output: &[u8],
    errors: &[u8],
) {
    let left = call(rt, words, input);
    assert_same!(rt; left.errors.as_slice(), errors, "{words:?}");
    assert_same!(rt; left.status, status, "{words:?}");
    assert_same!(rt; left.output.as_slice(), output, "{words:?}");
}

/// Calls the program over a system of files, and gives its status with what it printed and told.
pub(crate) fn call_over<H: HostFile + Drop, O: HostFiles<H>>(
    rt: &(impl Files<File = File> + AllocGlobal),
    files: &O,
    words: &[&str],
    input: &[u8],
) -> Left {
    call_over_both(rt, files, files, words, input)
}

/// Calls it where the files that are opened for reading alone are those of another system.
pub(crate) fn call_over_both<
    H: HostFile + Drop,
    O: HostFiles<H>,
    K: HostFile + Drop,
    P: HostFiles<K>,
>(
    rt: &(impl Files<File = File> + AllocGlobal),
    files: &O,
    looking: &P,
    words: &[&str],
    input: &[u8],
) -> Left {
    let texts = StdTexts::new(rt);
    call_over_texts(rt, files, looking, &texts, words, input)
}

/// Calls it where the files that it reads as texts are those of a system of texts.
pub(crate) fn call_over_texts<
    H: HostFile + Drop,
    O: HostFiles<H>,
    K: HostFile + Drop,
    P: HostFiles<K>,
    B: Read + Drop,
    Q: TextFiles<B>,
>(rt: &impl AllocGlobal, files: &O, looking: &P, texts: &Q, words: &[&str], input: &[u8]) -> Left {
    let world = Reached::<H, K, B, Forth<SectorFile<H>>, Forth<MemoryDisk>, O, P, Q>::new(
        rt.alloc(),
        files,
        looking,
        looking,
        texts,
    );
    let mut streams = Streams {
        input: Led::new(rt.alloc(), input),
        output: Vec::new(rt.alloc()),
        errors: Vec::new(rt.alloc()),
    };
    let (_, status) = command_over(&world, words, &mut streams);
    let Streams { output, errors, .. } = streams;
    Left {
        status,
        output,
        errors,
    }
}

/// Makes the image `A`, of 32 blocks.
pub(crate) fn make_over<H: HostFile + Drop, O: HostFiles<H>>(
    rt: &(impl Files<File = File> + AllocGlobal + Abort),
    files: &O,
) {
    let left = call_over(rt, files, &["forth83", "new", "A", "--blocks", "32"], b"");
    assert_same!(rt; (left.status, left.errors.as_slice()), (0, b"".as_slice()));
}

/// Runs a transcript over the image.
pub(crate) fn run_over_files<H: HostFile + Drop, O: HostFiles<H>>(
    rt: &(impl Files<File = File> + AllocGlobal + Abort),
    files: &O,
    text: &str,
) -> Result<(), Fail> {
    let (input, wanted) = transcript(rt, text)?;
    let left = call_over(rt, files, &["forth83", "run", "A"], input.as_slice());
    assert_same!(rt;
        (left.status, left.errors.as_slice()),
        (0, b"".as_slice()),
        "{text}"
    );
    assert_same!(rt; left.output.as_slice(), wanted.as_slice(), "{text}");
    Ok(())
}

/// Makes an empty folder.
pub(crate) fn fresh_folder(rt: &(impl Files + AllocGlobal), folder: &str) -> io::Result<()> {
    let _ = fs::remove_dir_all(rt, folder);
    fs::create_dir(rt, folder)
}

/// Runs lines over 32 blank blocks in memory.
pub(crate) fn run<R: Read, W: Write>(
    rt: &impl AllocGlobal,
    steps: u32,
    reader: &mut R,
    writer: &mut W,
) -> Result<Result<(), RunFault>, Fail>
    requires { 0 < steps }
{
    match format(MemoryDisk::new(rt.alloc(), 131)?, 32) {
        Ok(store) => {
            let memory = Memory::new(rt.alloc())?;
            let (_, end) = run_over::<MemoryDisk, Forth<MemoryDisk>, R, W>(
                memory, store, steps, reader, writer,
            );
            Ok(end)
        }
        Err((fault, _)) => Err(fault)?,
    }
}

/// What the program was given, in the lines that begin with `> `, and what it has to write, in the others.
pub(crate) fn transcript(rt: &impl AllocGlobal, text: &str) -> Result<(Vec<u8>, Vec<u8>), Fail> {
    let mut input: Vec<u8> = Vec::new(rt.alloc());
    let mut output: Vec<u8> = Vec::new(rt.alloc());
    for line in text.lines() {
        match line.strip_prefix("> ") {
            Some(given) => {
                input.extend_from_slice(given.as_bytes())?;
                input.push(b'\n')?;
            }
            None => {
                output.extend_from_slice(line.as_bytes())?;
                output.push(b'\n')?;
            }
        }
    }
    Ok((input, output))
}

/// Puts bytes over those from a place on.
pub(crate) fn overwrite(bytes: &mut [u8], at: usize, patch: &[u8]) {
    for (i, byte) in patch.iter().enumerate() {
        if let Some(place) = bytes.get_mut(at.saturating_add(i)) {
            *place = *byte;
        }
    }
}
