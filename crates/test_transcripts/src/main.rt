//! Does what texts show, and compares what comes: the transcripts and examples of pages (`.md`), and texts of sessions. For each text
//! that an argument names it prints what it did, and every difference.
#![tactic(auto)]

use page::Page;
use session_texts::Sessions;
use std::fs::{File, Files};
use std::process::ExitCode;
use std::rt::Env;
use std::{env, fs, io};

mod dialogue;
mod image;
mod page;
mod report;
mod session;
mod session_texts;
mod shell;
mod tools;

/// Follows a text, prints what was found, and answers how many differences there are.
fn follow(rt: &(impl Files<File = File> + Print + AllocGlobal), path: &str) -> io::Result<usize> {
    let text = fs::read_to_string(rt, path)?;
    if path.ends_with(".md") {
        follow_page(rt, path, &text)
    } else {
        follow_sessions(rt, path, &text)
    }
}

fn follow_page(
    rt: &(impl Files<File = File> + Print + AllocGlobal),
    path: &str,
    text: &str,
) -> io::Result<usize> {
    let mut page = Page::new(rt.alloc());
    page.follow(rt, text)?;
    print!(rt; "{path}: {page}")?;
    Ok(page.differences())
}

fn follow_sessions(rt: &(impl Print + AllocGlobal), path: &str, text: &str) -> io::Result<usize> {
    let mut sessions = Sessions::new(rt.alloc());
    sessions.follow(rt.alloc(), text)?;
    print!(rt; "{path}: {sessions}")?;
    Ok(sessions.differences())
}

/// Follows a text, as `follow`, where one that can't be followed is told, and counts as a difference.
fn follow_or_tell(
    rt: &(impl Files<File = File> + Print + AllocGlobal),
    path: &str,
) -> io::Result<usize> {
    match follow(rt, path) {
        Ok(differences) => Ok(differences),
        Err(error) => {
            print!(rt; "{path}: {error}\n")?;
            Ok(1)
        }
    }
}

fn main(rt: HostRuntime) -> io::Result<ExitCode> {
    let paths: Vec<String> = env::args(&rt)?.collect(rt.alloc())?;
    let mut differences = 0usize;
    for path in paths.iter().skip(1) {
        differences = differences.saturating_add(follow_or_tell(&rt, path)?);
    }
    Ok(ExitCode::from(u8::from(differences > 0)))
}
