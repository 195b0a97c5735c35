//! A terminal on which a text is shown: what is typed is read from it, and what is written has to stand there next.
use std::alloc::Global;
use std::cell::Cell;
use std::io;
use std::io::{Error, ErrorKind, Read, Write};

/// Gives what is shown next, byte by byte, as typed.
#[derive(Drop)]
pub struct Keyboard<'k, 'a> {
    shown: &'k Cell<&'a [u8]>,
}

impl<'k, 'a> Keyboard<'k, 'a> {
    pub fn new(shown: &'k Cell<&'a [u8]>) -> Self {
        Keyboard { shown }
    }
}

impl Read for Keyboard<'_, '_> {
    fn read(&mut self, buf: &mut [u8]) -> io::Result<usize> {
        match (self.shown.get(), buf) {
            ([byte, rest @ ..], [place, ..]) => {
                *place = *byte;
                self.shown.set(rest);
                Ok(1)
            }
            _ => Ok(0),
        }
    }
}

/// Keeps what is written until it is flushed, and compares it then. It fails at the first difference, and keeps what came.
#[derive(Drop)]
pub struct Screen<'k, 'a> {
    shown: &'k Cell<&'a [u8]>,
    came: Vec<u8>,
}

impl<'k, 'a> Screen<'k, 'a> {
    pub fn new(alloc: Global, shown: &'k Cell<&'a [u8]>) -> Self {
        Screen {
            shown,
            came: Vec::new(alloc),
        }
    }

    /// What was written and is not compared yet, or differs.
    pub fn into_rest(self) -> Vec<u8> {
        self.came
    }
}

impl Write for Screen<'_, '_> {
    fn write(&mut self, buf: &[u8]) -> io::Result<usize> {
        self.came.extend_from_slice(buf)?;
        Ok(buf.len())
    }

    fn flush(&mut self) -> io::Result<()> {
        if is_next(self.shown, self.came.as_slice()) {
            self.came.clear();
            return Ok(());
        }
        Err(Error::from(ErrorKind::InvalidData))
    }
}

/// Whether what came is shown next. Then it is passed over.
pub fn is_next(shown: &Cell<&[u8]>, came: &[u8]) -> bool {
    match shown.get().strip_prefix(came) {
        Some(rest) => {
            shown.set(rest);
            true
        }
        None => false,
    }
}
