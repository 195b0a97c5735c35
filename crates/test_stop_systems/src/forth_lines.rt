// Lines of Forth, which tell what they do to blocks.
use interpreter::{Forth, Memory};
use sector_disk::SectorDevice;
use sessions::{RunFault, Strictness, Untraced, run_over_until};
use std::alloc::{AllocError, Global};
use std::io::{Read, Write};
use std::test::Fail;
use test_stops::calls::row;
use test_stops::disks::opened;
use test_stops::fillings::Fillings;
use test_stops::player::{Played, Player};
use test_stops::told::Told;

/// What a reply says: a digit and a letter tell that the block of this number is full of this letter, `(` that a save begins and `)`
/// that it has returned. A closed store begins no save.
fn hear(told: &mut Told, reply: &str) {
    let known = told.begun;
    let mut place = None;
    for byte in reply.bytes() {
        match (byte, place) {
            (b'(', _) => told.begin(),
            (b')', _) => told.finish(),
            (b'A'..=b'z', Some(u)) => told.edited.fill(u, byte),
            _ => {}
        }
        place = if byte.is_ascii_digit() {
            Some(u16::from(byte & 15))
        } else {
            None
        };
    }
    if reply.ends_with("CLOSED") {
        told.begun = known;
    }
}

/// What replies say.
pub fn heard(replies: &str, start: Fillings) -> Told {
    let mut told = Told::new(start);
    for reply in replies.lines() {
        hear(&mut told, reply);
    }
    told
}

/// The lines of rows, and the replies to them.
pub fn lines_and_replies(alloc: Global, rows: &str) -> Result<(String, String), AllocError> {
    let mut lines = String::new(alloc);
    let mut replies = String::new(alloc);
    for text in rows.lines() {
        let (line, reply) = row(text);
        lines.push_str(line)?;
        lines.push_str("\n")?;
        replies.push_str(reply)?;
        replies.push_str("\n")?;
    }
    Ok((lines, replies))
}

/// Runs lines over a device, between these streams, each of which may be an event: the device, and how the run ended.
pub fn between<D: SectorDevice + Drop, R: Read, W: Write>(
    alloc: Global,
    device: D,
    undoes: bool,
    reader: &mut R,
    writer: &mut W,
) -> Result<(D, Result<(), RunFault>), Fail> {
    let store = opened(device)?;
    let memory = Memory::new(alloc)?;
    let (store, end, _) = run_over_until::<D, Forth<D>, R, W, Untraced>(
        memory,
        store,
        100_000_000,
        reader,
        writer,
        Strictness::Never,
        undoes,
        &mut Untraced,
    );
    Ok((store.into_device(), end.map(|_| ())))
}

/// Interprets lines.
#[derive(Clone, Copy)]
pub struct ForthLines {
    /// Whether a line that fails is undone.
    pub undoes: bool,
}

impl Player for ForthLines {
    fn play<D: SectorDevice + Drop>(
        &self,
        alloc: Global,
        rows: &str,
        device: D,
        start: Fillings,
    ) -> Result<Played<D>, Fail> {
        let (lines, _) = lines_and_replies(alloc, rows)?;
        let mut written: Vec<u8> = Vec::new(alloc);
        let (device, end) = between(
            alloc,
            device,
            self.undoes,
            &mut lines.as_bytes(),
            &mut written,
        )?;
        end?;
        let replies = str::from_utf8(written.as_slice())?;
        Ok(Played {
            device,
            answers: String::from_str(alloc, replies)?,
            told: heard(replies, start),
        })
    }
}
