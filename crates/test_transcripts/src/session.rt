//! A session over an image in memory: what it is played with, what is typed, and what has to be written.
use crate::image::with_block;
use crate::report::{Report, past_same_lines};
use interpreter::{Forth, Memory};
use recovery::open;
use sector_disk::{Counts, Fused, MemoryDisk};
use sessions::run_over;
use std::alloc::Global;
use std::io;
use std::io::{Error, ErrorKind};
use stores::Store;

/// Which calls of the device fail.
#[derive(Clone, Copy)]
enum Failing {
    None,
    Once(u32),
    From(u32),
}

/// What a session is played with, what it is given, and what it has to write.
#[derive(Drop)]
pub struct Session {
    /// The texts of the blocks from block 1 on, a line each.
    blocks: String,
    steps: u32,
    failing: Failing,
    /// Whether the calls of the device are told.
    counted: bool,
    /// How often the next line of input stands, with the line of its reply.
    times: u32,
    input: String,
    replies: String,
    /// Where each line of the replies stands in the text, and the last line of the session.
    places: Vec<usize>,
    last: usize,
}

impl Session {
    pub fn new(alloc: Global) -> Self {
        Session {
            blocks: String::new(alloc),
            steps: 1_000_000,
            failing: Failing::None,
            counted: false,
            times: 1,
            input: String::new(alloc),
            replies: String::new(alloc),
            places: Vec::new(alloc),
            last: 0,
        }
    }

    /// A session of one line, which stands at this place of the text.
    pub fn of_line(
        alloc: Global,
        steps: u32,
        line: &str,
        reply: &str,
        place: usize,
    ) -> io::Result<Self> {
        let mut session = Session::new(alloc);
        session.steps = steps;
        session.input.push_str(line)?;
        session.input.push_str("\n")?;
        session.replies.push_str(reply)?;
        session.last = place;
        Ok(session)
    }

    /// Whether nothing is typed, and nothing has to be written.
    pub fn is_empty(&self) -> bool {
        self.input.is_empty() && self.replies.is_empty()
    }

    /// Adds a line of the text, which stands at this place.
    pub fn add(&mut self, line: &str, place: usize) -> io::Result<()> {
        self.last = place;
        match line.split_once(" ") {
            Some((">", input)) => add_times(&mut self.input, input, self.times)?,
            Some(("|", text)) => self.blocks.push_str(text)?,
            Some(("@steps", steps)) => self.steps = number(steps)?,
            Some(("@times", times)) => self.times = number(times)?,
            Some(("@once", call)) => self.failing = Failing::Once(number(call)?),
            Some(("@from", call)) => self.failing = Failing::From(number(call)?),
            Some(("@calls", _)) => {
                self.counted = true;
                self.reply(line, place)?;
            }
            Some(("#", _)) => {}
            _ => self.reply(line, place)?,
        }
        Ok(())
    }

    /// Adds what the line of input before it has to write.
    fn reply(&mut self, line: &str, place: usize) -> io::Result<()> {
        add_times(&mut self.replies, line, self.times)?;
        for _ in 0..self.times {
            self.places.push(place)?;
        }
        self.times = 1;
        Ok(())
    }

    /// Saves the texts in the blocks of the image, plays the session over it, and gives the image back.
    pub fn play(
        &self,
        alloc: Global,
        mut image: MemoryDisk,
        report: &mut Report,
    ) -> io::Result<MemoryDisk> {
        let mut block = 1u16;
        for text in self.blocks.lines() {
            image = with_block(image, block, text)?;
            block = block.saturating_add(1);
        }
        let mut written: Vec<u8> = Vec::new(alloc);
        let image = self.run(alloc, image, &mut written)?;
        self.compare(alloc, written.as_slice(), report)?;
        Ok(image)
    }

    /// Tells from which line of the text on something else was written, if anything was.
    fn compare(&self, alloc: Global, written: &[u8], report: &mut Report) -> io::Result<()> {
        let (same, shown, came) = past_same_lines(self.replies.as_bytes(), written);
        if shown.is_empty() && came.is_empty() {
            return Ok(());
        }
        let line = self.places.get(same).unwrap_or(&self.last);
        let place = format!(in alloc; "line {line}, with {} steps", self.steps)?;
        Ok(report.tell(alloc, &place, shown, came)?)
    }

    /// Runs the input over the image, on a device that fails as the session says.
    fn run(
        &self,
        alloc: Global,
        image: MemoryDisk,
        written: &mut Vec<u8>,
    ) -> io::Result<MemoryDisk> {
        let Ok(store) = open(image) else {
            return Err(Error::from(ErrorKind::InvalidData));
        };
        let blocks = store.blocks();
        let disk = store.into_device();
        let before = disk.counts();
        let device = match self.failing {
            Failing::None => Fused::once(disk, u64::MAX),
            Failing::Once(call) => Fused::once(disk, u64::from(call.max(1))),
            Failing::From(call) => Fused::from(disk, u64::from(call.max(1))),
        };
        let mut input = self.input.as_bytes();
        let (store, end) = run_over::<_, Forth<Fused<MemoryDisk>>, _, _>(
            Memory::new(alloc)?,
            journal::Store::adopt(device, blocks),
            self.steps.max(1),
            &mut input,
            written,
        );
        if end.is_err() {
            written.extend_from_slice(b"the session broke off\n")?;
        }
        let disk = store.into_device().into_device();
        if self.counted {
            tell_calls(alloc, written, before, disk.counts())?;
        }
        Ok(disk)
    }
}

/// Adds a text so many times.
fn add_times(to: &mut String, text: &str, times: u32) -> io::Result<()> {
    for _ in 0..times {
        to.push_str(text)?;
    }
    Ok(())
}

/// A number that a text gives.
pub fn number(text: &str) -> io::Result<u32> {
    match text.trim_end().parse() {
        Ok(number) => Ok(number),
        Err(_) => Err(Error::from(ErrorKind::InvalidInput)),
    }
}

/// Adds a line that tells how many calls were made between two counts.
fn tell_calls(
    alloc: Global,
    written: &mut Vec<u8>,
    before: Counts,
    after: Counts,
) -> io::Result<()> {
    let line = format!(in alloc;
        "@calls {} {} {}\n",
        after.reads.saturating_sub(before.reads),
        after.writes.saturating_sub(before.writes),
        after.syncs.saturating_sub(before.syncs)
    )?;
    Ok(written.extend_from_slice(line.as_bytes())?)
}
