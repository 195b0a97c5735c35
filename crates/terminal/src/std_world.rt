//! This system as a command reaches it: its files and texts.
//! Rule: PROGRAM, Exit status and messages; MANUAL, An image in use.
ghost use Rattle.std.specs.Prelude.{◌≡◌, false, IsTrue};

use super::texts::StdTexts;
use super::world::Reached;
use command_line::order;
use command_line::orders::Order;
use image_care::{ReadOnlyFile, ReadingFiles};
use sector_disk::{StdFile, StdFiles};
use std::alloc::Global;
use std::convert::AsStr;
use std::fs::{File, Files};
use std::io::BufReader;

/// What `StdWorld` reaches, by systems `F` over an image and `M` over memory.
pub type ReachedHere<'a, R, F, M> = Reached<
    'a,
    StdFile,
    ReadOnlyFile,
    BufReader<File>,
    F,
    M,
    StdFiles<'a, R>,
    ReadingFiles<'a, R>,
    StdTexts<'a, R>,
>;

/// The files and texts of this system.
#[derive(Drop)]
pub struct StdWorld<'a, R> {
    alloc: Global,
    files: StdFiles<'a, R>,
    looking: ReadingFiles<'a, R>,
    alone: ReadingFiles<'a, R>,
    texts: StdTexts<'a, R>,
}

impl<'a, R: Files<File = File> + AllocGlobal> StdWorld<'a, R> {
    /// What this runtime reaches. An image that the words order to be made of another one gets the rights of that one.
    /// A look takes a copy of an image of layout 3 that another program has open for writing; a salvage doesn't.
    pub fn new<S: AsStr>(rt: &'a R, words: &'a [S]) -> StdWorld<'a, R>
        ensures looking { IsTrue result.looking.takes_copies }
        ensures alone { result.alone.takes_copies ≡ false }
    {
        StdWorld {
            alloc: rt.alloc(),
            files: StdFiles::with_rights_of(rt, old_image(rt.alloc(), words)),
            looking: ReadingFiles::with_copies(rt),
            alone: ReadingFiles::new(rt),
            texts: StdTexts::new(rt),
        }
    }

    /// It as the surroundings of a command, with the systems that it runs.
    pub fn reached<F, M>(&self) -> ReachedHere<'_, R, F, M>
        ensures looking { result.looking.now ≡ self.now.looking }
        ensures alone { result.alone.now ≡ self.now.alone }
    {
        Reached::new(
            self.alloc,
            &self.files,
            &self.looking,
            &self.alone,
            &self.texts,
        )
    }
}

/// The name of the image of which the words order another one to be made. None where they order none. Where they can't
/// be read it is no name: a file that is made then has the fewest rights.
fn old_image<S: AsStr>(alloc: Global, words: &[S]) -> Option<&str> {
    match order(alloc, words) {
        Ok(Order::Upgrade(old, _, _)) => Some(old),
        Ok(Order::Copy(old, _, _)) => Some(old),
        Ok(Order::Salvage(old, _, _)) => Some(old),
        Ok(_) => None,
        Err(_) => Some(""),
    }
}
