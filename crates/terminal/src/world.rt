//! What a command reaches beside its streams: images and texts, by their names.
//! Rule: PROGRAM, Exit status and messages; IMAGE, The file.
ghost use Rattle.std.specs.Prelude.{◌≡◌, ◌⊎◌, ℕ, List, IfOk, IfErr, IfSome, OnOk};
ghost use Rattle.terminal.specs.Given.{Given};
ghost use Rattle.terminal.specs.Unopened.{IsUnmade, IsUnopened};

use super::failure::Failure;
use super::texts::{TextFault, TextFiles};
use interpreter::promise::Lines;
use sector_disk::{
    HostFile, HostFiles, MemoryDisk, SectorDevice, SectorFile, create_disk, open_disk,
};
use std::alloc::Global;
use std::io::Read;
use std::marker::PhantomData;

/// The surroundings of a command, and the Forth systems that it runs. No other image or text is reached than by these
/// calls, and each is told under which name.
pub trait World {
    /// An image's device that is opened for writing too, or made.
    type Disk: SectorDevice;

    /// One that is opened for reading alone.
    type Look: SectorDevice;

    /// A text, which is read byte by byte: so its reader should be buffered.
    type Text: Read + Drop;

    /// The system that runs an image.
    type System: Lines<Self::Disk>;

    /// The system that runs blocks in memory.
    type Memory: Lines<MemoryDisk>;

    /// What the calls give under each name.
    ghost gives: { Self → Given Self.Disk Self.Look };

    /// The memory.
    fn alloc(&self) -> Global;

    /// Opens an image that is there. `InUse` where it isn't given since another has it, or since it is one of this
    /// program's standard streams, and `CannotOpen` where the system refuses.
    fn open(&self, path: &str) -> Result<Self::Disk, Failure>
        ensures opened { IfOk result ((gives self.now).opened path.now) }
        ensures well { IfOk result (λ disk. Self.Disk.failures disk ≡ 0) }
        ensures unopened { IfErr result IsUnopened };

    /// Makes a device of this many sectors of zeros, which is to have this name: it has it once `keep` has given it.
    /// `Exists` where something has that name, which stays as it is, `InUse` where another program is making one of it,
    /// and `CannotOpen` where the system refuses. Where it was made and not finished, it is handed back.
    fn make(&self, path: &str, sectors: u32) -> Result<Self::Disk, (Failure, Option<Self::Disk>)>
        ensures made { IfOk result ((gives self.now).made path.now sectors) }
        ensures size { IfOk result (λ disk. Self.Disk.sector_count disk ≡ sectors) }
        ensures well { IfOk result (λ disk. Self.Disk.failures disk ≡ 0) }
        ensures unmade { IfErr result (λ e. IsUnmade e.0) }
        ensures begun { IfErr result (λ e. IfSome e.1 ((gives self.now).begun path.now)) }
        ensures refused { IfErr result (λ e. IfSome e.1 (λ _. e.0 ≡ Failure.CannotOpen)) };

    /// Gives a device that `make` has made for this name its name, in one step. `Exists` where something else has got it
    /// meanwhile, which stays as it is, and `CannotOpen` where the system refuses.
    fn keep(&self, path: &str, disk: &Self::Disk) -> Result<(), Failure>
        ensures named { OnOk result ((gives self.now).named path.now disk.now) }
        ensures unnamed { IfErr result IsUnmade };

    /// Lets go of a device that `make` has made for this name, and that isn't to have it.
    fn drop_made(&self, path: &str, disk: &Self::Disk);

    /// Opens an image for reading alone, also where another program has it. Its failures are those of `open`.
    fn look(&self, path: &str) -> Result<Self::Look, Failure>
        ensures looked { IfOk result ((gives self.now).looked path.now) }
        ensures well { IfOk result (λ disk. Self.Look.failures disk ≡ 0) }
        ensures unopened { IfErr result IsUnopened };

    /// Opens an image for reading alone, where no other program has it for writing. Its failures are those of `open`.
    fn hold(&self, path: &str) -> Result<Self::Look, Failure>
        ensures held { IfOk result ((gives self.now).held path.now) }
        ensures well { IfOk result (λ disk. Self.Look.failures disk ≡ 0) }
        ensures unopened { IfErr result IsUnopened };

    /// Opens a text, to be read from its beginning. `CannotRead` where the system refuses, and `NoMemory` where there
    /// is none for its reader.
    fn text(&self, path: &str) -> Result<Self::Text, Failure>
        // All that the reader has left is a text of that name, where that is known.
        ensures named { IfOk result (λ reader. (text : List ℕ) → IfSome (Self.Text.remaining reader) (λ left. text ≡ left)
            → (gives self.now).is_text path.now text) }
        // A read of it may fail.
        ensures unread { OnOk result ((gives self.now).is_unread path.now) }
        ensures refused { IfErr result (λ e. e ≡ Failure.CannotRead → (gives self.now).is_unread path.now) }
        ensures only { IfErr result (λ e. (e ≡ Failure.CannotRead) ⊎ (e ≡ Failure.NoMemory)) };
}

/// The surroundings that a system of files and one of texts make: of both systems of files that are read alone,
/// `looking` may give what another program has open for writing, and `alone` doesn't.
#[derive(Drop)]
pub struct Reached<'a, H, K, B, F, M, O, P, Q> {
    alloc: Global,
    files: &'a O,
    looking: &'a P,
    alone: &'a P,
    texts: &'a Q,
    file: PhantomData<H>,
    look: PhantomData<K>,
    text: PhantomData<B>,
    system: PhantomData<F>,
    memory: PhantomData<M>,
}

impl<'a, H, K, B, F, M, O, P, Q> Reached<'a, H, K, B, F, M, O, P, Q> {
    /// What is reached by these.
    pub fn new(
        alloc: Global,
        files: &'a O,
        looking: &'a P,
        alone: &'a P,
        texts: &'a Q,
    ) -> Reached<'a, H, K, B, F, M, O, P, Q>
        ensures files { result.files.now ≡ files.now }
        ensures looking { result.looking.now ≡ looking.now }
        ensures alone { result.alone.now ≡ alone.now }
        ensures texts { result.texts.now ≡ texts.now }
    {
        Reached {
            alloc,
            files,
            looking,
            alone,
            texts,
            file: PhantomData,
            look: PhantomData,
            text: PhantomData,
            system: PhantomData,
            memory: PhantomData,
        }
    }
}

impl<
    H: HostFile,
    K: HostFile,
    B: Read + Drop,
    F: Lines<SectorFile<H>>,
    M: Lines<MemoryDisk>,
    O: HostFiles<H>,
    P: HostFiles<K>,
    Q: TextFiles<B>,
> World for Reached<'_, H, K, B, F, M, O, P, Q> {
    type Disk = SectorFile<H>;

    type Look = SectorFile<K>;

    type Text = B;

    type System = F;

    type Memory = M;

    ghost use Rattle.sector_disk.specs.SectorFile.{file_of};
    ghost use Rattle.terminal.specs.Files.{IsMade, IsOpened, IsUnfinished};
    ghost use Rattle.terminal.specs.Texts.{IsTextOf, IsUnread};

    ghost gives = { λ world. record {
      opened = λ path. IsOpened H.HostFile (O.opens world.files.now path);
      made = λ path. IsMade H.HostFile (O.makes world.files.now path);
      named = λ path device. O.named world.files.now path (file_of device);
      begun = λ path. IsUnfinished H.HostFile (O.makes world.files.now path);
      looked = λ path. IsOpened K.HostFile (P.opens world.looking.now path);
      held = λ path. IsOpened K.HostFile (P.opens world.alone.now path);
      is_text = λ path. IsTextOf B.remaining (Q.opens world.texts.now path);
      is_unread = λ path. IsUnread (Q.opens world.texts.now path) (Q.refuses world.texts.now path);
    } };

    fn alloc(&self) -> Global {
        self.alloc
    }

    fn open(&self, path: &str) -> Result<SectorFile<H>, Failure> {
        match open_disk(self.files, path) {
            Ok(disk) => Ok(disk),
            Err(fault) => Err(Failure::from(fault)),
        }
    }

    fn make(
        &self,
        path: &str,
        sectors: u32,
    ) -> Result<SectorFile<H>, (Failure, Option<SectorFile<H>>)> {
        match create_disk(self.files, path, sectors) {
            Ok(disk) => Ok(disk),
            Err((fault, unfinished)) => Err((Failure::from(fault), unfinished)),
        }
    }

    fn keep(&self, path: &str, disk: &SectorFile<H>) -> Result<(), Failure> {
        match self.files.keep_name(path, disk.file()) {
            Ok(()) => Ok(()),
            Err(fault) => Err(Failure::from(fault)),
        }
    }

    fn drop_made(&self, path: &str, disk: &SectorFile<H>) {
        self.files.drop_made(path, disk.file());
    }

    fn look(&self, path: &str) -> Result<SectorFile<K>, Failure> {
        match open_disk(self.looking, path) {
            Ok(disk) => Ok(disk),
            Err(fault) => Err(Failure::from(fault)),
        }
    }

    fn hold(&self, path: &str) -> Result<SectorFile<K>, Failure> {
        match open_disk(self.alone, path) {
            Ok(disk) => Ok(disk),
            Err(fault) => Err(Failure::from(fault)),
        }
    }

    fn text(&self, path: &str) -> Result<B, Failure> {
        match self.texts.open(path) {
            Ok(reader) => Ok(reader),
            Err(TextFault::Cannot) => Err(Failure::CannotRead),
            Err(TextFault::NoMemory) => Err(Failure::NoMemory),
        }
    }
}
