//! How a command ended: it did what it was asked, or a session of it stopped; or why it failed.
ghost use Rattle.std.specs.Prelude.{◌≡◌, ◌≤◌};
ghost use Rattle.terminal.specs.Failures.{status_of, of_image, of_upgrade, of_file, of_store, of_run};

use journal::StoreFault;
use recovery::{OpenFault, UpgradeFault};
use sector_disk::FileFault;
use sessions::RunFault;
use thiserror::Error;

/// How a command ended that didn't fail.
#[derive(Clone, Copy, Debug, PartialEq, Eq)]
pub enum Outcome {
    /// It did what it was asked.
    Done,
    /// A line of its session failed that ends it: any line of a strict one, or the one that loads its block.
    Stopped,
}

/// Why the program didn't do what it was asked. Its text is what the user reads.
/// Rule: MANUAL, Messages and statuses; PROGRAM, Exit status and messages.
#[derive(Clone, Copy, Debug, PartialEq, Eq, Error)]
pub enum Failure {
    #[error("image: bad size")]
    BadSize,
    #[error("image: no label")]
    NoLabel,
    #[error("image: other version")]
    OtherVersion,
    #[error("image: wrong count")]
    WrongCount,
    #[error("image: damaged")]
    Damaged,
    #[error("image: device fault")]
    Device,
    #[error("image: exists")]
    Exists,
    #[error("image: cannot open")]
    CannotOpen,
    #[error("image: in use")]
    InUse,
    #[error("image: no block")]
    NoBlock,
    #[error("input: cannot read")]
    CannotRead,
    #[error("input: not a screen")]
    NotAScreen,
    #[error("output: cannot write")]
    CannotWrite,
    #[error("no memory")]
    NoMemory,
}

impl Failure {
    /// The exit status: 3 where it lies with the image, 4 with input or output, 5 with memory.
    pub fn status(self) -> u8
        ensures status { result ≡ status_of self }
        ensures fails { 3 ≤ result }
    {
        match self {
            Failure::BadSize
            | Failure::NoLabel
            | Failure::OtherVersion
            | Failure::WrongCount
            | Failure::Damaged
            | Failure::Device
            | Failure::Exists
            | Failure::CannotOpen
            | Failure::InUse
            | Failure::NoBlock => 3,
            Failure::CannotRead | Failure::NotAScreen | Failure::CannotWrite => 4,
            Failure::NoMemory => 5,
        }
    }
}

impl From<OpenFault> for Failure {
    ghost from_gives = { λ fault e. e ≡ of_image fault };

    fn from(fault: OpenFault) -> Self {
        match fault {
            OpenFault::BadSize => Failure::BadSize,
            OpenFault::NoLabel => Failure::NoLabel,
            OpenFault::OtherVersion => Failure::OtherVersion,
            OpenFault::WrongCount => Failure::WrongCount,
            OpenFault::Damaged => Failure::Damaged,
            OpenFault::Device => Failure::Device,
        }
    }
}

// The text doesn't say which of both images it is.
impl From<UpgradeFault> for Failure {
    ghost from_gives = { λ fault e. e ≡ of_upgrade fault };

    fn from(fault: UpgradeFault) -> Self {
        match fault {
            UpgradeFault::Old(fault) => Failure::from(fault),
            UpgradeFault::New(fault) => Failure::from(fault),
        }
    }
}

impl From<FileFault> for Failure {
    ghost from_gives = { λ fault e. e ≡ of_file fault };

    fn from(fault: FileFault) -> Self {
        match fault {
            FileFault::Exists => Failure::Exists,
            FileFault::Cannot => Failure::CannotOpen,
            FileFault::InUse => Failure::InUse,
        }
    }
}

// Outside a line a store that was closed is a device that failed.
impl From<StoreFault> for Failure {
    ghost from_gives = { λ fault e. e ≡ of_store fault };

    fn from(_: StoreFault) -> Self {
        Failure::Device
    }
}

impl From<RunFault> for Failure {
    ghost from_gives = { λ fault e. e ≡ of_run fault };

    fn from(fault: RunFault) -> Self {
        match fault {
            RunFault::Read => Failure::CannotRead,
            RunFault::Write => Failure::CannotWrite,
        }
    }
}
