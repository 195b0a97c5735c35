//! Why a call didn't do what it was asked for, as C is told it.
//! Rule: EMBEDDING, What is proved.
ghost use Rattle.std.specs.Prelude.{◌≡◌, ◌<◌, ◌≤◌, ◌≢◌};
ghost use Rattle.hosted.specs.Calls.{device_after};
ghost use Rattle.hosted.specs.Refusals.{code_of, of_image, of_run, answer_of};

use recovery::OpenFault;
use sessions::RunFault;

/// Why a call didn't do what it was asked for. C is told its number (`code`), and 0 of a call that was done.
#[derive(Clone, Copy, Debug, PartialEq, Eq, Drop)]
pub enum Refusal {
    /// No image has so many sectors, or none of so many blocks.
    BadSize,
    /// The image has no label.
    NoLabel,
    /// The label has another version.
    OtherVersion,
    /// The label counts other blocks.
    WrongCount,
    /// A call of the device failed.
    Device,
    /// By layout 2 an open gate stands over a record that isn't that of its slots; by layout 3 a block doesn't fit its
    /// tag, or the sum of the record isn't that of the tags.
    Damaged,
    /// The image has no such block.
    NoBlock,
    /// There aren't 1,024 bytes for each block.
    BadLength,
    /// A line may take no step.
    NoSteps,
    /// The input failed.
    Input,
    /// The output failed.
    Output,
    /// There is not enough memory.
    NoMemory,
}

impl Refusal {
    /// Its number, 1 to 12.
    pub fn code(self) -> u8
        ensures value { result ≡ code_of self }
        ensures refused { 0 < result }
        ensures listed { result ≤ 12 }
    {
        match self {
            Refusal::BadSize => 1,
            Refusal::NoLabel => 2,
            Refusal::OtherVersion => 3,
            Refusal::WrongCount => 4,
            Refusal::Device => 5,
            Refusal::Damaged => 6,
            Refusal::NoBlock => 7,
            Refusal::BadLength => 8,
            Refusal::NoSteps => 9,
            Refusal::Input => 10,
            Refusal::Output => 11,
            Refusal::NoMemory => 12,
        }
    }
}

impl From<OpenFault> for Refusal {
    ghost from_gives = { λ fault e. e ≡ of_image fault };

    fn from(fault: OpenFault) -> Self {
        match fault {
            OpenFault::BadSize => Refusal::BadSize,
            OpenFault::NoLabel => Refusal::NoLabel,
            OpenFault::OtherVersion => Refusal::OtherVersion,
            OpenFault::WrongCount => Refusal::WrongCount,
            OpenFault::Device => Refusal::Device,
            OpenFault::Damaged => Refusal::Damaged,
        }
    }
}

impl From<RunFault> for Refusal {
    ghost from_gives = { λ fault e. e ≡ of_run fault };

    fn from(fault: RunFault) -> Self {
        match fault {
            RunFault::Read => Refusal::Input,
            RunFault::Write => Refusal::Output,
        }
    }
}

/// What C is told, 0 where the call was done and else the number of the refusal, and the device.
pub fn told<D>(outcome: Result<D, (Refusal, D)>) -> (u8, D)
    ensures number { result.0 ≡ answer_of outcome }
    ensures device { result.1 ≡ device_after outcome }
{
    match outcome {
        Ok(device) => (0, device),
        Err((refusal, device)) => (refusal.code(), device),
    }
}
