// Why an image isn't opened, made or upgraded.
ghost use Rattle.std.specs.Prelude.{◌≡◌};
ghost use Rattle.recovery.specs.declared.fault.OpenFault.TheVariants.{Device};

use sector_disk::DeviceFault;
use thiserror::Error;

/// Why an image isn't opened or made.
#[derive(Clone, Copy, Debug, PartialEq, Eq, Error)]
pub enum OpenFault {
    #[error("no image has so many sectors")]
    BadSize = 1,
    #[error("there is no label")]
    NoLabel = 2,
    #[error("the label has another version")]
    OtherVersion = 3,
    #[error("the label counts other blocks")]
    WrongCount = 4,
    #[error("the device failed")]
    Device = 5,
    /// By layout 2 an open gate stands over a record that isn't that of its slots, as the text says; by layout 3 a
    /// block doesn't fit its tag, or the sum of the record isn't that of the tags, and the text is the same.
    #[error("an open gate stands over a record that isn't that of its slots")]
    Damaged = 6,
}

impl From<DeviceFault> for OpenFault {
    ghost from_gives = { λ _ e. e ≡ Device };

    fn from(_: DeviceFault) -> Self {
        OpenFault::Device
    }
}

/// Why an image isn't made of another one, as by an upgrade: what was refused of the old image, or of the new one, or
/// whose device failed.
#[derive(Clone, Copy, Debug, PartialEq, Eq, Error)]
pub enum UpgradeFault {
    #[error("the old image: {0}")]
    Old(OpenFault),
    #[error("the new image: {0}")]
    New(OpenFault),
}
