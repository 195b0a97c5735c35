// Labels of images.
ghost use Rattle.std.specs.Prelude.{◌≡◌, ◌≢◌, ◌≤◌, ◌+◌, Some, None, MatchResult, OnOk, IfErr, ◌==◌};
ghost use Rattle.std.specs.List.{list_all};
ghost use Rattle.journal.specs.Layout.{label_by};
ghost use Rattle.recovery.specs.Label.{is_named, number_at, label_refusal_by};
ghost use Rattle.recovery.specs.declared.fault.OpenFault.TheVariants.{BadSize};

use crate::OpenFault;
use byteorder::{ByteOrder, LittleEndian};

/// Whether a label is the good one of a layout, for an image of so many blocks, or else why not: the first of NoLabel,
/// OtherVersion and WrongCount that holds.
/// Rule: IMAGE, The bytes.
pub fn check_label(label: &[u8; 512], version: u16, blocks: u16) -> Result<(), OpenFault>
    ensures exact { MatchResult result (λ _. label_refusal_by version blocks label.now ≡ None)
        (λ e. label_refusal_by version blocks label.now ≡ Some e) }
    ensures good { OnOk result (label.now ≡ label_by version blocks) }
    ensures sized { IfErr result (λ e. e ≢ BadSize) }
{
    if !is_label(label) {
        return Err(OpenFault::NoLabel);
    }
    if number(label, 8) != version {
        return Err(OpenFault::OtherVersion);
    }
    if number(label, 10) != blocks {
        return Err(OpenFault::WrongCount);
    }
    Ok(())
}

fn is_label(label: &[u8; 512]) -> bool
    ensures { result ≡ is_named label.now }
{
    let (_, rest) = label.split_at(12);
    label.starts_with(b"F83BLOCK") && is_zero(rest)
}

fn is_zero(bytes: &[u8]) -> bool
    ensures { result ≡ list_all (λ byte. byte == 0) bytes.now }
{
    bytes.iter().all(|byte| *byte == 0)
}

fn number(bytes: &[u8; 512], at: usize) -> u16
    requires { at + 2 ≤ 512 }
    ensures { result ≡ number_at bytes.now at }
{
    LittleEndian::read_u16(&bytes[at..])
}
