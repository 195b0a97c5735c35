//! A digest of each block of an image is printed, so that images are compared by what differs.
//! Rule: MANUAL, forth83 check IMAGE.
ghost use Rattle.std.specs.Prelude.{◌≡◌, ◌≢◌, ◌⊎◌, ◌++◌, None, Some, IsTrue, IfErr, IfOk, MatchResult, OnOk, option_map, string_bytes};
ghost use Rattle.std.specs.Io.KnownBytes.{Appends};
ghost use Rattle.sha2.specs.Sha256.{sha256};
ghost use Rattle.sector_disk.specs.Counting.{count_up};
ghost use Rattle.recovery.specs.Steps.{OnlyRead};
ghost use Rattle.stores.specs.Opened.{image_refusal};
ghost use Rattle.terminal.specs.Compared.{TellsEach, digest_line, digest_report};
ghost use Rattle.terminal.specs.Failures.{of_image};

use super::all_blocks::read_all;
use super::checking::print;
use super::failure::Failure;
use super::screen::BLOCK;
use sector_disk::SectorDevice;
use sha2::{Digest, Sha256};
use std::alloc::{AllocError, Global};
use std::io::Write;

/// Prints a line for each block of the image on a device. Where it is refused nothing is printed. Its failures are
/// those of an opening, the first that holds; `Device` where a call of the device failed, `NoMemory`, and `CannotWrite`
/// where the output failed.
pub fn digest_over<D: SectorDevice, W: Write>(
    alloc: Global,
    device: &mut D,
    output: &mut W,
) -> Result<(), Failure>
    ensures tells { OnOk result (TellsEach D.SectorDevice (W.contents output.old) (W.contents output.new) device.old device.new) }
    // Each refusal tells the first test that the image fails, by the layout of its size.
    ensures exact { IsTrue (D.keeps_model device.old) → MatchResult result
        (λ _. image_refusal (D.sector_count device.old) (D.disk device.old).content ≡ None)
        (λ e. (e ≡ Failure.NoMemory) ⊎ (e ≡ Failure.Device) ⊎ (e ≡ Failure.CannotWrite) ⊎ (Some e ≡ option_map of_image
        (image_refusal (D.sector_count device.old) (D.disk device.old).content))) }
    // A fault of the device is told just where one of its calls failed.
    ensures device { IfErr result (λ e. e ≡ Failure.Device → D.failures device.new ≡ count_up (D.failures device.old)) }
    ensures refused { IfErr result (λ e. e ≢ Failure.Device → D.failures device.new ≡ D.failures device.old) }
    ensures well { OnOk result (D.failures device.new ≡ D.failures device.old) }
    // Where nothing is told of the image, nothing was printed.
    ensures unprinted { IfErr result (λ e. e ≢ Failure.CannotWrite → output.new ≡ output.old) }
    // Whatever the answer is, nothing was written or synced.
    ensures only_read { OnlyRead D.SectorDevice device.old device.new }
{
    match read_all(alloc, device) {
        Ok(bytes) => print_digests(alloc, bytes.as_slice(), output),
        Err(failure) => Err(failure),
    }
}

/// Prints a line for each block of these bytes.
fn print_digests<W: Write>(alloc: Global, bytes: &[u8], output: &mut W) -> Result<(), Failure>
    ensures ok { OnOk result (Appends (W.contents output.old) (W.contents output.new) (digest_report bytes.now)) }
    ensures only { IfErr result (λ e. (e ≡ Failure.NoMemory) ⊎ (e ≡ Failure.CannotWrite)) }
    ensures unprinted { IfErr result (λ e. e ≢ Failure.CannotWrite → output.new ≡ output.old) }
{
    match digest_lines(alloc, bytes) {
        Ok(text) => print(text.as_bytes(), output),
        Err(_) => Err(Failure::NoMemory),
    }
}

/// A line for each block of these bytes.
fn digest_lines(alloc: Global, bytes: &[u8]) -> Result<String, AllocError>
    ensures { IfOk result (λ text. string_bytes text ≡ digest_report bytes.now) }
{
    let mut text = String::new(alloc);
    let mut rest = bytes;
    for block in 0..bytes.len() / BLOCK {
        let (this, below) = rest.split_at(BLOCK);
        add_digest_line(alloc, &mut text, block, this)?;
        rest = below;
    }
    Ok(text)
}

/// Adds the line of a block.
fn add_digest_line(
    alloc: Global,
    text: &mut String,
    block: usize,
    bytes: &[u8],
) -> Result<(), AllocError>
    ensures { OnOk result (string_bytes text.new ≡ string_bytes text.old ++ digest_line block bytes.now) }
{
    let digest = hex::encode(alloc, digest_of(bytes))?;
    writeln!(text, "block {block}: {digest}")
}

/// The SHA-256 of bytes.
fn digest_of(bytes: &[u8]) -> [u8; 32]
    ensures { result ≡ sha256 bytes.now }
{
    Sha256::digest(bytes)
}
