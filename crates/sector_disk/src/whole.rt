// Reads and writes of a file that go on until all is done.
ghost use Rattle.std.specs.Prelude.{◌≡◌, ℕ, ◌<◌, ◌≤◌, ◌+◌, ◌^◌, IsTrue, Ok, Err, IfOk, OnOk, length};
ghost use Rattle.sector_disk.specs.FileBytes.{Spoils, Puts, Gives};
ghost use Rattle.sector_disk.specs.Whole.{Goes};

use crate::{DeviceFault, HostFault, HostFile};

// How many bytes were moved. An interrupted call has moved none and is made again; one that moved none by itself would
// be made for ever.
fn moved(outcome: Result<usize, HostFault>) -> Result<usize, DeviceFault>
    ensures some { IfOk result (λ n. 0 < n → outcome ≡ Ok n) }
    ensures none { IfOk result (λ n. n ≡ 0 → outcome ≡ Err HostFault.Interrupted) }
{
    match outcome {
        Ok(n) => {
            if n == 0 {
                return Err(DeviceFault);
            }
            Ok(n)
        }
        Err(HostFault::Interrupted) => Ok(0),
        Err(HostFault::Failed) => Err(DeviceFault),
    }
}

fn read_some<H: HostFile>(file: &mut H, at: u64, out: &mut [u8]) -> Result<usize, DeviceFault>
    ensures count { IfOk result (λ n. n ≤ length out.old) }
    ensures gives { IsTrue (H.keeps_model file.old) → IfOk result (λ n. Gives (H.bytes file.old) at out.new n) }
    ensures bytes { H.bytes file.new ≡ H.bytes file.old }
    ensures goes { Goes H.HostFile file.old file.new }
{
    moved(file.read_at(at, out))
}

fn write_some<H: HostFile>(file: &mut H, at: u64, bytes: &[u8]) -> Result<usize, DeviceFault>
    ensures count { IfOk result (λ n. n ≤ length bytes.now) }
    ensures puts { IsTrue (H.keeps_model file.old) → IfOk result (λ n. Puts at bytes.now n (H.bytes file.old) (H.bytes file.new)) }
    ensures spoils { Spoils at (length bytes.now) (H.bytes file.old) (H.bytes file.new) }
    ensures goes { Goes H.HostFile file.old file.new }
{
    moved(file.write_at(at, bytes))
}

/// Reads as many bytes as there is room for.
pub(crate) fn read_whole<H: HostFile>(
    file: &mut H,
    at: u64,
    out: &mut [u8],
) -> Result<(), DeviceFault>
    requires { at + length out.old < 2 ^ 64 }
    ensures gives { IsTrue (H.keeps_model file.old) → OnOk result (Gives (H.bytes file.old) at out.new (length out.old)) }
    ensures bytes { H.bytes file.new ≡ H.bytes file.old }
    ensures goes { Goes H.HostFile file.old file.new }
{
    let mut done = 0;
    for _ in 0..u64::MAX {
        if done >= out.len() {
            return Ok(());
        }
        done += read_some(file, at + done as u64, &mut out[done..])?;
    }
    Err(DeviceFault)
}

/// Writes all bytes.
pub(crate) fn write_whole<H: HostFile>(
    file: &mut H,
    at: u64,
    bytes: &[u8],
) -> Result<(), DeviceFault>
    requires { at + length bytes.now < 2 ^ 64 }
    ensures puts { IsTrue (H.keeps_model file.old) → OnOk result (Puts at bytes.now (length bytes.now) (H.bytes file.old) (H.bytes file.new)) }
    ensures spoils { Spoils at (length bytes.now) (H.bytes file.old) (H.bytes file.new) }
    ensures goes { Goes H.HostFile file.old file.new }
{
    let mut done = 0;
    for _ in 0..u64::MAX {
        if done >= bytes.len() {
            return Ok(());
        }
        done += write_some(file, at + done as u64, &bytes[done..])?;
    }
    Err(DeviceFault)
}
