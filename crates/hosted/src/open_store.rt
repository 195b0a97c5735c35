//! An open store in the memory of a C program.
//! Rule: EMBEDDING, What the host owes.
ghost use Rattle.std.specs.Prelude.{◌≡◌, ◌≢◌, true, None, Some, IfOk, IfErr};
ghost use Rattle.hosted.specs.Keeping.{gate_in, kept_after, kept_answer, SamePlace};

use crate::refusal::Refusal;

/// What `state` says of a store that is open, by the state of its gate. Any other number says that none is open.
pub const GATE_SHUT: u32 = 0x5348_5554;

pub const GATE_OPEN: u32 = 0x4F50_454E;

/// What stays of an open store between two calls. It lies in the memory of the C program, which looks at nothing of it.
#[derive(Drop)]
#[repr(C)]
pub struct OpenStore {
    /// The number of its device.
    pub device: i32,
    /// How many sectors that has.
    pub sectors: u32,
    /// Whether the store is open, and then whether its gate is.
    pub state: u32,
    /// The record that the gate names, by layout 3.
    pub listing: [u8; 512],
}

/// Whether the gate is open, of a store that is. None where none is open, whatever bytes lie there.
pub fn gate(store: &OpenStore) -> Option<bool>
    ensures { result ≡ gate_in store.now }
{
    if store.state == GATE_OPEN {
        Some(true)
    } else if store.state == GATE_SHUT {
        Some(false)
    } else {
        None
    }
}

/// Says that the store is open, and whether its gate is.
pub fn keep_open(store: &mut OpenStore, is_open: bool)
    ensures gate { gate_in store.new ≡ Some is_open }
    ensures listing { store.new.listing ≡ store.old.listing }
    ensures place { SamePlace store.old store.new }
{
    store.state = if is_open { GATE_OPEN } else { GATE_SHUT };
}

/// Says that no store is open there. The device isn't called.
pub fn close(store: &mut OpenStore)
    ensures gate { gate_in store.new ≡ None }
    ensures listing { store.new.listing ≡ store.old.listing }
    ensures place { SamePlace store.old store.new }
{
    store.state = 0;
}

/// The number that C is told of a call over an open store, 0 to 12, and the device. The store stays open where the call
/// was done, and isn't after a fault of the device; at another refusal it stays as it was.
/// Rule: EMBEDDING, What is proved.
pub fn told_kept<D>(outcome: Result<(D, bool), (Refusal, D)>, store: &mut OpenStore) -> (u8, D)
    ensures number { result.0 ≡ kept_answer outcome }
    ensures device { result.1 ≡ kept_after outcome }
    ensures open { IfOk outcome (λ kept. gate_in store.new ≡ Some kept.1) }
    ensures closed { IfErr outcome (λ e. e.0 ≡ Refusal.Device → gate_in store.new ≡ None) }
    ensures same { IfErr outcome (λ e. e.0 ≢ Refusal.Device → store.new ≡ store.old) }
    ensures listing { store.new.listing ≡ store.old.listing }
    ensures place { SamePlace store.old store.new }
{
    match outcome {
        Ok((device, is_open)) => {
            keep_open(store, is_open);
            (0, device)
        }
        Err((Refusal::Device, device)) => {
            close(store);
            (Refusal::Device.code(), device)
        }
        Err((refusal, device)) => (refusal.code(), device),
    }
}
