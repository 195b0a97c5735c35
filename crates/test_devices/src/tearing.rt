// A device that tears a write on purpose.
ghost use Rattle.std.specs.Prelude.{◌≡◌, ◌⊎◌, ◌==◌, ℕ, ◌+◌, ◌<◌, ◌≤◌, Bool, false, IsErr, IsTrue, ◌↔◌};
ghost use Rattle.sector_disk.specs.Disk.{Disk, Image};
ghost use Rattle.test_devices.specs.Tearing.{will_tear};

use sector_disk::{Counts, DeviceFault, SectorDevice, count_failure};

/// A device of which one call fails. Where that is a write, its sector holds other bytes afterwards; any other call
/// isn't passed on.
/// Rule: IMAGE, The device.
#[derive(Drop)]
pub struct Tearing<D> {
    device: D,
    // the call that fails, counted from 1 on; 0 once it has
    call: u64,
    torn: [u8; 512],
    failures: u64,
    counts: Counts,
}

impl<D: SectorDevice> Tearing<D> {
    ghost use Rattle.std.specs.Prelude.{◌^◌, ◌-◌, min};
    ghost use Rattle.test_devices.specs.Tearing.{torn_device_of, tears_at, torn_bytes};

    /// Fails the `k`-th call of a read, a write or a sync, counted from 1. A write that is failed leaves the bytes
    /// `torn` in its sector, unless the device fails it as well.
    pub fn once(device: D, k: u64, torn: [u8; 512]) -> Self
        requires { 1 ≤ k }
        ensures device { torn_device_of result ≡ device }
        ensures fails { (j : ℕ) → tears_at result j ≡ (j == k) }
        ensures torn { torn_bytes result ≡ torn }

        // So it holds what the device holds, and keeps the disk model, and by sectors, where that does.
        ensures disk { ⟦<Tearing<D> as SectorDevice>⟧.disk result ≡ D.disk device }
        ensures model { ⟦<Tearing<D> as SectorDevice>⟧.keeps_model result ≡ D.keeps_model device }
        ensures units { ⟦<Tearing<D> as SectorDevice>⟧.keeps_sectors result ≡ D.keeps_sectors device }
        ensures sectors { ⟦<Tearing<D> as SectorDevice>⟧.sector_count result ≡ D.sector_count device }

        // Its own calls are counted from 0, and its failures on from those of the device.
        ensures counts { ⟦<Tearing<D> as SectorDevice>⟧.counts result ≡ record { reads = 0; writes = 0; syncs = 0 } }
        ensures failures { ⟦<Tearing<D> as SectorDevice>⟧.failures result ≡ min (D.failures device) (2 ^ 64 - 1) }
    {
        Tearing {
            device,
            call: k,
            torn,
            failures: 0,
            counts: Counts::default(),
        }
    }

    /// The device within, as it is.
    pub fn into_device(self) -> D
        ensures device { result ≡ torn_device_of self }
        ensures disk { D.disk result ≡ ⟦<Tearing<D> as SectorDevice>⟧.disk self }
        ensures model { D.keeps_model result ≡ ⟦<Tearing<D> as SectorDevice>⟧.keeps_model self }
        ensures units { D.keeps_sectors result ≡ ⟦<Tearing<D> as SectorDevice>⟧.keeps_sectors self }
        ensures sectors { D.sector_count result ≡ ⟦<Tearing<D> as SectorDevice>⟧.sector_count self }
    {
        let Tearing { device, .. } = self;
        device
    }
}

impl<D: SectorDevice> SectorDevice for Tearing<D> {
    ghost use Rattle.std.specs.Prelude.{OnOk, OnErr, ◌^◌, ◌-◌, min};
    ghost use Rattle.sector_disk.specs.Counting.{CountsFailure, with_read, with_write, with_sync};
    ghost use Rattle.sector_disk.specs.Disk.{MayWrite, SettlesNothing, settled, written};
    ghost use Rattle.sector_disk.specs.Fused.{GoesOn};
    ghost use Rattle.test_devices.specs.Tearing.{torn_device_of, tears_at, torn_bytes};

    ghost sector_count = { λ f. D.sector_count f.device };

    ghost keeps_model = { λ f. D.keeps_model f.device };

    ghost keeps_sectors = { λ f. D.keeps_sectors f.device };

    ghost disk = { λ f. D.disk f.device };

    ghost time = { λ f. D.time f.device };

    ghost left_since = { λ f t c. D.left_since f.device t c };

    // those of the device and those made here together
    ghost failures = { λ f. min (D.failures f.device + f.failures) (2 ^ 64 - 1) };

    ghost counts = { λ f. f.counts };

    ghost present = { λ f keeps. D.present f.device keeps };

    ghost keeps_both = { λ f keeps. D.keeps_both f.device keeps };

    ghost by_pages = { λ f keeps. D.by_pages f.device keeps };

    ghost by_sectors = { λ f k keeps. D.by_sectors f.device k keeps };

    ghost counts_now = { λ f t c le now. D.counts_now f.device t c le now };

    ghost only_now = { λ f c since. D.only_now f.device c since };

    ghost widens = { λ f s t c le since. D.widens f.device s t c le since };

    fn sectors(&self) -> u32 {
        self.device.sectors()
    }

    fn read(&mut self, k: u32, out: &mut [u8; 512]) -> Result<(), DeviceFault>
        requires { k < D.sector_count (torn_device_of self.old) }
        // The call is let through, or fails and passes nothing on.
        ensures fails { IsTrue (tears_at self.old 1) → IsErr result }
        ensures untouched { IsTrue (tears_at self.old 1) → torn_device_of self.new ≡ torn_device_of self.old }
        ensures passes { tears_at self.old 1 ≡ false
            → D.counts (torn_device_of self.new) ≡ with_read (D.counts (torn_device_of self.old)) }
        ensures blames { tears_at self.old 1 ≡ false
            → CountsFailure (D.failures (torn_device_of self.old)) (D.failures (torn_device_of self.new)) result }
        ensures further { (j : ℕ) → 1 ≤ j → tears_at self.new j ≡ tears_at self.old (j + 1) }
        ensures torn { torn_bytes self.new ≡ torn_bytes self.old }

        // As for every device.
        ensures bytes { IsTrue (D.keeps_model (torn_device_of self.old))
            → OnOk result (out.new ≡ (D.disk (torn_device_of self.old)).content k) }
        ensures disk { IsTrue (D.keeps_model (torn_device_of self.old))
            → D.disk (torn_device_of self.new) ≡ D.disk (torn_device_of self.old) }
        ensures goes_on { GoesOn ⟦<Tearing<D> as SectorDevice>⟧ self.old self.new result }
        ensures counts { let n = ⟦<Tearing<D> as SectorDevice>⟧.counts in n self.new ≡ with_read (n self.old) }
    {
        self.counts.count_read();
        match burn(&mut self.call) {
            Ok(()) => self.device.read(k, out),
            Err(fault) => count_failure(&mut self.failures, Err(fault)),
        }
    }

    fn write(&mut self, k: u32, bytes: &[u8; 512]) -> Result<(), DeviceFault>
        requires { k < D.sector_count (torn_device_of self.old) }
        // The call is let through, or fails and has the other bytes written.
        ensures fails { IsTrue (tears_at self.old 1) → IsErr result }
        ensures tears { IsTrue (tears_at self.old 1) → IsTrue (D.keeps_model (torn_device_of self.old))
            → D.failures (torn_device_of self.new) ≡ D.failures (torn_device_of self.old)
            → D.failures (torn_device_of self.old) < 2 ^ 64 - 1
            → D.disk (torn_device_of self.new) ≡ written (D.disk (torn_device_of self.old)) k (torn_bytes self.old) }
        ensures passes { D.counts (torn_device_of self.new) ≡ with_write (D.counts (torn_device_of self.old)) }
        ensures blames { tears_at self.old 1 ≡ false
            → CountsFailure (D.failures (torn_device_of self.old)) (D.failures (torn_device_of self.new)) result }
        ensures further { (j : ℕ) → 1 ≤ j → tears_at self.new j ≡ tears_at self.old (j + 1) }
        ensures torn { torn_bytes self.new ≡ torn_bytes self.old }

        // As for every device.
        ensures ok { IsTrue (D.keeps_model (torn_device_of self.old))
            → OnOk result (D.disk (torn_device_of self.new) ≡ written (D.disk (torn_device_of self.old)) k bytes.now) }
        ensures err { IsTrue (D.keeps_model (torn_device_of self.old))
            → OnErr result (MayWrite k (D.disk (torn_device_of self.old)) (D.disk (torn_device_of self.new))) }
        ensures goes_on { GoesOn ⟦<Tearing<D> as SectorDevice>⟧ self.old self.new result }
        ensures counts { let n = ⟦<Tearing<D> as SectorDevice>⟧.counts in n self.new ≡ with_write (n self.old) }
    {
        self.counts.count_write();
        match burn(&mut self.call) {
            Ok(()) => self.device.write(k, bytes),
            Err(fault) => {
                // Where this write fails as well, the device has counted that failure.
                self.device.write(k, &self.torn)?;
                count_failure(&mut self.failures, Err(fault))
            }
        }
    }

    fn sync(&mut self) -> Result<(), DeviceFault>
        // The call is let through, or fails and passes nothing on.
        ensures fails { IsTrue (tears_at self.old 1) → IsErr result }
        ensures untouched { IsTrue (tears_at self.old 1) → torn_device_of self.new ≡ torn_device_of self.old }
        ensures passes { tears_at self.old 1 ≡ false
            → D.counts (torn_device_of self.new) ≡ with_sync (D.counts (torn_device_of self.old)) }
        ensures blames { tears_at self.old 1 ≡ false
            → CountsFailure (D.failures (torn_device_of self.old)) (D.failures (torn_device_of self.new)) result }
        ensures further { (j : ℕ) → 1 ≤ j → tears_at self.new j ≡ tears_at self.old (j + 1) }
        ensures torn { torn_bytes self.new ≡ torn_bytes self.old }

        // As for every device.
        ensures ok { IsTrue (D.keeps_model (torn_device_of self.old))
            → OnOk result (D.disk (torn_device_of self.new) ≡ settled (D.disk (torn_device_of self.old))) }
        ensures err { IsTrue (D.keeps_model (torn_device_of self.old))
            → OnErr result (SettlesNothing (D.disk (torn_device_of self.old)) (D.disk (torn_device_of self.new))) }
        ensures goes_on { GoesOn ⟦<Tearing<D> as SectorDevice>⟧ self.old self.new result }
        ensures counts { let n = ⟦<Tearing<D> as SectorDevice>⟧.counts in n self.new ≡ with_sync (n self.old) }
    {
        self.counts.count_sync();
        match burn(&mut self.call) {
            Ok(()) => self.device.sync(),
            Err(fault) => count_failure(&mut self.failures, Err(fault)),
        }
    }
}

// Counts this call, and fails where it is the one that fails.
fn burn(call: &mut u64) -> Result<(), DeviceFault>
    ensures fails { IsErr result ↔ IsTrue (will_tear call.old 1) }
    ensures further { (j : ℕ) → 1 ≤ j → will_tear call.new j ≡ will_tear call.old (j + 1) }
{
    match *call {
        0 => Ok(()),
        1 => {
            *call = 0;
            Err(DeviceFault)
        }
        k => {
            *call = k - 1;
            Ok(())
        }
    }
}
