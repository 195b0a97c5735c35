// A device that fails on purpose.
ghost use Rattle.std.specs.Prelude.{◌≡◌, ◌⊎◌, ◌==◌, nat_le, ℕ, ◌+◌, ◌<◌, ◌≤◌, Bool, true, false, IsErr, IsTrue, ◌↔◌};
ghost use Rattle.sector_disk.specs.Disk.{Disk, Image};
ghost use Rattle.sector_disk.specs.Counting.{CountsFailure};
ghost use Rattle.sector_disk.specs.Fuse.{will_fail};

use crate::device::count_failure;
use crate::{Counts, DeviceFault, SectorDevice};

/// Which calls fail.
#[derive(Clone, Copy)]
pub(crate) enum Fuse {
    // So many calls pass, the next one fails, and all after it pass.
    Once(u64),
    // So many calls pass, and all after them fail.
    From(u64),
    // All calls pass.
    Blown,
}

impl Fuse {
    // Counts this call, and fails where it is one that fails.
    pub(crate) fn burn(&mut self) -> Result<(), DeviceFault>
        ensures fails { IsErr result ↔ IsTrue (will_fail self.old 1) }
        ensures further { (j : ℕ) → 1 ≤ j → will_fail self.new j ≡ will_fail self.old (j + 1) }
    {
        match *self {
            Fuse::Once(0) => {
                *self = Fuse::Blown;
                Err(DeviceFault)
            }
            Fuse::Once(passes) => {
                *self = Fuse::Once(passes - 1);
                Ok(())
            }
            Fuse::From(0) => Err(DeviceFault),
            Fuse::From(passes) => {
                *self = Fuse::From(passes - 1);
                Ok(())
            }
            Fuse::Blown => Ok(()),
        }
    }
}

/// A device of which one call fails, or all calls from one on, without being passed on.
/// Rule: IMAGE, The device.
#[derive(Drop)]
pub struct Fused<D> {
    device: D,
    fuse: Fuse,
    failures: u64,
    counts: Counts,
}

impl<D: SectorDevice> Fused<D> {
    ghost use Rattle.std.specs.Prelude.{◌^◌, ◌-◌, min};
    ghost use Rattle.sector_disk.specs.Fused.{device_of, fails_at};

    /// Fails the `k`-th call of a read, a write or a sync, counted from 1; the others are passed on.
    pub fn once(device: D, k: u64) -> Self
        requires { 1 ≤ k }
        ensures device { device_of result ≡ device }
        ensures fails { (j : ℕ) → fails_at result j ≡ (j == k) }

        // So it holds what the device holds, and keeps the disk model, and by sectors, where that does.
        ensures disk { ⟦<Fused<D> as SectorDevice>⟧.disk result ≡ D.disk device }
        ensures model { ⟦<Fused<D> as SectorDevice>⟧.keeps_model result ≡ D.keeps_model device }
        ensures units { ⟦<Fused<D> as SectorDevice>⟧.keeps_sectors result ≡ D.keeps_sectors device }
        ensures sectors { ⟦<Fused<D> as SectorDevice>⟧.sector_count result ≡ D.sector_count device }

        // Its own calls are counted from 0, and its failures on from those of the device.
        ensures counts { ⟦<Fused<D> as SectorDevice>⟧.counts result ≡ record { reads = 0; writes = 0; syncs = 0 } }
        ensures failures { ⟦<Fused<D> as SectorDevice>⟧.failures result ≡ min (D.failures device) (2 ^ 64 - 1) }
    {
        Fused::with_fuse(device, Fuse::Once(k - 1))
    }

    /// Fails the `k`-th call of a read, a write or a sync, counted from 1, and all calls after it.
    pub fn from(device: D, k: u64) -> Self
        requires { 1 ≤ k }
        ensures device { device_of result ≡ device }
        ensures fails { (j : ℕ) → fails_at result j ≡ nat_le k j }

        // So it holds what the device holds, and keeps the disk model, and by sectors, where that does.
        ensures disk { ⟦<Fused<D> as SectorDevice>⟧.disk result ≡ D.disk device }
        ensures model { ⟦<Fused<D> as SectorDevice>⟧.keeps_model result ≡ D.keeps_model device }
        ensures units { ⟦<Fused<D> as SectorDevice>⟧.keeps_sectors result ≡ D.keeps_sectors device }
        ensures sectors { ⟦<Fused<D> as SectorDevice>⟧.sector_count result ≡ D.sector_count device }

        // Its own calls are counted from 0, and its failures on from those of the device.
        ensures counts { ⟦<Fused<D> as SectorDevice>⟧.counts result ≡ record { reads = 0; writes = 0; syncs = 0 } }
        ensures failures { ⟦<Fused<D> as SectorDevice>⟧.failures result ≡ min (D.failures device) (2 ^ 64 - 1) }
    {
        Fused::with_fuse(device, Fuse::From(k - 1))
    }

    /// The device within, as it is.
    pub fn into_device(self) -> D
        ensures device { result ≡ device_of self }
        ensures disk { D.disk result ≡ ⟦<Fused<D> as SectorDevice>⟧.disk self }
        ensures model { D.keeps_model result ≡ ⟦<Fused<D> as SectorDevice>⟧.keeps_model self }
        ensures units { D.keeps_sectors result ≡ ⟦<Fused<D> as SectorDevice>⟧.keeps_sectors self }
        ensures sectors { D.sector_count result ≡ ⟦<Fused<D> as SectorDevice>⟧.sector_count self }
    {
        let Fused { device, .. } = self;
        device
    }

    fn with_fuse(device: D, fuse: Fuse) -> Self
        ensures device { result.device ≡ device }
        ensures fuse { result.fuse ≡ fuse }
        ensures failures { result.failures ≡ 0 }
        ensures counts { result.counts ≡ record { reads = 0; writes = 0; syncs = 0 } }
    {
        Fused {
            device,
            fuse,
            failures: 0,
            counts: Counts::default(),
        }
    }

    // Counts this call off the fuse, and counts the failure where it fails.
    fn burn(&mut self) -> Result<(), DeviceFault>
        ensures device { self.new.device ≡ self.old.device }
        ensures counts { self.new.counts ≡ self.old.counts }
        ensures failures { CountsFailure self.old.failures self.new.failures result }
        ensures fails { IsErr result ↔ IsTrue (will_fail self.old.fuse 1) }
        ensures further { (j : ℕ) → 1 ≤ j → will_fail self.new.fuse j ≡ will_fail self.old.fuse (j + 1) }
    {
        let outcome = self.fuse.burn();
        count_failure(&mut self.failures, outcome)
    }
}

impl<D: SectorDevice> SectorDevice for Fused<D> {
    ghost use Rattle.std.specs.Prelude.{OnOk, OnErr, ◌^◌, ◌-◌, min};
    ghost use Rattle.sector_disk.specs.Counting.{with_read, with_write, with_sync};
    ghost use Rattle.sector_disk.specs.Disk.{MayLeaveEither, MayWrite, SettlesNothing, settled, written};
    ghost use Rattle.sector_disk.specs.Fused.{device_of, fails_at, GoesOn};
    ghost use Rattle.sector_disk.specs.Moments.{Elapses, LeavesOnly};

    ghost sector_count = { λ f. D.sector_count f.device };

    ghost keeps_model = { λ f. D.keeps_model f.device };

    ghost keeps_sectors = { λ f. D.keeps_sectors f.device };

    ghost disk = { λ f. D.disk f.device };

    ghost time = { λ f. D.time f.device };

    ghost left_since = { λ f t c. D.left_since f.device t c };

    // those of the device and of the fuse together
    ghost failures = { λ f. min (D.failures f.device + f.failures) (2 ^ 64 - 1) };

    ghost counts = { λ f. f.counts };

    ghost present = { λ f keeps. D.present f.device keeps };

    ghost keeps_both = { λ f keeps. D.keeps_both f.device keeps };

    ghost by_pages = { λ f keeps. D.by_pages f.device keeps };

    ghost by_sectors = { λ f k keeps. D.by_sectors f.device k keeps };

    ghost counts_now = { λ f t c le now. D.counts_now f.device t c le now };

    ghost only_now = { λ f c since. D.only_now f.device c since };

    ghost widens = { λ f s t c le since. D.widens f.device s t c le since };

    fn sectors(&self) -> u32 {
        self.device.sectors()
    }

    fn read(&mut self, k: u32, out: &mut [u8; 512]) -> Result<(), DeviceFault>
        requires { k < D.sector_count (device_of self.old) }
        // The fuse lets the call through, or fails it and passes nothing on.
        ensures fails { IsTrue (fails_at self.old 1) → IsErr result }
        ensures untouched { IsTrue (fails_at self.old 1) → device_of self.new ≡ device_of self.old }
        ensures further { (j : ℕ) → 1 ≤ j → fails_at self.new j ≡ fails_at self.old (j + 1) }
        ensures passes { fails_at self.old 1 ≡ false → D.counts (device_of self.new) ≡ with_read (D.counts (device_of self.old)) }
        ensures blames { fails_at self.old 1 ≡ false
            → CountsFailure (D.failures (device_of self.old)) (D.failures (device_of self.new)) result }

        // As for every device.
        ensures bytes { IsTrue (D.keeps_model (device_of self.old))
            → OnOk result (out.new ≡ (D.disk (device_of self.old)).content k) }
        ensures disk { IsTrue (D.keeps_model (device_of self.old)) → D.disk (device_of self.new) ≡ D.disk (device_of self.old) }
        ensures goes_on { GoesOn ⟦<Fused<D> as SectorDevice>⟧ self.old self.new result }
        ensures counts { let n = ⟦<Fused<D> as SectorDevice>⟧.counts in n self.new ≡ with_read (n self.old) }
    {
        self.counts.count_read();
        self.burn()?;
        self.device.read(k, out)
    }

    fn write(&mut self, k: u32, bytes: &[u8; 512]) -> Result<(), DeviceFault>
        requires { k < D.sector_count (device_of self.old) }
        // The fuse lets the call through, or fails it and passes nothing on.
        ensures fails { IsTrue (fails_at self.old 1) → IsErr result }
        ensures untouched { IsTrue (fails_at self.old 1) → device_of self.new ≡ device_of self.old }
        ensures further { (j : ℕ) → 1 ≤ j → fails_at self.new j ≡ fails_at self.old (j + 1) }
        ensures passes { fails_at self.old 1 ≡ false
            → D.counts (device_of self.new) ≡ with_write (D.counts (device_of self.old)) }
        ensures blames { fails_at self.old 1 ≡ false
            → CountsFailure (D.failures (device_of self.old)) (D.failures (device_of self.new)) result }

        // As for every device.
        ensures ok { IsTrue (D.keeps_model (device_of self.old))
            → OnOk result (D.disk (device_of self.new) ≡ written (D.disk (device_of self.old)) k bytes.now) }
        ensures err { IsTrue (D.keeps_model (device_of self.old))
            → OnErr result (MayWrite k (D.disk (device_of self.old)) (D.disk (device_of self.new))) }
        ensures goes_on { GoesOn ⟦<Fused<D> as SectorDevice>⟧ self.old self.new result }
        ensures counts { let n = ⟦<Fused<D> as SectorDevice>⟧.counts in n self.new ≡ with_write (n self.old) }
    {
        self.counts.count_write();
        self.burn()?;
        self.device.write(k, bytes)
    }

    fn sync(&mut self) -> Result<(), DeviceFault>
        // The fuse lets the call through, or fails it and passes nothing on.
        ensures fails { IsTrue (fails_at self.old 1) → IsErr result }
        ensures untouched { IsTrue (fails_at self.old 1) → device_of self.new ≡ device_of self.old }
        ensures further { (j : ℕ) → 1 ≤ j → fails_at self.new j ≡ fails_at self.old (j + 1) }
        ensures passes { fails_at self.old 1 ≡ false → D.counts (device_of self.new) ≡ with_sync (D.counts (device_of self.old)) }
        ensures blames { fails_at self.old 1 ≡ false
            → CountsFailure (D.failures (device_of self.old)) (D.failures (device_of self.new)) result }

        // As for every device.
        ensures ok { IsTrue (D.keeps_model (device_of self.old))
            → OnOk result (D.disk (device_of self.new) ≡ settled (D.disk (device_of self.old))) }
        ensures err { IsTrue (D.keeps_model (device_of self.old))
            → OnErr result (SettlesNothing (D.disk (device_of self.old)) (D.disk (device_of self.new))) }
        ensures goes_on { GoesOn ⟦<Fused<D> as SectorDevice>⟧ self.old self.new result }
        ensures counts { let n = ⟦<Fused<D> as SectorDevice>⟧.counts in n self.new ≡ with_sync (n self.old) }
    {
        self.counts.count_sync();
        self.burn()?;
        self.device.sync()
    }
}
