//! Laws of the definitions.
//! Rule: SEMANTICS, Laws.
ghost use Rattle.std.specs.Prelude.{ℕ, List};
ghost use Rattle.terminal.specs.Again.{AnyMomentImportThenRun, AnyMomentPutThenRun, AnyMomentThenRun, BrokenRunThenRun, Chain, EndedIsFound, FaultThenRun, ImportThenRun, NewThenImport, PutThenRun, PutThenRunOn, RunThenExport, RunThenRun, RunThenRunOn, StoppedImportThenRun, StoppedIsFound, StoppedPutThenRun, StoppedRecovery, StoppedRunThenRun};

use super::world::World;
use sector_disk::SectorDevice;

/// Does nothing. Its contract is a law: what one command has left of an image is what the next one opens, if that is
/// found again, whether it ended or was stopped at some moment; so of two in a row, and of a chain of them. Of a `run`
/// that ended it is so where no fault closed its store, and of a stop in a recovery where one before it left the
/// image's blocks. What was read of named files are texts of any system.
pub fn again<X: World, D: SectorDevice>()
    ensures stopped { StoppedIsFound D.SectorDevice }
    ensures ended { EndedIsFound D.SectorDevice }
    ensures stopped_recovery { StoppedRecovery D.SectorDevice }
    ensures new_then_import { (world : X) → NewThenImport D.SectorDevice (X.gives world).is_text }
    ensures import_then_run { (world : X) → ImportThenRun D.SectorDevice (X.gives world).is_text }
    ensures stopped_import_then_run { (world : X) → StoppedImportThenRun D.SectorDevice (X.gives world).is_text }
    ensures any_moment_import_then_run { (world : X) → AnyMomentImportThenRun D.SectorDevice (X.gives world).is_text }
    ensures put_then_run { (world : X) → PutThenRun D.SectorDevice (X.gives world).is_text }
    ensures stopped_put_then_run { (world : X) → StoppedPutThenRun D.SectorDevice (X.gives world).is_text }
    ensures any_moment_put_then_run { (world : X) → AnyMomentPutThenRun D.SectorDevice (X.gives world).is_text }
    ensures run_then_run { RunThenRun D.SectorDevice }
    ensures stopped_run_then_run { StoppedRunThenRun D.SectorDevice }
    ensures any_moment_then_run { AnyMomentThenRun D.SectorDevice }
    ensures broken_then_run { BrokenRunThenRun D.SectorDevice }
    ensures fault_then_run { (world : X) → FaultThenRun D.SectorDevice (X.gives world).is_text }
    ensures run_then_export { RunThenExport D.SectorDevice }
    ensures chain { (world : X) → Chain D.SectorDevice (X.gives world).is_text }
{}

/// Does nothing. Its contract is a law: of what `command_over` says of `put`, or of `run`, and of a later `run` on the
/// file of that name, in any surroundings that give the file again, the later one is over the blocks that the
/// first one left: those with the text of `put`, or those that `run` saved last, where no fault closed its store.
pub fn over_files<X: World>()
    ensures put_then_run { (world later : X) (path : List ℕ) → PutThenRunOn X.Disk.SectorDevice ((X.gives world).opened path)
        ((X.gives later).opened path) (X.gives world).is_text (X.gives later).is_text }
    ensures run_then_run { (world later : X) (path : List ℕ) → RunThenRunOn X.Disk.SectorDevice ((X.gives world).opened path)
        ((X.gives later).opened path) (X.gives world).is_text (X.gives later).is_text }
{
    again::<X, X::Disk>();
}
