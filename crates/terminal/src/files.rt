//! The commands over images by their names, a function for each shape of one: it opens the images and makes the new
//! ones, has done on their devices what is asked, and gives back what it has opened or made.
//! Rule: MANUAL, Commands.
ghost use Rattle.std.specs.Prelude.{◌≡◌, ◌≢◌, ◌≤◌, ⊤, None, OnOk, IfOk, IfErr, IfSome, MatchOption, is_some};
ghost use Rattle.terminal.specs.Care.{PrintDone, Shows};
ghost use Rattle.terminal.specs.Copying.{MadeOf};
ghost use Rattle.terminal.specs.Done.{DoneOn, EachLeft, IsGiven};
ghost use Rattle.terminal.specs.Failed.{DiffFailed, FailsOn, IsUntouched, NewFailed, NotShown, NotTold, PrintFailed, PrintsNone, TellsNone, UpgradeFailsBy};
ghost use Rattle.terminal.specs.Layout3.{MakesBlankBy, UpgradesBy, sectors_by, sectors_for_upgrade};
ghost use Rattle.terminal.specs.Shapes.{DiffDone, FailsBy, MakeDone, MakeFailed, MakesBy, MakesSome, NotWritten, Tells, UpgradeDone, UpgradeFailed, Writes, opened_for, sectors_for};
ghost use Rattle.terminal.specs.Unopened.{IsUnopened};

use super::comparing::compare_over;
use super::copying::sectors_for_copy;
use super::deeds::{Looking, Making, Printing, Writing};
use super::failure::Failure;
use super::left::Left;
use super::over_devices::{make_by, make_of, print_over, show, tell, upgrade_by, write_over};
use super::salvaging::sectors_for_salvage;
use super::world::World;
use command_line::orders::Layout;
use journal::layout::{MOST_BLOCKS_1, blocks_of_size};
use journal::sizes::{self, known_blocks, sectors_of};
use sector_disk::SectorDevice;
use std::io::Write;

/// Writes to an image: `put`, `import`. Its failures: `CannotOpen` or `InUse` where it can't be opened for reading and
/// writing, then those of `write_over`.
/// Rule: MANUAL, forth83 put IMAGE BLOCK FILE; MANUAL, forth83 import IMAGE FIRST FILE .. [--raw] [--check].
pub fn write_image<X: World, E: Write>(
    world: &X,
    path: &str,
    deed: Writing<'_>,
    errors: &mut E,
) -> (Left<X::Disk, X::Look>, Result<(), Failure>)
    ensures done { OnOk result.1 (DoneOn X.Disk.SectorDevice Left.Opened ((X.gives world.now).opened path.now)
        (Writes X.Disk.SectorDevice (X.gives world.now).is_text deed.entry) result.0) }
    ensures failed { IfErr result.1 (λ failure. FailsOn X.Disk.SectorDevice Left.Opened ((X.gives world.now).opened path.now)
        (NotWritten X.Disk.SectorDevice (X.gives world.now).is_text (X.gives world.now).is_unread deed.entry) failure result.0) }
{
    match world.open(path) {
        Ok(disk) => {
            let (disk, outcome) = write_over(world, disk, deed, errors);
            (Left::Opened(disk), outcome)
        }
        Err(failure) => (Left::Nothing, Err(failure)),
    }
}

/// Prints blocks of an image, `list` and `export`: after its recovery where it can be opened for writing, and by reads
/// alone where it can't, or is in use. Its failures: `InUse` or `CannotOpen` where it can't be opened for reading
/// either, then those of `print_over` or `show`.
/// Rule: MANUAL, forth83 list IMAGE BLOCK; MANUAL, forth83 export IMAGE FIRST LAST [--raw].
pub fn print_image<X: World, W: Write>(
    world: &X,
    path: &str,
    asked: Printing,
    output: &mut W,
) -> (Left<X::Disk, X::Look>, Result<(), Failure>)
    ensures done { OnOk result.1 (PrintDone X.Disk.SectorDevice X.Look.SectorDevice
        ((X.gives world.now).opened path.now) ((X.gives world.now).looked path.now) asked
        (W.contents output.old) (W.contents output.new) result.0) }
    ensures failed { IfErr result.1 (λ failure. PrintFailed X.Disk.SectorDevice X.Look.SectorDevice
        ((X.gives world.now).opened path.now) ((X.gives world.now).looked path.now) asked failure result.0) }
    ensures unprinted { IfErr result.1 (λ e. PrintsNone asked e → output.new ≡ output.old) }
{
    match world.open(path) {
        Ok(disk) => {
            let (disk, outcome) = print_over(disk, asked, output);
            (Left::Opened(disk), outcome)
        }
        Err(_) => show_image(world, path, asked, output),
    }
}

/// Prints blocks of an image by reads alone. Its failures: `InUse` or `CannotOpen` where it can't be opened for
/// reading, then those of `show`.
fn show_image<X: World, W: Write>(
    world: &X,
    path: &str,
    asked: Printing,
    output: &mut W,
) -> (Left<X::Disk, X::Look>, Result<(), Failure>)
    ensures done { OnOk result.1 (DoneOn X.Look.SectorDevice Left.Looked ((X.gives world.now).looked path.now)
        (Shows X.Look.SectorDevice asked (W.contents output.old) (W.contents output.new)) result.0) }
    ensures failed { IfErr result.1 (λ failure. FailsOn X.Look.SectorDevice Left.Looked ((X.gives world.now).looked path.now)
        (NotShown X.Look.SectorDevice asked) failure result.0) }
    ensures unprinted { IfErr result.1 (λ e. PrintsNone asked e → output.new ≡ output.old) }
{
    match world.look(path) {
        Ok(mut disk) => {
            let outcome = show(&mut disk, asked, output);
            (Left::Looked(disk), outcome)
        }
        Err(failure) => (Left::Nothing, Err(failure)),
    }
}

/// Tells of an image, `check`: it is opened for nothing but that. Its failures: `CannotOpen` or `InUse` where it can't
/// be opened for reading, then those of `tell`.
/// Rule: MANUAL, forth83 check IMAGE.
pub fn tell_image<X: World, W: Write>(
    world: &X,
    path: &str,
    asked: Looking,
    output: &mut W,
) -> (Left<X::Disk, X::Look>, Result<(), Failure>)
    ensures done { OnOk result.1 (DoneOn X.Look.SectorDevice Left.Looked ((X.gives world.now).looked path.now)
        (Tells X.Look.SectorDevice asked (W.contents output.old) (W.contents output.new)) result.0) }
    ensures failed { IfErr result.1 (λ failure. FailsOn X.Look.SectorDevice Left.Looked ((X.gives world.now).looked path.now)
        (NotTold X.Look.SectorDevice asked (W.contents output.old) (W.contents output.new)) failure result.0) }
    ensures unprinted { IfErr result.1 (λ e. TellsNone asked e → output.new ≡ output.old) }
{
    match world.look(path) {
        Ok(mut disk) => {
            let outcome = tell(world.alloc(), &mut disk, asked, output);
            (Left::Looked(disk), outcome)
        }
        Err(failure) => (Left::Nothing, Err(failure)),
    }
}

/// Prints what differs between the blocks of two images, `diff`: they are opened for nothing but that. Its failures:
/// `CannotOpen` or `InUse` where one can't be opened for reading, then those of `compare_over`.
/// Rule: MANUAL, forth83 diff OLD NEW.
pub fn compare_images<X: World, W: Write>(
    world: &X,
    old: &str,
    new: &str,
    output: &mut W,
) -> (Left<X::Disk, X::Look>, Result<(), Failure>)
    ensures done { OnOk result.1 (DiffDone X.Look.SectorDevice ((X.gives world.now).looked old.now) ((X.gives world.now).looked new.now)
        (W.contents output.old) (W.contents output.new) result.0) }
    ensures failed { IfErr result.1 (λ failure. DiffFailed X.Look.SectorDevice
        ((X.gives world.now).looked old.now) ((X.gives world.now).looked new.now) failure result.0) }
    ensures unprinted { IfErr result.1 (λ e. e ≢ Failure.CannotWrite → output.new ≡ output.old) }
{
    match world.look(old) {
        Ok(before) => compare_opened(world, before, new, output),
        Err(failure) => (Left::Nothing, Err(failure)),
    }
}

/// Prints what differs from the blocks of an image on a device to those of another image.
fn compare_opened<X: World, W: Write>(
    world: &X,
    mut before: X::Look,
    new: &str,
    output: &mut W,
) -> (Left<X::Disk, X::Look>, Result<(), Failure>)
    ensures done { OnOk result.1 (DiffDone X.Look.SectorDevice (λ device. device ≡ before) ((X.gives world.now).looked new.now)
        (W.contents output.old) (W.contents output.new) result.0) }
    ensures failed { IfErr result.1 (λ failure. DiffFailed X.Look.SectorDevice
        (λ device. device ≡ before) ((X.gives world.now).looked new.now) failure result.0) }
    ensures unprinted { IfErr result.1 (λ e. e ≢ Failure.CannotWrite → output.new ≡ output.old) }
{
    match world.look(new) {
        Ok(mut after) => {
            let outcome = compare_over(world.alloc(), &mut before, &mut after, output);
            (Left::Compared(before, after), outcome)
        }
        Err(failure) => (Left::Looked(before), Err(failure)),
    }
}

/// Makes an image of blank blocks, 32 to 3,840, by a layout: `new`. Its failures: `Exists` where something has that
/// name already, which stays as it is, `CannotOpen` or `InUse` where the file can't be made or finished, then those of
/// `make_by`. What was made has no name yet, also where it failed.
/// Rule: MANUAL, forth83 new IMAGE --blocks N [--layout L].
pub fn new_image<X: World>(
    world: &X,
    path: &str,
    blocks: u16,
    layout: Layout,
) -> (Left<X::Disk, X::Look>, Result<(), Failure>)
    requires many { 32 ≤ blocks }
    requires few { blocks ≤ 3840 }
    ensures done { OnOk result.1 (DoneOn X.Disk.SectorDevice Left.Made ((X.gives world.now).made path.now (sectors_by layout blocks))
        (MakesBlankBy X.Disk.SectorDevice layout blocks) result.0) }
    ensures failed { IfErr result.1 (λ failure. NewFailed X.Disk.SectorDevice
        ((X.gives world.now).made path.now) ((X.gives world.now).begun path.now) blocks layout failure result.0) }
    // No call of what is given back failed.
    ensures well { OnOk result.1 (EachLeft (λ device. X.Disk.failures device ≡ 0) (λ _. ⊤) result.0) }
{
    match world.make(path, sectors_by(layout, blocks)) {
        Ok(disk) => {
            let (disk, outcome) = make_by(disk, blocks, layout);
            (Left::Made(disk), outcome)
        }
        Err((failure, unfinished)) => (begun(unfinished), Err(failure)),
    }
}

/// How many sectors an image of so many blocks has, by a layout.
fn sectors_by(layout: Layout, blocks: u16) -> u32
    ensures { result ≡ sectors_by layout blocks }
{
    match layout {
        Layout::Two => sectors_of(sizes::Layout::Journal, blocks),
        Layout::Three => sectors_of(sizes::Layout::Pages, blocks),
    }
}

/// The device of an image whose file was made and not finished, if it was.
fn begun<D, E>(unfinished: Option<D>) -> Left<D, E>
    ensures { MatchOption unfinished (result ≡ Left.Nothing) (λ device. result ≡ Left.Made device) }
{
    match unfinished {
        Some(device) => Left::Made(device),
        None => Left::Nothing,
    }
}

/// Makes an image of another one, by the same layout, in a new file, and gives both files: `copy` and `salvage`, of
/// `asked` blocks, or of as many as the old one has. Nothing is made where the old one has the size of no image, or
/// where that number doesn't do (`BadSize`), or where it can't be opened for reading (`CannotOpen`, `InUse`); and
/// whatever has the new name already stays as it is (`Exists`). `CannotOpen` or `InUse` come also where the new file
/// can't be made or finished, with no call of the old one. Its other failures are those of `make_of`. The new file
/// has no name yet, also where it failed.
/// Rule: MANUAL, forth83 copy OLD NEW [--blocks N]; MANUAL, forth83 salvage OLD NEW [--blocks N].
pub fn make_image<X: World, W: Write>(
    world: &X,
    old: &str,
    new: &str,
    by: Making,
    asked: Option<u16>,
    output: &mut W,
) -> (Left<X::Disk, X::Look>, Result<(), Failure>)
    ensures done { OnOk result.1 (MakeDone X.Look.SectorDevice X.Disk.SectorDevice (opened_for (X.gives world.now) by old.now)
        ((X.gives world.now).made new.now) by asked (W.contents output.old) (W.contents output.new) result.0) }
    ensures failed { IfErr result.1 (λ failure. MakeFailed X.Look.SectorDevice X.Disk.SectorDevice (opened_for (X.gives world.now) by old.now)
        ((X.gives world.now).made new.now) ((X.gives world.now).begun new.now) by asked failure result.0) }
    // No call of the new one failed, nor of one that is copied. How many reads of one that is salvaged failed is told above.
    ensures well { OnOk result.1 (EachLeft (λ device. X.Disk.failures device ≡ 0)
        (λ device. by ≡ Making.Copy → X.Look.failures device ≡ 0) result.0) }
    ensures unprinted { IfErr result.1 (λ e. e ≢ Failure.CannotWrite → output.new ≡ output.old) }
    ensures silent { by ≡ Making.Copy → output.new ≡ output.old }
{
    match open_for(world, old, by) {
        Ok(mut source) => {
            let (target, outcome) = make_into(world, &mut source, new, by, asked, output);
            (copied(source, target), outcome)
        }
        Err(failure) => (Left::Nothing, Err(failure)),
    }
}

/// Opens an image that another one is made of.
fn open_for<X: World>(world: &X, old: &str, by: Making) -> Result<X::Look, Failure>
    ensures opened { IfOk result (opened_for (X.gives world.now) by old.now) }
    ensures well { IfOk result (λ disk. X.Look.failures disk ≡ 0) }
    ensures unopened { IfErr result IsUnopened }
{
    match by {
        Making::Copy => world.look(old),
        Making::Salvage => world.hold(old),
    }
}

/// The devices of an image that was read and of the one that was made of it, if one was.
fn copied<A, B>(source: A, target: Option<B>) -> Left<B, A>
    ensures { MatchOption target (result ≡ Left.Looked source) (λ made. result ≡ Left.Copied source made) }
{
    match target {
        Some(target) => Left::Copied(source, target),
        None => Left::Looked(source),
    }
}

/// Makes an image of the one on a device, in a new file, and gives that one, if it was made.
fn make_into<X: World, W: Write>(
    world: &X,
    source: &mut X::Look,
    new: &str,
    by: Making,
    asked: Option<u16>,
    output: &mut W,
) -> (Option<X::Disk>, Result<(), Failure>)
    ensures made { OnOk result.1 (IsGiven result.0 (MadeOf X.Look.SectorDevice X.Disk.SectorDevice ((X.gives world.now).made new.now)
        (sectors_for by (X.Look.sector_count source.old) asked)
        (MakesBy X.Look.SectorDevice X.Disk.SectorDevice by (W.contents output.old) (W.contents output.new)) source.old source.new)) }
    // Where it failed, an image may be made in part, or its file, or no call of the old one was made.
    ensures failed { IfErr result.1 (λ failure. IfSome result.0 (MakesSome X.Look.SectorDevice X.Disk.SectorDevice
        ((X.gives world.now).made new.now) ((X.gives world.now).begun new.now) (sectors_for by (X.Look.sector_count source.old) asked)
        (FailsBy X.Look.SectorDevice X.Disk.SectorDevice by failure) failure source.old source.new)) }
    ensures unmade { IfErr result.1 (λ failure. result.0 ≡ None
        → IsUntouched (λ device. is_some (sectors_for by (X.Look.sector_count device) asked)) failure source.old source.new) }
    ensures new_well { OnOk result.1 (IfSome result.0 (λ target. X.Disk.failures target ≡ 0)) }
    ensures old_well { by ≡ Making.Copy → OnOk result.1 (X.Look.failures source.new ≡ X.Look.failures source.old) }
    ensures unprinted { IfErr result.1 (λ e. e ≢ Failure.CannotWrite → output.new ≡ output.old) }
    ensures silent { by ≡ Making.Copy → output.new ≡ output.old }
{
    let Some(sectors) = sectors_for(by, source.sectors(), asked) else {
        return (None, Err(Failure::BadSize));
    };
    match world.make(new, sectors) {
        Ok(mut target) => {
            let outcome = make_of(world.alloc(), source, &mut target, by, output);
            (Some(target), outcome)
        }
        Err((failure, unfinished)) => (unfinished, Err(failure)),
    }
}

/// How many sectors the image has that is made of one on so many, where so many blocks are asked for.
fn sectors_for(by: Making, sectors: u32, asked: Option<u16>) -> Option<u32>
    ensures { result ≡ sectors_for by sectors asked }
{
    match by {
        Making::Copy => sectors_for_copy(sectors, asked),
        Making::Salvage => sectors_for_salvage(sectors, asked),
    }
}

/// Makes an image of a layout, in a new file, of the blocks of an older one, and gives both files: `upgrade`. Nothing
/// is made where the old one has the size of no older image (`BadSize`) or can't be opened (`CannotOpen`, `InUse`), and
/// whatever has the new name already stays as it is (`Exists`). `CannotOpen` or `InUse` come also where the new file
/// can't be made or finished, with no call of the old one. Then its failures are those of `upgrade_by`. The new file
/// has no name yet, also where it failed.
/// Rule: MANUAL, forth83 upgrade OLD NEW [--layout L]; IMAGE, Layout 1, and an upgrade; IMAGE, Layout 3, An upgrade.
pub fn upgrade_image<X: World>(
    world: &X,
    old: &str,
    new: &str,
    layout: Layout,
) -> (Left<X::Disk, X::Look>, Result<(), Failure>)
    ensures done { OnOk result.1 (UpgradeDone X.Disk.SectorDevice ((X.gives world.now).opened old.now)
        ((X.gives world.now).made new.now) layout result.0) }
    ensures failed { IfErr result.1 (λ failure. UpgradeFailed X.Disk.SectorDevice ((X.gives world.now).opened old.now)
        ((X.gives world.now).made new.now) ((X.gives world.now).begun new.now) layout failure result.0) }
    // No call of what is given back failed.
    ensures well { OnOk result.1 (EachLeft (λ device. X.Disk.failures device ≡ 0) (λ _. ⊤) result.0) }
{
    match world.open(old) {
        Ok(mut source) => {
            let (target, outcome) = upgrade_into(world, &mut source, new, layout);
            (upgraded(source, target), outcome)
        }
        Err(failure) => (Left::Nothing, Err(failure)),
    }
}

/// The devices of an image that was to be upgraded and of the one that was made of it, if one was.
fn upgraded<D, E>(source: D, target: Option<D>) -> Left<D, E>
    ensures { MatchOption target (result ≡ Left.Opened source) (λ made. result ≡ Left.Upgraded source made) }
{
    match target {
        Some(target) => Left::Upgraded(source, target),
        None => Left::Opened(source),
    }
}

/// Makes an image of the blocks of the one on a device, in a new file, by a layout, and gives that one, if it was made.
fn upgrade_into<X: World>(
    world: &X,
    source: &mut X::Disk,
    new: &str,
    layout: Layout,
) -> (Option<X::Disk>, Result<(), Failure>)
    ensures made { OnOk result.1 (IsGiven result.0 (MadeOf X.Disk.SectorDevice X.Disk.SectorDevice ((X.gives world.now).made new.now)
        (sectors_for_upgrade layout (X.Disk.sector_count source.old)) (UpgradesBy X.Disk.SectorDevice layout) source.old source.new)) }
    ensures failed { IfErr result.1 (λ failure. IfSome result.0 (MakesSome X.Disk.SectorDevice X.Disk.SectorDevice
        ((X.gives world.now).made new.now) ((X.gives world.now).begun new.now) (sectors_for_upgrade layout (X.Disk.sector_count source.old))
        (UpgradeFailsBy X.Disk.SectorDevice layout failure) failure source.old source.new)) }
    ensures unmade { IfErr result.1 (λ failure. result.0 ≡ None
        → IsUntouched (λ device. is_some (sectors_for_upgrade layout (X.Disk.sector_count device))) failure source.old source.new) }
    ensures new_well { OnOk result.1 (IfSome result.0 (λ target. X.Disk.failures target ≡ 0)) }
    ensures old_well { OnOk result.1 (X.Disk.failures source.new ≡ X.Disk.failures source.old) }
{
    let Some(sectors) = sectors_for_upgrade(layout, source.sectors()) else {
        return (None, Err(Failure::BadSize));
    };
    match world.make(new, sectors) {
        Ok(mut target) => {
            let outcome = upgrade_by(source, &mut target, layout);
            (Some(target), outcome)
        }
        Err((failure, unfinished)) => (unfinished, Err(failure)),
    }
}

/// How many sectors the image of a layout has that an upgrade makes of one on so many.
fn sectors_for_upgrade(layout: Layout, sectors: u32) -> Option<u32>
    ensures { result ≡ sectors_for_upgrade layout sectors }
{
    match layout {
        Layout::Two => match blocks_of_size(sectors, MOST_BLOCKS_1) {
            Some(_) => Some(sectors),
            None => None,
        },
        Layout::Three => match known_blocks(sectors) {
            Some(blocks) => Some(sectors_of(sizes::Layout::Pages, blocks)),
            None => None,
        },
    }
}
