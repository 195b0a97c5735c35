//! Laws of the definitions.
//! Rule: SEMANTICS, Laws.
ghost use Rattle.std.specs.Prelude.{ℕ, List, length};
ghost use Rattle.std.specs.List.{AllByRecursion};
ghost use Rattle.sector_disk.specs.Disk.{Image};
ghost use Rattle.journal.specs.Images.{Means};
ghost use Rattle.journal.specs.Chain.{IsChain};

/// Does nothing. Its contract is a law: recovery of an image of layout 2, stopped and begun again any number of times,
/// keeps what the first image means.
pub fn chain()
    ensures { (blocks : List (List ℕ)) (first : Image) (images : List Image)
        → Means blocks first → IsChain (length blocks) first images → AllByRecursion (Means blocks) images }
{}
