//! Laws of the definitions.
//! Rule: SEMANTICS, Laws.
ghost use Rattle.std.specs.Prelude.{◌≡◌, ◌<◌, ℕ};
ghost use Rattle.sector_disk.specs.Disk.{Image};
ghost use Rattle.journal.specs.PageImages.{IsWhole, IsWholeUnder, block_of, current_of, meaning, record_of};
ghost use Rattle.image_care.specs.During.{IsReadIn, Stands, WritesFree};
ghost use Rattle.image_care.specs.Overtaken.{TellsApart, blocks_under};

/// Does nothing. Its contract is a law: what was read of an image of layout 3 while it was written, of some sectors as
/// they were at one moment and of some as they were at another, and isn't damaged, are the blocks of each moment at
/// which the record that was read was true, as far as the sums of their tags tell them apart.
pub fn overtaken()
    ensures { (n : ℕ) (seen moment : Image) → IsWhole n seen → IsWholeUnder n (record_of seen) moment
        → TellsApart n (block_of seen) (current_of (record_of seen) moment)
        → meaning n seen ≡ blocks_under n (record_of seen) moment }
{}

/// Does nothing. Its contract is a law: what was read of an image of layout 3 in a span of time, each sector at a
/// moment of its own and in any order, are the blocks that the image meant at its beginning, if its gate stood all that
/// while, and with it what no spill and no save writes before the gate.
pub fn read_while_it_stands()
    ensures { (n from to : ℕ) (image_at : ℕ → Image) (seen : Image) → Stands image_at from to n
        → IsReadIn image_at from to seen → meaning n seen ≡ meaning n (image_at from) }
{}

/// Does nothing. Its contract is a law: the same of one block, for which gate, record and the two halves in its place
/// are read.
pub fn block_read_while_it_stands()
    ensures { (n from to b : ℕ) (image_at : ℕ → Image) (seen : Image) → b < n → Stands image_at from to n
        → IsReadIn image_at from to seen → block_of seen b ≡ block_of (image_at from) b }
{}

/// Does nothing. Its contract is a law: the gate stands, and what counts by it, where each step writes nothing that
/// counts: so it is between the writings of a gate, whatever is put aside meanwhile.
pub fn stands_while_free_places_are_written()
    ensures { (n from to : ℕ) (image_at : ℕ → Image) → WritesFree image_at from to n → Stands image_at from to n }
{}
