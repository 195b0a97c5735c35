//! Laws of calls that follow one another, and of the buffers at any time.
//! Rule: SEMANTICS, Laws.
ghost use Rattle.block_words.specs.Following.{KeepsOn};
ghost use Rattle.block_words.specs.Words.{ReadsAsSaved};
ghost use Rattle.block_words.specs.Parts.{BuffersAreValid, FewAreUpdated, UpdatedAreChanged};

use sector_disk::SectorDevice;

/// Does nothing. Its contract is a law over any device: what is kept over one call and over the next is kept over both.
/// So the saves of a whole line, or of a session, are kept from its start.
pub fn calls_follow<D: SectorDevice>()
    ensures { KeepsOn D.SectorDevice }
{}

/// Does nothing. Its contract is a law over any device: at any time the list of buffers that `Blocks` holds is valid,
/// and so at most four of them are updated, and no more than a save has blocks to commit.
pub fn buffers_are_valid<D: SectorDevice>()
    ensures valid { BuffersAreValid D.SectorDevice }
    ensures few { FewAreUpdated D.SectorDevice }
    ensures changed { UpdatedAreChanged D.SectorDevice }
{}

/// Does nothing. Its contract is a law of the definitions: once all changes since the last save are taken back, each
/// block reads as it was saved.
pub fn taken_back()
    ensures { ReadsAsSaved }
{}
