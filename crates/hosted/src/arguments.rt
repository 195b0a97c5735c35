//! What a call is given, looked at before the device is asked for anything.
//! Rule: EMBEDDING, What is proved.
ghost use Rattle.std.specs.Prelude.{◌≡◌, ◌<◌, ◌*◌, ◌==◌, true, nat_lt, None, Some, length, OnOk, MatchResult};
ghost use Rattle.std.specs.List.{list_all};
ghost use Rattle.shadow.specs.Label.{is_known_size};
ghost use Rattle.shadow.specs.Upgraded.{known_blocks};
ghost use Rattle.hosted.specs.Refusals.{read_refusal, save_refusal};

use crate::refusal::Refusal;
use journal::sizes::known_blocks;

/// The bytes of a block.
pub const BLOCK: usize = 1024;

/// Refuses to read where no image has so many sectors (`BadSize`), then a block that isn't there (`NoBlock`), then a
/// place of other than 1,024 bytes (`BadLength`).
pub fn check_read(sectors: u32, block: u16, room: usize) -> Result<(), Refusal>
    ensures exact { MatchResult result (λ _. read_refusal sectors block room ≡ None)
        (λ e. read_refusal sectors block room ≡ Some e) }
    ensures sized { OnOk result (is_known_size sectors ≡ true) }
    ensures there { OnOk result (block < known_blocks sectors) }
    ensures whole { OnOk result (room ≡ 1024) }
{
    let Some(count) = known_blocks(sectors) else {
        return Err(Refusal::BadSize);
    };
    if block >= count {
        return Err(Refusal::NoBlock);
    }
    if room != BLOCK {
        return Err(Refusal::BadLength);
    }
    Ok(())
}

/// Refuses to save where no image has so many sectors (`BadSize`), then where one of the blocks isn't there
/// (`NoBlock`), then other than 1,024 bytes for each (`BadLength`).
pub fn check_save(sectors: u32, blocks: &[u16], room: usize) -> Result<(), Refusal>
    ensures exact { MatchResult result (λ _. save_refusal sectors blocks.now room ≡ None)
        (λ e. save_refusal sectors blocks.now room ≡ Some e) }
    ensures sized { OnOk result (is_known_size sectors ≡ true) }
    ensures there { OnOk result (list_all (λ b. nat_lt b (known_blocks sectors)) blocks.now ≡ true) }
    ensures whole { OnOk result (room ≡ 1024 * length blocks.now) }
{
    let Some(count) = known_blocks(sectors) else {
        return Err(Refusal::BadSize);
    };
    if !are_below(blocks, count) {
        return Err(Refusal::NoBlock);
    }
    if !are_whole(room, blocks.len()) {
        return Err(Refusal::BadLength);
    }
    Ok(())
}

fn are_below(blocks: &[u16], count: u16) -> bool
    ensures { result ≡ list_all (λ b. nat_lt b count) blocks.now }
{
    blocks.iter().all(|b| *b < count)
}

/// Whether so many bytes are those of so many blocks.
fn are_whole(room: usize, count: usize) -> bool
    ensures { result ≡ (room == 1024 * count) }
{
    room % BLOCK == 0 && room / BLOCK == count
}
