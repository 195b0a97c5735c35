//! What makes images of layout 3, where it is stopped or a call fails.
use super::stopping::{Making, making_is_stopped_now_and_then};
use super::upgrades::{Upgrade, new_image_fails, old_image_fails};
use crate::assertions::{Assert, assert_same};
use std::test::Fail;

/// The bytes of an image of 32 blocks.
pub(crate) const LENGTH: usize = 278_528;

/// How many calls fill such a file: five writes of zeros and a sync.
pub(crate) const FILLED: u64 = 6;

const MAKING: Making = Making {
    words: &["forth83", "new", "A", "--blocks", "32", "--layout", "3"],
    length: LENGTH,
    filled: FILLED,
};

const UPGRADE: Upgrade = Upgrade {
    words: &["forth83", "upgrade", "OLD", "NEW", "--layout", "3"],
    length: LENGTH,
    filled: FILLED,
    // Not a multiple of the four calls that a block takes.
    each: 13,
};

/// `new` by layout 3 is stopped: nothing has the name.
#[test]
fn makings_of_layout_3_that_are_stopped(rt: HostRuntime) -> Result<(), Fail> {
    let calls = making_is_stopped_now_and_then(&rt, MAKING)?;
    // After the file is filled: a sync and a read of the label, four sectors of each block, gate and records, a sync, the label and a sync, and its name.
    assert_same!(rt; calls, FILLED + 2 + 4 * 32 + 3 + 1 + 2 + 1);
    Ok(())
}

/// Calls of the old image fail: a sync, the label, the gate and the record, and then both sectors of each block.
#[test]
fn upgrades_to_layout_3_whose_old_image_fails(rt: HostRuntime) -> Result<(), Fail> {
    old_image_fails(&rt, UPGRADE, 4 + 64)
}

/// Calls of the new one fail.
#[test]
fn upgrades_to_layout_3_whose_new_image_fails(rt: HostRuntime) -> Result<(), Fail> {
    new_image_fails(&rt, UPGRADE, FILLED + 2 + 4 * 32 + 3 + 1 + 2 + 1)
}
