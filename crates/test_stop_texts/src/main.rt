//! Follows the texts that its arguments name: calls of a store and of block words, lines of Forth, formats, each over a device that is
//! stopped at each call, and opened again. It prints what was tried with each of them, and every difference.
#![tactic(auto)]

use std::process::ExitCode;
use std::test::Fail;
use test_stop_systems::follow_all;

fn main(rt: HostRuntime) -> Result<ExitCode, Fail> {
    follow_all(&rt)
}
