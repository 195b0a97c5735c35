//! A Forth system over blocks.
#![tactic(auto)]

use interpreter::Forth;
use sector_disk::{FileDisk, MemoryDisk};
use std::process::ExitCode;
use terminal::start;

fn main(rt: HostRuntime) -> ExitCode {
    let status = start::<Forth<FileDisk>, Forth<MemoryDisk>, _, _, _>(
        &rt,
        rt.stdin(),
        rt.stdout(),
        &mut rt.stderr(),
    );
    ExitCode::from(status)
}
