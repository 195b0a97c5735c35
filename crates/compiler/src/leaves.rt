//! The LEAVEs of a loop that is open.

ghost use Rattle.std.specs.Prelude.{◌<◌, ℕ, List};
ghost use Rattle.cell_machine.specs.Layout.{IsIn};
ghost use Rattle.compiler.specs.Represents.{Chain, Patched};

use cell_machine::code::Code;

/// Writes into the last waiting cell, and into each that is found from there, where its `LEAVE` goes: to the place
/// `to`. The cells hold the places of one another, the first one 0; so `last` is 0 where none waits.
/// Rule: ARCHITECTURE, The code cells; Forth-83 Standard, LEAVE.
pub fn patch_leaves(code: &mut Code, last: u16, to: u16)
    requires { (ls : List ℕ) × (Chain code.old ls last × ((y : ℕ) → IsIn y ls → y < 32768)) }
    ensures { (ls : List ℕ) → Chain code.old ls last → Patched code.old ls to code.new }
{
    let mut at = last;
    while at != 0 {
        let before = code.cell(at);
        code.set(at, to);
        at = before;
    }
}
