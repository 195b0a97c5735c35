//! The structure words.

ghost use Rattle.std.specs.Prelude.{OnOk, IfErr};
ghost use Rattle.compiler.specs.Promise.{Added, Refused, BodiesStay};
ghost use Rattle.compiler.specs.Represents.{IsSound};
ghost use Rattle.lexicon.specs.Structures.{adding};

use cell_machine::code::Code;
use compiler::{CompileRefusal, Compiler};
use system_words::words::Structure;

/// Adds a structure word, or `DOES>`, to the open definition.
pub(crate) fn add_to(
    compiler: &mut Compiler,
    code: &mut Code,
    structure: Structure,
) -> Result<(), CompileRefusal>
    requires { IsSound compiler.old code.old }
    ensures added { OnOk result (Added compiler.old code.old compiler.new code.new (adding structure)) }
    ensures refused { IfErr result (Refused compiler.old code.old compiler.new code.new (adding structure)) }
    ensures bodies { BodiesStay compiler.old code.old compiler.new code.new }
{
    match structure {
        Structure::If => compiler.add_if(code),
        Structure::Else => compiler.add_else(code),
        Structure::Then => compiler.add_then(code),
        Structure::Begin => compiler.add_begin(code),
        Structure::Until => compiler.add_until(code),
        Structure::While => compiler.add_while(code),
        Structure::Repeat => compiler.add_repeat(code),
        Structure::Do => compiler.add_do(code),
        Structure::Loop => compiler.add_loop(code),
        Structure::PlusLoop => compiler.add_plus_loop(code),
        Structure::Leave => compiler.add_leave(code),
        Structure::Does => compiler.add_does(code),
    }
}
