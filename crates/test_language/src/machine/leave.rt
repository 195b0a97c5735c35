//! Where a `LEAVE` goes.

ghost use Rattle.compiler.specs.Represents.{IsSound};

use cell_machine::code::Code;
use compiler::{CompileRefusal, Compiler};
use std::test::Fail;

/// `: A`
fn begin(compiler: &mut Compiler, code: &Code) -> Result<(), CompileRefusal>
    requires { IsSound compiler.old code.now }
    ensures { IsSound compiler.new code.now }
{
    compiler.begin(b"A")
}

/// `DO IF LEAVE`
#[tactic(auto, using(crate::proofs::Sound::sound_added))]
fn leave(compiler: &mut Compiler, code: &mut Code) -> Result<(), CompileRefusal>
    requires { IsSound compiler.old code.old }
    ensures { IsSound compiler.new code.new }
{
    compiler.add_do(code)?;
    compiler.add_if(code)?;
    compiler.add_leave(code)
}

/// `THEN LOOP`
#[tactic(auto, using(crate::proofs::Sound::sound_added))]
fn close(compiler: &mut Compiler, code: &mut Code) -> Result<(), CompileRefusal>
    requires { IsSound compiler.old code.old }
    ensures { IsSound compiler.new code.new }
{
    compiler.add_then(code)?;
    compiler.add_loop(code)
}

/// `DO IF LEAVE THEN LOOP`: cell 0 is DO, 1 and 2 the test, 3 and 4 LEAVE, 5 and 6 LOOP.
#[test]
fn a_leave_within_an_if_goes_past_the_loop(rt: HostRuntime) -> Result<(), Fail> {
    let mut code = Code::new(rt.alloc())?;
    let mut compiler = Compiler::new(rt.alloc())?;
    begin(&mut compiler, &code)?;
    leave(&mut compiler, &mut code)?;
    close(&mut compiler, &mut code)?;
    compiler.finish(&mut code)?;
    // The test goes to THEN, LEAVE goes past LOOP, and LOOP goes to the first cell after DO.
    assert_eq!(rt; [code.cell(2), code.cell(4), code.cell(6)], [5, 7, 1]);
    Ok(())
}
