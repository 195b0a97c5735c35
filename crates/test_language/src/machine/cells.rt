//! The cells that bodies lie in.

use cell_machine::code::Code;
use std::test::Fail;

#[test]
fn cells_keep_what_is_written(rt: HostRuntime) -> Result<(), Fail> {
    let mut code = Code::new(rt.alloc())?;
    let before = code.cell(0);
    code.set(0, 65535);
    code.set(32767, 38);
    let found = [
        before,
        code.cell(0),
        code.cell(1),
        code.cell(32767),
        code.cells()[32767],
    ];
    assert_eq!(rt; found, [0, 65535, 0, 38, 38]);
    Ok(())
}

#[test]
fn a_text_comes_back(rt: HostRuntime) -> Result<(), Fail> {
    let mut code = Code::new(rt.alloc())?;
    let mut out = [0; 1024];
    code.set_text(100, b"");
    let empty = code.text(100, &mut out);
    code.set(103, 65535);
    code.set_text(100, b"NO!");
    let after = code.cell(103);
    let short = code.text(100, &mut out);
    let text = [out[0], out[1], out[2]];
    code.set_text(32255, &[255; 1024]);
    let long = code.text(32255, &mut out);
    assert_eq!(rt; (empty, short, long), (0, 3, 1024));
    assert_eq!(rt; (after, text, out[1023]), (65535, *b"NO!", 255));
    Ok(())
}
