// Tags by a second implementation of SHA-256.
use crate::assertions::{Assert, assert_same};
use crate::layout_3::images::hex;
use journal::pages::tags::{add, exchange, tag_of};
use std::test::Fail;

#[test]
fn a_tag_is_the_digest_of_number_and_bytes(rt: HostRuntime) -> Result<(), Fail> {
    for (b, byte, want) in [
        (
            5,
            b'A',
            "80de12f98d73883f97fc8008980545085be0be5b15c150c8ebb20d8218cc9182",
        ),
        (
            3839,
            b' ',
            "1129ee893cc20b3fd374cac5bf32a9c18b53c7f68cd1e136381ea1567981ba69",
        ),
    ] {
        assert_same!(rt;
            hex(rt.alloc(), &tag_of(b, &[byte; 1024]))?.as_str(),
            want,
            "block {b}"
        );
    }
    Ok(())
}

#[test]
fn a_sum_gives_a_tag_back(rt: HostRuntime) -> Result<(), Fail> {
    let mut sum = [0x0f; 32];
    add(&mut sum, &[0x3c; 32]);
    assert_same!(rt; sum, [0x33; 32]);
    exchange(&mut sum, &[0x3c; 32], &[0xf0; 32]);
    assert_same!(rt; sum, [0xff; 32]);
    Ok(())
}
