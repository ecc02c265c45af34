//! The call once.

use crate::compare_answer;
use std::test::Fail;

#[test]
fn answers(rt: HostRuntime) -> Result<(), Fail> {
    let mut out: &'static [u8] = &[];
    assert_eq!(rt;
        compare_answer(rt.alloc(), b"a\tvalue\t1111111111\t[1]", &mut out),
        0
    );
    assert_eq!(rt; out, b"a\tok\t[1 #1".as_slice());
    assert_eq!(rt; compare_answer(rt.alloc(), b"a", &mut out), 1);
    Ok(())
}
