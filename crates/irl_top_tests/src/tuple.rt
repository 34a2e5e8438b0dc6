use crate::runs::same;
use irl_offer::{MAX_TEXT, Op, Verdict};
use irl_tuple::{push_verdict, read_tuple};
use std::test::Fail;

#[test]
fn a_tuple_line_gives_its_offer(rt: HostRuntime) -> Result<(), Fail> {
    let line = b"b 01 7 p".as_slice();
    assert!(rt; line.len() <= MAX_TEXT);
    let offer = read_tuple(rt.alloc(), line)?.ok_or("refused")?;
    let numbers = (offer.key, offer.value, offer.from);
    same(&rt, offer.op == Op::Both && numbers == (1, 7, 0), "offer");
    same(&rt, offer.aux.bytes() == b"p".as_slice(), "text");
    Ok(())
}

// No line of the program gives a check its text, nor tells an update.
#[test]
fn a_verdict_has_its_line(rt: HostRuntime) -> Result<(), Fail> {
    let mut out = Vec::from_slice(rt.alloc(), b"before\n")?;
    push_verdict(0, Some(Verdict::Absent), b"x y", &mut out)?;
    push_verdict(5, None, b"x", &mut out)?;
    let lines = b"before\nabsent 0000000000000000 x y\n".as_slice();
    same(&rt, out.as_slice() == lines, "line");
    Ok(())
}
