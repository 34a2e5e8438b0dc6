use crate::helpers::same;
use irl_base::{lists, trim, trim_end, trim_start};
use std::test::Fail;

#[test]
fn spaces_and_tabs_at_the_ends_are_trimmed(rt: HostRuntime) {
    for (bytes, front, end, both) in [
        (
            b" \t".as_slice(),
            b"".as_slice(),
            b"".as_slice(),
            b"".as_slice(),
        ),
        (b"\ta b ", b"a b ", b"\ta b", b"a b"),
        (b"\na\r", b"\na\r", b"\na\r", b"\na\r"),
    ] {
        same(&rt, trim_start(bytes) == front, "start");
        same(&rt, trim_end(bytes) == end, "end");
        same(&rt, trim(bytes) == both, "text between the ends");
    }
}

#[test]
fn lists_are_cut_back_to_what_they_were(rt: HostRuntime) -> Result<(), Fail> {
    let mut numbers = lists::empty_lists(rt.alloc(), 2)?;
    lists::push_at(&mut numbers, 1, 7_u64)?;
    let before = lists::lengths(rt.alloc(), &numbers)?;
    same(
        &rt,
        before.as_slice() == [0, 1].as_slice(),
        "number of items",
    );
    let taken = lists::take_out(rt.alloc(), &mut numbers, 1);
    lists::push_at(&mut numbers, 0, 8)?;
    lists::replace_at(&mut numbers, 1, taken);
    lists::cut_back(&mut numbers, &before);
    assert!(rt; numbers[0].is_empty());
    same(&rt, numbers[1].as_slice() == [7].as_slice(), "list");
    Ok(())
}
