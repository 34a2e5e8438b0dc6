use irl_array::Array;
use irl_offer::{Offer, Op, Text};
use std::alloc::{AllocError, Global};
use std::test::Fail;

// Pushes 10,000 offers, whose keys begin with 5, as long as there is room. Answers the keys of the first item and of the
// last, how many there are, and the room.
fn filled(alloc: Global, array: &mut Array) -> Result<(Option<(u64, u64)>, u32, u32), AllocError> {
    for key in 5..10_005 {
        if !array.is_full() {
            array.push(Offer {
                op: Op::Both,
                key,
                value: 7,
                from: 0,
                aux: Text::from_bytes(alloc, b"a")?,
            });
        }
    }
    let ends = match array.items() {
        [] => None,
        [one] => Some((one.key, one.key)),
        [first, .., last] => Some((first.key, last.key)),
    };
    Ok((ends, array.len(), array.room()))
}

#[test]
fn an_array_is_filled_to_its_room_again_and_again(rt: HostRuntime) -> Result<(), Fail> {
    let alloc = rt.alloc();
    for (room, ends) in [(8_192, Some((5, 8_196))), (1, Some((5, 5))), (0, None)] {
        let mut array = Array::with_room(alloc, room)?;
        for _ in 0..2 {
            let found = filled(alloc, &mut array)?;
            assert!(rt; found == (ends, room, room), "room {room}: {found:?}");
            array.clear();
            assert!(rt; array.len() == 0, "room {room}");
        }
    }
    Ok(())
}
