use crate::quiet::Quiet;
use irl_disk::{Failed, Part, Store};
use irl_journal::FileWriter;
use irl_offer::Fault;
use std::alloc::Global;
use std::test::Fail;

// A store whose file 7 has `abc`, which was written in call 0 and synced in call 1, and behind it `de` and `fgh`, in calls 2
// and 3; and how long the file is then.
fn grown(alloc: Global) -> Result<(Quiet, u64), Fault> {
    let mut store = Quiet::new(alloc);
    let mut writer = FileWriter::at(alloc, 7, 0)?;
    writer.put(&mut store, b"abc")?;
    writer.finish(&mut store)?;
    let mut writer = FileWriter::at(alloc, 7, 3)?;
    writer.put(&mut store, b"de")?;
    writer.put(&mut store, b"fgh")?;
    let length = writer.finish(&mut store)?;
    Ok((store, length))
}

// What a stop in this call leaves of file 7.
fn left(alloc: Global, store: &Quiet, call: u64, part: Part) -> Result<Vec<u8>, Fault> {
    Ok(store.image(alloc, call, part)?.bytes(alloc, 7)?)
}

#[test]
fn a_stop_leaves_the_bytes_that_stay(rt: HostRuntime) -> Result<(), Fail> {
    let alloc = rt.alloc();
    let (store, length) = grown(alloc)?;
    assert!(rt; (length, store.calls()) == (8, 4));
    let before = b"abc".as_slice();
    let after = b"abcdefgh".as_slice();
    for (call, part, wanted) in [
        (1, Part::Old, before),
        (1, Part::New, before),
        (1, Part::Torn, before),
        (2, Part::Old, before),
        (2, Part::New, after),
        (2, Part::Torn, b"abc\xA5e\xA5g\xA5"),
        (3, Part::Old, after),
        (3, Part::New, after),
        (3, Part::Torn, after),
    ] {
        let found = left(alloc, &store, call, part)?;
        assert!(rt; found.as_slice() == wanted, "{part:?} at {call}");
    }
    Ok(())
}

// Puts these bytes, once more where that failed.
fn put_again(store: &mut Quiet, writer: &mut FileWriter, bytes: &[u8]) -> Result<(), Failed> {
    if writer.put(store, bytes).is_ok() {
        return Ok(());
    }
    writer.put(store, bytes)
}

// How many bytes each put has, and which call of the store behind the first fails, if any.
type Puts = ([usize; 4], Option<u64>);

const PUTS: [Puts; 6] = [
    ([1, 65_534, 1, 0], None),
    ([1, 65_535, 1, 1], Some(1)),
    ([65_536, 1, 0, 7], Some(1)),
    ([65_537, 2, 70_000, 3], Some(1)),
    ([65_537, 2, 70_000, 3], Some(2)),
    ([65_537, 2, 70_000, 3], Some(3)),
];

// Whether the puts of a file stand behind its first five bytes, which stay, and its length is said.
fn stand(alloc: Global, puts: &Puts) -> Result<bool, Fault> {
    let (counts, failing) = *puts;
    let mut store = Quiet::failing(alloc, failing)?;
    store.write(7, 0, b"front and more")?;
    let mut wanted = b"front".to_vec(alloc)?;
    let mut writer = FileWriter::at(alloc, 7, 5)?;
    for (digit, count) in [b'0', b'1', b'2', b'3'].into_iter().zip(counts) {
        let bytes = vec![in alloc; digit; count]?;
        put_again(&mut store, &mut writer, &bytes)?;
        wanted.extend_from_slice(&bytes)?;
    }
    let length = wanted.len() as u64;
    let is_said = writer.length() == length && writer.finish(&mut store)? == length;
    Ok(is_said && store.bytes(alloc, 7)? == wanted)
}

#[test]
fn pieces_stand_behind_one_another(rt: HostRuntime) -> Result<(), Fail> {
    for (i, puts) in PUTS.iter().enumerate() {
        assert!(rt; stand(rt.alloc(), puts)?, "row {i}");
    }
    Ok(())
}
