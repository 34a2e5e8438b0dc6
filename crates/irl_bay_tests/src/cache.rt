use crate::quiet::Quiet;
use irl_cache::{CacheReader, CacheWriter};
use irl_disk::Store;
use irl_offer::{Fault, Pair};
use std::alloc::Global;
use std::test::Fail;

// Writes a run of so many keys to file 7, 0 first, each with itself as its value.
fn write_run(alloc: Global, store: &mut Quiet, entries: u64, block: u32) -> Result<u64, Fault> {
    if !(1..=65_536).contains(&block) {
        return Err(Fault::Memory);
    }
    let mut writer = CacheWriter::new(alloc, 7, block)?;
    for key in 0..entries {
        writer.put(store, Pair { key, value: key })?;
    }
    Ok(writer.finish(store)?)
}

// How many blocks a run of so many entries has, how many of their keys are as `write_run` wrote them, and what it is refused
// for where it is read no further.
fn read_run(
    alloc: Global,
    store: &mut Quiet,
    entries: u64,
    block: u32,
) -> Result<(u64, u64, Option<Fault>), Fault> {
    if !(1..=65_536).contains(&block) {
        return Err(Fault::Memory);
    }
    let mut reader = CacheReader::new(alloc, 7, entries, block)?;
    let mut blocks = 0u64;
    let mut right = 0u64;
    for _ in 0..u64::MAX {
        match reader.next_block(store) {
            Ok(0) => break,
            Ok(_) => {}
            Err(fault) => return Ok((blocks, right, Some(fault))),
        }
        blocks = blocks.saturating_add(1);
        for pair in reader.block() {
            if pair.key == right && pair.value == right {
                right = right.saturating_add(1);
            }
        }
    }
    Ok((blocks, right, None))
}

// How many bytes a run takes, how many blocks it is read in, with how many keys, and by how many calls. What lies past it
// means nothing, and isn't read.
fn written_and_read(
    alloc: Global,
    entries: u64,
    block: u32,
) -> Result<(usize, (u64, u64, Option<Fault>), u64), Fault> {
    let mut store = Quiet::new(alloc);
    let count = write_run(alloc, &mut store, entries, block)?;
    let length = store.bytes(alloc, 7)?.len();
    store.put(7, &[0; 40])?;
    let calls = store.calls();
    let read = read_run(alloc, &mut store, count, block)?;
    Ok((length, read, store.calls().saturating_sub(calls)))
}

#[test]
fn what_is_written_is_read_in_blocks(rt: HostRuntime) -> Result<(), Fail> {
    // How many entries, how many a block has at most, how many blocks there are, and how many reads of the device.
    for (entries, block, blocks, reads) in [
        (0, 1, 0, 0),
        (1, 1, 1, 1),
        (2, 3, 1, 1),
        (10_000, 1, 10_000, 3),
        (10_000, 2, 5_000, 3),
        (10_000, 3, 3_334, 3),
        (10_000, 65_536, 1, 1),
        (140_000, 65_536, 3, 3),
    ] {
        let found = written_and_read(rt.alloc(), entries, block)?;
        let wanted = (16 * entries as usize, (blocks, entries, None), reads);
        assert!(rt; found == wanted, "{entries} by {block}: {found:?}");
    }
    Ok(())
}

#[test]
fn a_run_has_key_and_value_in_eight_bytes_each(rt: HostRuntime) -> Result<(), Fail> {
    let alloc = rt.alloc();
    let mut store = Quiet::new(alloc);
    write_run(alloc, &mut store, 2, 1)?;
    let mut want = [0; 32];
    want[16] = 1;
    want[24] = 1;
    let found = store.bytes(alloc, 7)?;
    assert!(rt; found.as_slice() == want.as_slice());
    Ok(())
}

// The keys of a run, each with value 5, how many bytes lie behind them, how many entries are asked for, how many a block has at
// most, how many blocks are given, and the place of the damage, if any.
type Row = (&'static [u64], usize, u64, u32, u64, Option<u64>);

const MAX: u64 = u64::MAX;

const DAMAGES: [Row; 6] = [
    (&[0, 2, 1, 3], 0, 4, 4, 0, Some(32)),
    (&[0, 2, 2, 3], 0, 4, 1, 0, Some(32)),
    (&[MAX, 0], 0, 2, 1, 0, Some(16)),
    (&[0, 1, 2], 0, 4, 4, 0, Some(48)),
    (&[0], 8, 4, 1, 0, Some(24)),
    (&[0, MAX], 0, 2, 1, 2, None),
];

// Whether a run is damaged so.
fn is_damaged(alloc: Global, row: &Row) -> Result<bool, Fault> {
    let (keys, tail, entries, block, blocks, place) = *row;
    let mut store = Quiet::new(alloc);
    for key in keys {
        store.put(7, &key.to_le_bytes())?;
        store.put(7, &5u64.to_le_bytes())?;
    }
    store.put(7, &[0; 8][..tail.min(8)])?;
    let (found, _, fault) = read_run(alloc, &mut store, entries, block)?;
    Ok(found == blocks && fault == place.map(|at| Fault::Damaged(7, at)))
}

#[test]
fn damage_is_named_where_it_is(rt: HostRuntime) -> Result<(), Fail> {
    for (i, row) in DAMAGES.iter().enumerate() {
        assert!(rt; is_damaged(rt.alloc(), row)?, "row {i}");
    }
    Ok(())
}

// What a run of 10,000 keys is refused for, in which the key of an entry falls to 0, and whether it gives no key from there on.
fn fallen(alloc: Global, entry: u64, block: u32) -> Result<(bool, Option<Fault>), Fault> {
    let mut store = Quiet::new(alloc);
    write_run(alloc, &mut store, 10_000, block)?;
    store.write(7, entry.saturating_mul(16), &[0; 16])?;
    let (_, right, fault) = read_run(alloc, &mut store, 10_000, block)?;
    Ok((right <= entry, fault))
}

#[test]
fn a_fall_across_pieces_is_named(rt: HostRuntime) -> Result<(), Fail> {
    // The entry whose key falls to 0, and how many a block has at most: pieces have 4,097, 4,098 and 65,536 entries.
    for (entry, block) in [
        (4_097u64, 1),
        (4_098, 2),
        (8_194, 1),
        (8_196, 2),
        (9_999, 65_536),
    ] {
        let found = fallen(rt.alloc(), entry, block)?;
        assert!(rt;
            found == (true, Some(Fault::Damaged(7, 16 * entry))),
            "entry {entry}"
        );
    }
    Ok(())
}

// What a call for a block answers, and the keys of the block.
fn next_of(store: &mut Quiet, reader: &mut CacheReader) -> (Result<usize, Fault>, [u64; 2]) {
    let answer = reader.next_block(store);
    match reader.block() {
        [first, second] => (answer, [first.key, second.key]),
        [first] => (answer, [first.key, 0]),
        _ => (answer, [0, 0]),
    }
}

#[test]
fn a_block_that_failed_may_be_asked_for_again(rt: HostRuntime) -> Result<(), Fail> {
    let alloc = rt.alloc();
    let mut store = Quiet::failing(alloc, Some(1))?;
    let mut run = [0; 32];
    run[0] = 3;
    run[16] = 4;
    store.write(7, 0, &run)?;
    let mut reader = CacheReader::new(alloc, 7, 2, 2)?;
    for wanted in [
        (Err(Fault::Failed), [0, 0]),
        (Ok(2), [3, 4]),
        (Ok(0), [0, 0]),
    ] {
        let found = next_of(&mut store, &mut reader);
        assert!(rt; found == wanted, "{found:?}");
    }
    Ok(())
}
