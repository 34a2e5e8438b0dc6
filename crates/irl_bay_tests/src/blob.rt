use crate::quiet::Quiet;
use irl_disk::{Failed, Part, Store};
use irl_journal::Blob;
use irl_offer::Fault;
use std::alloc::Global;
use std::test::Fail;

// A store with a blob in its file 7.
#[derive(Drop)]
struct Kept {
    store: Quiet,
    blob: Blob,
}

impl Kept {
    // A blob of `ab`, which was appended in calls 0 and 1 of its store.
    fn first(alloc: Global, failing: Option<u64>) -> Result<Kept, Fault> {
        let mut store = Quiet::failing(alloc, failing)?;
        let mut blob = Blob::at(7, 0);
        blob.append(&mut store, b"ab")?;
        Ok(Kept { store, blob })
    }

    // Appends `cde`, in calls 2 and 3 where it is the second.
    fn append_more(&mut self) -> Result<(), Failed> {
        self.blob.append(&mut self.store, b"cde")
    }

    // Takes back what was appended since the blob had this length.
    fn take_back(&mut self, length: u64) -> bool {
        if length > self.blob.length() {
            return false;
        }
        self.blob.rewind(length);
        true
    }
}

// What a stop leaves of file 7.
fn left(alloc: Global, store: &Quiet, call: u64, part: Part) -> Result<Vec<u8>, Fault> {
    Ok(store.image(alloc, call, part)?.bytes(alloc, 7)?)
}

// What a stop in this call of the second append, which failed or was done, leaves as old, as new and torn, and what the file
// has where a failed one is made again.
fn stopped(alloc: Global, call: u64, is_failing: bool) -> Result<[Vec<u8>; 4], Fault> {
    let mut kept = Kept::first(alloc, is_failing.then_some(call))?;
    if kept.append_more().is_err() != is_failing {
        return Err(Fault::Memory);
    }
    let old = left(alloc, &kept.store, call, Part::Old)?;
    let new = left(alloc, &kept.store, call, Part::New)?;
    let torn = left(alloc, &kept.store, call, Part::Torn)?;
    if is_failing {
        kept.append_more()?;
    }
    Ok([old, new, torn, kept.store.bytes(alloc, 7)?])
}

#[test]
fn a_stop_leaves_what_was_committed(rt: HostRuntime) -> Result<(), Fail> {
    let before = b"ab".as_slice();
    let after = b"abcde".as_slice();
    let torn = b"abc\xA5e".as_slice();
    for (call, is_failing, wanted) in [
        (2, false, [before, after, torn]),
        (2, true, [before, before, before]),
        (3, true, [before, after, torn]),
        // The append answered Ok.
        (3, false, [after, after, after]),
    ] {
        let [old, new, torn, end] = stopped(rt.alloc(), call, is_failing)?;
        let found = [old.as_slice(), new.as_slice(), torn.as_slice()];
        assert!(rt;
            found == wanted && end.as_slice() == after,
            "at {call}, {is_failing}"
        );
    }
    Ok(())
}

// Whether a read of four bytes from a place on answers so, and leaves these bytes.
fn reads(kept: &mut Kept, at: u64, is_whole: bool, bytes: [u8; 4]) -> bool {
    let mut into = *b"----";
    kept.blob.read(&mut kept.store, at, &mut into) == Ok(is_whole) && into == bytes
}

#[test]
fn a_blob_is_read_and_taken_back(rt: HostRuntime) -> Result<(), Fail> {
    let alloc = rt.alloc();
    let mut kept = Kept::first(alloc, None)?;
    kept.append_more()?;
    // A read past the end fills nothing.
    for (at, is_whole, bytes) in [
        (0, true, *b"abcd"),
        (1, true, *b"bcde"),
        (2, false, *b"----"),
        (u64::MAX, false, *b"----"),
    ] {
        assert!(rt; reads(&mut kept, at, is_whole, bytes), "at {at}");
    }
    // What is taken back is written over.
    assert!(rt; kept.take_back(1));
    kept.append_more()?;
    let bytes = kept.store.bytes(alloc, 7)?;
    assert!(rt;
        kept.blob.length() == 4 && kept.blob.file() == 7 && bytes.as_slice() == b"acdee".as_slice()
    );
    Ok(())
}

// Whether a blob of so many bytes is found in a file of `abcde` that was not synced, and what a stop then leaves as old.
fn opened(alloc: Global, length: u64) -> Result<(bool, Vec<u8>), Fault> {
    let mut store = Quiet::new(alloc);
    store.write(7, 0, b"abcde")?;
    let is_found = Blob::open(&mut store, 7, length)?.is_some();
    store.length(7)?;
    let call = store.calls().saturating_sub(1);
    Ok((is_found, left(alloc, &store, call, Part::Old)?))
}

#[test]
fn opening_commits_what_was_not_synced(rt: HostRuntime) -> Result<(), Fail> {
    for (length, wanted) in [(0, true), (5, true), (6, false)] {
        let (is_found, old) = opened(rt.alloc(), length)?;
        assert!(rt;
            is_found == wanted && old.as_slice() == b"abcde".as_slice(),
            "of {length}"
        );
    }
    Ok(())
}
