ghost use Rattle.std.specs.Prelude.{◌≡◌, map, take, List, ℕ, true};

use super::{Keeping, Kept, STOPS, append, append_first, left, opened};
use irl_disk::{Part, Store};
use irl_journal::{Frame, Payloads, read_part};
use irl_offer::Fault;
use std::alloc::{AllocError, Global};
use std::test::Fail;

// The length of the text that all others begin as.
const ROOM: usize = 65_536;

// Texts that begin as the same bytes do, by their lengths.
#[derive(Drop)]
struct Texts {
    bytes: [u8; ROOM],
    lengths: Vec<u16>,
}

impl Payloads for Texts {
    ghost payloads = { λ t. map (λ n. take n t.bytes) t.lengths.items };

    fn count(&self) -> usize {
        self.lengths.len()
    }

    fn length(&self, i: usize) -> u32 {
        u32::from(self.lengths[i])
    }

    fn put(&self, i: usize, frame: &mut Frame) {
        frame.put(&self.bytes[..usize::from(self.lengths[i])]);
    }
}

// So many texts, whose lengths begin with this one, and each next one's is further by a step.
fn texts_from(alloc: Global, count: u16, first: u16, step: u16) -> Result<Texts, AllocError> {
    let mut bytes = [0; ROOM];
    for i in 0..ROOM {
        bytes[i] = (i % 251) as u8;
    }
    let mut lengths = Vec::new(alloc);
    for i in 0..count {
        lengths.push(first.wrapping_add(i.wrapping_mul(step)))?;
    }
    Ok(Texts { bytes, lengths })
}

// Appends the texts at once.
fn append_at_once(alloc: Global, kept: &mut Kept, texts: &Texts) -> Result<(), Fault> {
    if !kept.journal.is_sound() {
        return Err(Fault::Memory);
    }
    kept.journal.append_all(alloc, &mut kept.store, texts)
}

// The bytes of a journal of `ab` and these texts, each behind an open gate and its length, and a closed gate at the end.
fn spelled(alloc: Global, texts: &Texts) -> Result<Vec<u8>, AllocError> {
    let mut bytes = b"\xA5\x02\0\0\0ab".to_vec(alloc)?;
    for length in &texts.lengths {
        bytes.extend_from_slice(b"\xA5")?;
        bytes.extend_from_slice(&u32::from(*length).to_le_bytes())?;
        bytes.extend_from_slice(&texts.bytes[..usize::from(*length)])?;
    }
    bytes.extend_from_slice(b"\0")?;
    Ok(bytes)
}

// In how many calls the texts are appended at once behind `ab`, and whether the file is then as single appends leave it.
fn appended(alloc: Global, texts: &Texts) -> Result<(u64, bool), Fault> {
    let mut kept = append_first(alloc, None)?;
    append_at_once(alloc, &mut kept, texts)?;
    let calls = kept.store.calls().saturating_sub(6);
    let length = kept.store.length(7)?;
    let found = read_part(alloc, &mut kept.store, 7, 0, length)?;
    let is_end = kept.journal.end() == length.saturating_sub(1);
    Ok((calls, is_end && found == spelled(alloc, texts)?))
}

#[test]
fn several_records_are_appended_as_single_ones(rt: HostRuntime) -> Result<(), Fail> {
    let alloc = rt.alloc();
    // How many records, the length of the first, how much longer each next one is, and the calls.
    let table = [
        // Of none it makes no call.
        (0, 0, 0, 0),
        (1, 5, 0, 4),
        (1, 0, 0, 4),
        (2, 0, 3, 4),
        (3, 7, 1, 4),
        (40, 0, 1, 4),
        // Past a mebibyte.
        (20, 60_000, 7, 4),
        // In two pieces, since they are more than the longest record.
        (300, 60_000, 7, 5),
    ];
    for (count, first, step, calls) in table {
        let texts = texts_from(alloc, count, first, step)?;
        let found = appended(alloc, &texts)?;
        assert!(rt; found == (calls, true), "{count} of {first}: {found:?}");
    }
    Ok(())
}

// Appends a record of `cde`, or these texts at once.
fn append_more(alloc: Global, kept: &mut Kept, texts: Option<&Texts>) -> Result<(), Fault> {
    match texts {
        Some(texts) => append_at_once(alloc, kept, texts),
        None => append(alloc, kept, b"cde"),
    }
}

// The payloads of file 7 once they are appended.
fn payloads_of_all(alloc: Global, texts: Option<&Texts>) -> Result<Vec<u8>, Fail> {
    let mut kept = append_first(alloc, None)?;
    append_more(alloc, &mut kept, texts)?;
    let mut keeping = Keeping::refusing(alloc, 1);
    opened(alloc, &mut kept.store, &mut keeping)?;
    Ok(keeping.payloads)
}

// Whether a stop in this call of an append, which failed or was done, leaves all new records as old, as new and torn; or
// nothing where it leaves some, or the answer is another.
fn stopped(
    alloc: Global,
    call: u64,
    is_failing: bool,
    texts: Option<&Texts>,
    all: &[u8],
) -> Result<Option<[bool; 3]>, Fault> {
    let mut kept = append_first(alloc, is_failing.then_some(call))?;
    let answer = append_more(alloc, &mut kept, texts);
    if answer.err() != is_failing.then_some(Fault::Failed)
        || kept.journal.is_sound() == is_failing
    {
        return Ok(None);
    }
    let mut are_all = [false; 3];
    for (is_all, part) in are_all.iter_mut().zip([Part::Old, Part::New, Part::Torn]) {
        let found = left(alloc, &kept.store, call, part)?;
        *is_all = found.as_slice() == all;
        if !*is_all && found.as_slice() != b"ab\n".as_slice() {
            return Ok(None);
        }
    }
    Ok(Some(are_all))
}

#[test]
fn a_stop_leaves_all_new_records_or_none(rt: HostRuntime) -> Result<(), Fail> {
    let alloc = rt.alloc();
    let texts = texts_from(alloc, 5, 1, 2)?;
    for texts in [None, Some(&texts)] {
        let all = payloads_of_all(alloc, texts)?;
        for (call, failed, done) in STOPS {
            for (is_failing, wanted) in [(true, failed), (false, done)] {
                let found = stopped(alloc, call, is_failing, texts, &all)?;
                assert!(rt; found == Some(wanted), "at {call}, {is_failing}");
            }
        }
    }
    Ok(())
}
