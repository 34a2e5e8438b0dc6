use crate::bay::{adopted, counts, merge};
use crate::quiet::Quiet;
use irl_bay::Bay;
use irl_offer::{Fault, Kind, Rule, Settings};
use std::alloc::Global;
use std::test::Fail;

// The settings of a store of tuples with one bucket, and arrays of two offers.
const SETTINGS: Settings = Settings {
    kind: Kind::Tuples,
    rule: Rule::Keep,
    buckets: 1,
    array: 2,
    trigger: 16,
    block: 16,
    cap: 16,
    queues: 2,
    base: 10,
    most: 10_000,
    ranks: 10_000,
};

// How many offers a bay has, how many of them wait, and how many cuts it has.
type Counts = (u64, u64, u64);

// Opens the bay whose first file is 100: its counts, or why it was refused.
fn opened(alloc: Global, store: &mut Quiet) -> Result<Counts, Fault> {
    let bay = adopted(alloc, store, 100, &SETTINGS)?;
    let (durable, pending) = counts(&bay, 0).ok_or(Fault::Memory)?;
    Ok((durable, pending, bay.cuts()))
}

#[test]
fn a_made_bay_is_adopted_empty(rt: HostRuntime) -> Result<(), Fail> {
    let alloc = rt.alloc();
    let mut store = Quiet::new(alloc);
    assert!(rt; SETTINGS.is_valid());
    Bay::make(alloc, &mut store, 100, &SETTINGS)?;
    assert!(rt; opened(alloc, &mut store) == Ok((0, 0, 0)));
    Ok(())
}

// The bytes of a commit's record of one bucket, without the next gate: the byte of the sides, and the low byte of the entries,
// the judged and the unique ones, the texts' length and the cut.
fn commit(numbers: [u8; 6]) -> [u8; 46] {
    let [sides, entries, judged, unique, texts, cut] = numbers;
    let mut bytes = [0; 46];
    bytes[0] = 0xA5;
    bytes[1] = 41;
    bytes[5] = sides;
    bytes[6] = entries;
    bytes[14] = judged;
    bytes[22] = unique;
    bytes[30] = texts;
    bytes[38] = cut;
    bytes
}

// The commits of a manifest, bytes of other files, what opening answers, and the texts of the offers that wait then, as a merge
// judges them, each with a comma behind it.
#[derive(Clone, Copy)]
struct Case<'a> {
    commits: &'a [[u8; 6]],
    files: &'a [(u16, &'a [u8])],
    answer: Result<Counts, Fault>,
    texts: &'a [u8],
}

// Writes the files of a case.
fn written(alloc: Global, case: &Case<'_>) -> Result<Quiet, Fault> {
    let mut store = Quiet::new(alloc);
    for numbers in case.commits {
        store.put(100, &commit(*numbers))?;
    }
    if !case.commits.is_empty() {
        store.put(100, b"\0")?;
    }
    for (f, bytes) in case.files {
        store.put(*f, bytes)?;
    }
    Ok(store)
}

// The texts of the offers that wait, as a merge judges them.
fn texts_waiting(alloc: Global, store: &mut Quiet) -> Result<Vec<u8>, Fault> {
    let mut bay = adopted(alloc, store, 100, &SETTINGS)?;
    let mut texts = Vec::new(alloc);
    let first = bay.judged_len();
    merge(store, &mut bay, 0)?;
    let merged = adopted(alloc, store, 100, &SETTINGS)?;
    if first >= merged.judged_len() {
        return Err(Fault::Memory);
    }
    let found = merged.judged_from(store, first, 100)?;
    for i in 0..found.len() {
        texts.extend_from_slice(found.get(i).aux)?;
        texts.extend_from_slice(b",")?;
    }
    Ok(texts)
}

// Whether a case is as it says.
fn is_so(alloc: Global, case: &Case<'_>) -> Result<bool, Fault> {
    let mut store = written(alloc, case)?;
    if opened(alloc, &mut store) != case.answer {
        return Ok(false);
    }
    Ok(case.texts.is_empty() || texts_waiting(alloc, &mut store)?.as_slice() == case.texts)
}

// Two records of a bucket's journal, with two offers of key 1 each, whose texts have 1, 2, 0 and 1 bytes.
const JOURNAL: &[u8] = b"\xA5\x36\0\0\0\
    \x02\x01\0\x01\0\0\0\0\0\0\0\x07\0\0\0\0\0\0\0\0\0\0\0\0\0\0\0\
    \x02\x02\0\x01\0\0\0\0\0\0\0\x07\0\0\0\0\0\0\0\0\0\0\0\0\0\0\0\
    \xA5\x36\0\0\0\
    \x02\0\0\x01\0\0\0\0\0\0\0\x07\0\0\0\0\0\0\0\0\0\0\0\0\0\0\0\
    \x02\x01\0\x01\0\0\0\0\0\0\0\x07\0\0\0\0\0\0\0\0\0\0\0\0\0\0\0\0";

// One record of one offer, whose text has one byte.
const ONE: &[u8] =
    b"\xA5\x1B\0\0\0\x02\x01\0\x01\0\0\0\0\0\0\0\x07\0\0\0\0\0\0\0\0\0\0\0\0\0\0\0\0";

// Judged offers.
const JUDGED: &[u8] = &[0; 192];

// A record that passes the file's end.
const TOO_LONG: &[u8] = b"\xA5\xFF\0\0\0\0";

// The cut of a commit of the earlier layout, and the texts of the offers that wait behind it.
const BEHIND: [(u8, &[u8]); 5] = [
    (0, b"a,bc,,d,"),
    (1, b"bc,,d,"),
    (2, b",d,"),
    (3, b"d,"),
    (4, b""),
];

#[test]
fn runs_are_adopted_up_to_any_cut(rt: HostRuntime) -> Result<(), Fail> {
    for (cut, texts) in BEHIND {
        let case = Case {
            commits: &[[0, 0, cut, 0, 0, cut]],
            files: &[(103, JUDGED), (110, JOURNAL), (111, b"abcd")],
            answer: Ok((4, 4_u64.saturating_sub(u64::from(cut)), 1)),
            texts,
        };
        assert!(rt; is_so(rt.alloc(), &case)?, "cut {cut}");
    }
    Ok(())
}

// The live journal has the offers past the cut, and what lies in the other means nothing.
#[test]
fn a_live_side_has_the_offers_that_wait(rt: HostRuntime) -> Result<(), Fail> {
    // The byte of the sides, and the journal of the live side, its texts and the other journal.
    for (sides, live, texts, other) in [
        (2, 110, 111, 600),
        (3, 110, 111, 600),
        (4, 600, 601, 110),
        (5, 600, 601, 110),
    ] {
        let case = Case {
            commits: &[[sides, 0, 3, 0, 0, 3]],
            files: &[(103, JUDGED), (live, ONE), (texts, b"a"), (other, TOO_LONG)],
            answer: Ok((4, 1, 1)),
            texts: b"a,",
        };
        assert!(rt; is_so(rt.alloc(), &case)?, "{sides}");
    }
    Ok(())
}

// Commits of which one is damaged, with the file and the place.
const DAMAGED: [(&[[u8; 6]], u16, u64); 16] = [
    // Sides that are none.
    (&[[6, 0, 0, 0, 0, 0]], 100, 0),
    (&[[255, 0, 0, 0, 0, 0]], 100, 0),
    // Each file that is too short.
    (&[[0, 1, 0, 0, 0, 0]], 101, 0),
    (&[[1, 1, 0, 0, 0, 0]], 102, 0),
    (&[[2, 1, 0, 0, 0, 0]], 101, 0),
    (&[[5, 1, 0, 0, 0, 0]], 102, 0),
    (&[[0, 0, 1, 0, 0, 0]], 103, 0),
    (&[[0, 0, 0, 0, 1, 0]], 104, 0),
    // A cut above the list, by the journal of the one side and by the judged offers.
    (&[[0, 0, 0, 0, 0, 1]], 100, 0),
    (&[[2, 0, 0, 0, 0, 1]], 100, 0),
    // The same of a second commit; and there a number that falls, the layout of one side behind that of two, and sides that
    // are none.
    (&[[0, 0, 0, 0, 3, 0], [0, 0, 0, 0, 2, 0]], 100, 46),
    (&[[0, 0, 0, 0, 0, 0], [0, 0, 0, 0, 0, 1]], 100, 46),
    (&[[2, 0, 0, 0, 0, 0], [5, 0, 0, 0, 0, 1]], 100, 46),
    (&[[2, 0, 0, 0, 0, 0], [1, 0, 0, 0, 0, 0]], 100, 46),
    (&[[5, 0, 0, 0, 0, 0], [0, 0, 0, 0, 0, 0]], 100, 46),
    (&[[5, 0, 0, 0, 0, 0], [6, 0, 0, 0, 0, 0]], 100, 46),
];

#[test]
fn damage_of_a_commit_is_named(rt: HostRuntime) -> Result<(), Fail> {
    for (i, (commits, f, at)) in DAMAGED.iter().enumerate() {
        let case = Case {
            commits,
            files: &[],
            answer: Err(Fault::Damaged(*f, *at)),
            texts: b"",
        };
        assert!(rt; is_so(rt.alloc(), &case)?, "row {i}");
    }
    Ok(())
}

// Files without a commit of their own, or with one that is damaged, and what opening them answers.
type Files = (&'static [(u16, &'static [u8])], Result<Counts, Fault>);

const FILES: [Files; 11] = [
    // A commit of another length, and one of 2 ^ 60 keys.
    (&[(100, b"\xA5\x01\0\0\0\0\0")], Err(Fault::Damaged(100, 0))),
    (
        &[(
            100,
            b"\xA5\x29\0\0\0\0\0\0\0\0\0\0\0\x10\0\0\0\0\0\0\0\0\0\0\0\0\0\0\0\0\
            \0\0\0\0\0\0\0\0\0\0\0\0\0\0\0\0\0",
        )],
        Err(Fault::Damaged(101, 0)),
    ),
    // A journal of one byte, one of one offer, one of two, and one of three, which are more than an array has.
    (&[(110, b"\xA5")], Ok((0, 0, 0))),
    (&[(110, ONE), (111, b"a")], Ok((1, 1, 0))),
    (
        &[(
            110,
            b"\xA5\x36\0\0\0\
            \x02\0\0\x01\0\0\0\0\0\0\0\x07\0\0\0\0\0\0\0\0\0\0\0\0\0\0\0\
            \x02\0\0\x01\0\0\0\0\0\0\0\x07\0\0\0\0\0\0\0\0\0\0\0\0\0\0\0\0",
        )],
        Ok((2, 2, 0)),
    ),
    (
        &[(
            110,
            b"\xA5\x51\0\0\0\
            \x02\0\0\x01\0\0\0\0\0\0\0\x07\0\0\0\0\0\0\0\0\0\0\0\0\0\0\0\
            \x02\0\0\x01\0\0\0\0\0\0\0\x07\0\0\0\0\0\0\0\0\0\0\0\0\0\0\0\
            \x02\0\0\x01\0\0\0\0\0\0\0\x07\0\0\0\0\0\0\0\0\0\0\0\0\0\0\0\0",
        )],
        Err(Fault::Damaged(110, 0)),
    ),
    // No operation 3.
    (
        &[(
            110,
            b"\xA5\x1B\0\0\0\x03\0\0\x01\0\0\0\0\0\0\0\x07\0\0\0\0\0\0\0\0\0\0\0\0\0\0\0\0",
        )],
        Err(Fault::Damaged(110, 0)),
    ),
    // A record that passes the file's end, a run without an entry, one that isn't whole entries, and texts that aren't
    // there.
    (&[(110, TOO_LONG)], Err(Fault::Damaged(110, 0))),
    (&[(110, b"\xA5\0\0\0\0\0")], Err(Fault::Damaged(110, 0))),
    (
        &[(110, b"\xA5\x01\0\0\0\x02\0")],
        Err(Fault::Damaged(110, 0)),
    ),
    (&[(110, ONE)], Err(Fault::Damaged(111, 0))),
];

#[test]
fn files_are_adopted_or_refused(rt: HostRuntime) -> Result<(), Fail> {
    for (i, (files, answer)) in FILES.iter().enumerate() {
        let case = Case {
            commits: &[],
            files,
            answer: *answer,
            texts: b"",
        };
        assert!(rt; is_so(rt.alloc(), &case)?, "row {i}");
    }
    Ok(())
}

static TWO_COMMITS: Case<'static> = Case {
    commits: &[[2, 0, 1, 0, 0, 1], [3, 0, 3, 0, 0, 3]],
    files: &[(103, JUDGED)],
    answer: Ok((3, 0, 2)),
    texts: b"",
};

static ONE_COMMIT: Case<'static> = Case {
    commits: &[[2, 0, 1, 0, 0, 1]],
    files: &[],
    answer: Ok((1, 0, 1)),
    texts: b"",
};

#[test]
fn each_cut_tells_how_many_offers_were_judged(rt: HostRuntime) -> Result<(), Fail> {
    let alloc = rt.alloc();
    let mut store = written(alloc, &TWO_COMMITS)?;
    let bay = adopted(alloc, &mut store, 100, &SETTINGS)?;
    let found = bay.judged_at_cuts(alloc, &mut store)?;
    assert!(rt; found.as_slice() == [1, 3].as_slice());
    // A manifest that ends before the second commit.
    let mut other = written(alloc, &ONE_COMMIT)?;
    let refused = bay.judged_at_cuts(alloc, &mut other).err();
    assert!(rt; refused == Some(Fault::Damaged(100, 46)));
    Ok(())
}
