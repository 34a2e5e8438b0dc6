use crate::helpers::{offer, same};
use irl_base::lists::empty_lists;
use irl_model::{judge, judged, uniques};
use irl_offer::{Judged, Offer, Op, Rule, Verdict, bucket_of};
use std::alloc::{AllocError, Global};
use std::test::Fail;

const UNIQUE: Option<Verdict> = Some(Verdict::Unique);

const ABSENT: Option<Verdict> = Some(Verdict::Absent);

const ZERO: Option<Verdict> = Some(Verdict::Known(0));

// A key of the upper half, which stands in bucket 1 of two, and the next.
const HIGH: u64 = 0x8000_0000_0000_0001;

const NEXT: u64 = 0x8000_0000_0000_0002;

// A bucket, a key and a verdict.
type Row = (u32, u64, Option<Verdict>);

// Offers by bucket, each an operation, a key and a value, with cuts, the buckets, keys and verdicts that they judge, and the
// numbers and keys of the unique ones.
struct Case {
    rule: Rule,
    lists: &'static [&'static [(Op, u64, u64)]],
    cuts: &'static [&'static [u64]],
    judged: &'static [Row],
    uniques: &'static [(u64, u64)],
}

static CASES: [Case; 6] = [
    // Two lines, and the first again; the key of a line stands for it.
    Case {
        rule: Rule::Keep,
        lists: &[&[(Op::Both, 1, 0), (Op::Both, 2, 0), (Op::Both, 1, 0)]],
        cuts: &[&[3]],
        judged: &[(0, 1, UNIQUE), (0, 2, UNIQUE), (0, 1, ZERO)],
        uniques: &[(0, 1), (1, 2)],
    },
    // The same again behind another cut.
    Case {
        rule: Rule::Keep,
        lists: &[&[
            (Op::Both, 1, 0),
            (Op::Both, 2, 0),
            (Op::Both, 1, 0),
            (Op::Both, 1, 0),
            (Op::Both, 2, 0),
            (Op::Both, 1, 0),
        ]],
        cuts: &[&[3], &[6]],
        judged: &[
            (0, 1, UNIQUE),
            (0, 2, UNIQUE),
            (0, 1, ZERO),
            (0, 1, ZERO),
            (0, 2, ZERO),
            (0, 1, ZERO),
        ],
        uniques: &[(0, 1), (1, 2)],
    },
    // Two buckets and one cut: bucket 0 comes first.
    Case {
        rule: Rule::Keep,
        lists: &[
            &[(Op::Both, 1, 0)],
            &[(Op::Both, HIGH, 0), (Op::Both, HIGH, 0)],
        ],
        cuts: &[&[1, 2]],
        judged: &[(0, 1, UNIQUE), (1, HIGH, UNIQUE), (1, HIGH, ZERO)],
        uniques: &[(0, 1), (1, HIGH)],
    },
    // A check changes nothing, and a key has the value that it was entered with.
    Case {
        rule: Rule::Keep,
        lists: &[&[
            (Op::Both, 2, 0),
            (Op::Check, 1, 0),
            (Op::Both, 1, 7),
            (Op::Check, 1, 0),
        ]],
        cuts: &[&[4]],
        judged: &[
            (0, 2, UNIQUE),
            (0, 1, ABSENT),
            (0, 1, UNIQUE),
            (0, 1, Some(Verdict::Known(7))),
        ],
        uniques: &[(0, 2), (2, 1)],
    },
    // Two cuts: the first comes before the second, whose bucket 0 comes first.
    Case {
        rule: Rule::Keep,
        lists: &[
            &[(Op::Both, 1, 0)],
            &[
                (Op::Both, HIGH, 0),
                (Op::Both, HIGH, 0),
                (Op::Both, NEXT, 0),
            ],
        ],
        cuts: &[&[0, 2], &[1, 3]],
        judged: &[
            (1, HIGH, UNIQUE),
            (1, HIGH, ZERO),
            (0, 1, UNIQUE),
            (1, NEXT, UNIQUE),
        ],
        uniques: &[(0, HIGH), (2, 1), (3, NEXT)],
    },
    // A sum stops at the greatest number.
    Case {
        rule: Rule::Add,
        lists: &[&[
            (Op::Update, 1, u64::MAX),
            (Op::Update, 1, 5),
            (Op::Check, 1, 0),
        ]],
        cuts: &[&[3]],
        judged: &[
            (0, 1, None),
            (0, 1, None),
            (0, 1, Some(Verdict::Known(u64::MAX))),
        ],
        uniques: &[],
    },
];

fn lists_of(alloc: Global, case: &Case) -> Result<Vec<Vec<Offer>>, AllocError> {
    let mut lists = Vec::new(alloc);
    for rows in case.lists {
        let mut list = Vec::new(alloc);
        for (op, key, value) in *rows {
            list.push(offer(alloc, *op, *key, *value, b"")?)?;
        }
        lists.push(list)?;
    }
    Ok(lists)
}

fn cuts_of(alloc: Global, case: &Case) -> Result<Vec<Vec<u64>>, AllocError> {
    let mut cuts = Vec::new(alloc);
    for cut in case.cuts {
        cuts.push(cut.to_vec(alloc)?)?;
    }
    Ok(cuts)
}

// The buckets, the keys and the verdicts of judged offers.
fn verdicts_of(alloc: Global, judged: &[Judged]) -> Result<Vec<Row>, AllocError> {
    let mut rows = Vec::new(alloc);
    for one in judged {
        rows.push((one.bucket, one.offer.key, one.verdict))?;
    }
    Ok(rows)
}

// The numbers and the keys of unique offers.
fn keys_of(alloc: Global, uniques: &[(u64, Offer)]) -> Result<Vec<(u64, u64)>, AllocError> {
    let mut keys = Vec::new(alloc);
    for (number, offer) in uniques {
        keys.push((*number, offer.key))?;
    }
    Ok(keys)
}

// Whether a case's book is judged as it says, and has these unique offers.
fn is_as_said(alloc: Global, case: &Case) -> Result<bool, AllocError> {
    let lists = lists_of(alloc, case)?;
    let cuts = cuts_of(alloc, case)?;
    let buckets = if lists.len() == 1 { 1 } else { 2 };
    let judged = judged(alloc, buckets, case.rule, &lists, &cuts)?;
    let uniques = uniques(alloc, buckets, case.rule, &lists, &cuts)?;
    let rows = verdicts_of(alloc, &judged)?;
    let keys = keys_of(alloc, &uniques)?;
    Ok(rows.as_slice() == case.judged && keys.as_slice() == case.uniques)
}

#[test]
fn books_are_judged_cut_by_cut(rt: HostRuntime) -> Result<(), Fail> {
    for (i, case) in CASES.iter().enumerate() {
        let is_as_said = is_as_said(rt.alloc(), case)?;
        assert!(rt; is_as_said, "at case {i}");
    }
    Ok(())
}

fn lengths(alloc: Global, lists: &[Vec<Offer>]) -> Result<Vec<u64>, AllocError> {
    let mut lengths = Vec::new(alloc);
    for list in lists {
        lengths.push(list.len() as u64)?;
    }
    Ok(lengths)
}

// Many offers over 16 buckets, a third of them of a key that came before, with a cut at every 1,000.
fn many(alloc: Global) -> Result<(Vec<Vec<Offer>>, Vec<Vec<u64>>), AllocError> {
    let mut lists: Vec<Vec<Offer>> = empty_lists(alloc, 16)?;
    let mut cuts = Vec::new(alloc);
    for i in 0..10_000_u64 {
        let key = (i * 7 % 6_700 + 1).wrapping_mul(0x9E37_79B9_7F4A_7C15);
        let op = if i % 5 == 0 { Op::Check } else { Op::Both };
        if let Some(list) = lists.get_mut(bucket_of(key, 16) as usize) {
            list.push(offer(alloc, op, key, i, b"")?)?;
        }
        if i % 1_000 == 999 {
            cuts.push(lengths(alloc, &lists)?)?;
        }
    }
    Ok((lists, cuts))
}

// The judged offers alone, and their verdicts.
fn offers_of(
    alloc: Global,
    judged: Vec<Judged>,
) -> Result<(Vec<Offer>, Vec<Option<Verdict>>), AllocError> {
    let mut offers = Vec::new(alloc);
    let mut verdicts = Vec::new(alloc);
    for Judged { offer, verdict, .. } in judged {
        offers.push(offer)?;
        verdicts.push(verdict)?;
    }
    Ok((offers, verdicts))
}

// How many of some verdicts are Unique, Absent, and Known.
fn counts(verdicts: &[Option<Verdict>]) -> [usize; 3] {
    let mut counts = [0_usize; 3];
    for verdict in verdicts {
        match verdict {
            Some(Verdict::Unique) => counts[0] = counts[0].saturating_add(1),
            Some(Verdict::Absent) => counts[1] = counts[1].saturating_add(1),
            Some(Verdict::Known(_)) => counts[2] = counts[2].saturating_add(1),
            None => {}
        }
    }
    counts
}

// How many of many offers are unique, and the counts of their verdicts by their book, and as one list.
fn judged_many(alloc: Global) -> Result<(usize, [[usize; 3]; 2]), AllocError> {
    let (lists, cuts) = many(alloc)?;
    let judged = judged(alloc, 16, Rule::Keep, &lists, &cuts)?;
    let uniques = uniques(alloc, 16, Rule::Keep, &lists, &cuts)?;
    let (offers, verdicts) = offers_of(alloc, judged)?;
    let as_one = judge(alloc, Rule::Keep, &offers)?;
    Ok((uniques.len(), [counts(&verdicts), counts(&as_one)]))
}

// The keys of the first 6,700 offers come again from there on. Each fifth offer is a check, and so is what comes again of its key.
#[test]
fn many_offers_are_judged_as_one_list(rt: HostRuntime) -> Result<(), Fail> {
    let counts = [5_360, 2_000, 2_640];
    let judged = judged_many(rt.alloc())?;
    same(
        &rt,
        judged == (5_360, [counts, counts]),
        "count of verdicts",
    );
    Ok(())
}
