use irl_merge::Sweep;
use irl_model::KeySet;
use irl_offer::{Entry, Offer, Op, Pair, Rule, Text, Verdict};
use std::alloc::{AllocError, Global};
use std::test::Fail;

const UNIQUE: Option<Verdict> = Some(Verdict::Unique);

const ABSENT: Option<Verdict> = Some(Verdict::Absent);

const NEAR: u64 = 0xFFFF_FFFF_FFFF_FFFD;

// What the cache has, the offers with their verdicts, and what the cache has then.
struct Case {
    rule: Rule,
    cache: &'static [(u64, u64)],
    offers: &'static [(Op, u64, u64, Option<Verdict>)],
    then: &'static [(u64, u64)],
}

static CASES: [Case; 8] = [
    // Two lines, and the first again; the key of a line stands for it.
    Case {
        rule: Rule::Keep,
        cache: &[],
        offers: &[
            (Op::Both, 1, 0, UNIQUE),
            (Op::Both, 2, 0, UNIQUE),
            (Op::Both, 1, 0, Some(Verdict::Known(0))),
        ],
        then: &[(1, 0), (2, 0)],
    },
    // A check changes nothing, and is answered by what came before it.
    Case {
        rule: Rule::Keep,
        cache: &[],
        offers: &[
            (Op::Both, 2, 0, UNIQUE),
            (Op::Check, 1, 0, ABSENT),
            (Op::Both, 1, 7, UNIQUE),
            (Op::Check, 1, 0, Some(Verdict::Known(7))),
        ],
        then: &[(1, 7), (2, 0)],
    },
    // Keys of the cache, the last of them too, below them, between them and above them.
    Case {
        rule: Rule::Keep,
        cache: &[(3, 30), (5, 50), (8, 80), (9, 90)],
        offers: &[
            (Op::Both, 9, 1, Some(Verdict::Known(90))),
            (Op::Both, 10, 2, UNIQUE),
            (Op::Check, 4, 3, ABSENT),
            (Op::Update, 3, 4, None),
            (Op::Both, 1, 5, UNIQUE),
            (Op::Check, 3, 6, Some(Verdict::Known(30))),
            (Op::Both, 4, 7, UNIQUE),
            (Op::Check, 9, 8, Some(Verdict::Known(90))),
        ],
        then: &[(1, 5), (3, 30), (4, 7), (5, 50), (8, 80), (9, 90), (10, 2)],
    },
    // The least and the greatest key, in the cache and beside it.
    Case {
        rule: Rule::Keep,
        cache: &[(0, 1), (u64::MAX, 2)],
        offers: &[
            (Op::Both, u64::MAX, 3, Some(Verdict::Known(2))),
            (Op::Both, 0, 4, Some(Verdict::Known(1))),
            (Op::Both, 7, 5, UNIQUE),
        ],
        then: &[(0, 1), (7, 5), (u64::MAX, 2)],
    },
    // Nothing is asked, and then there is nothing at all.
    Case {
        rule: Rule::Add,
        cache: &[(1, 10), (2, 20), (3, 30), (4, 40)],
        offers: &[],
        then: &[(1, 10), (2, 20), (3, 30), (4, 40)],
    },
    Case {
        rule: Rule::Add,
        cache: &[],
        offers: &[],
        then: &[],
    },
    Case {
        rule: Rule::Replace,
        cache: &[(3, 30), (5, 50)],
        offers: &[
            (Op::Both, 5, 1, Some(Verdict::Known(50))),
            (Op::Update, 5, 2, None),
            (Op::Check, 5, 3, Some(Verdict::Known(2))),
            (Op::Update, 0, 4, None),
        ],
        then: &[(0, 4), (3, 30), (5, 2)],
    },
    // A sum stops at the greatest number.
    Case {
        rule: Rule::Add,
        cache: &[(1, NEAR)],
        offers: &[
            (Op::Update, 1, 1, None),
            (Op::Both, 1, 5, Some(Verdict::Known(0xFFFF_FFFF_FFFF_FFFE))),
            (Op::Check, 1, 0, Some(Verdict::Known(u64::MAX))),
            (Op::Both, 2, 5, UNIQUE),
            (Op::Both, 2, 5, Some(Verdict::Known(5))),
        ],
        then: &[(1, u64::MAX), (2, 10)],
    },
];

fn pairs(alloc: Global, pairs: &[(u64, u64)]) -> Result<Vec<Pair>, AllocError> {
    pairs
        .iter()
        .map(|(key, value)| Pair {
            key: *key,
            value: *value,
        })
        .collect(alloc)
}

fn entry(op: Op, key: u64, value: u64) -> Entry {
    Entry {
        op,
        aux_len: 0,
        key,
        value,
        from: 0,
    }
}

// What stood in `out` before a call.
const OTHER: Pair = Pair { key: 8, value: 9 };

// The verdicts, and the pairs that are given, where the cache comes in blocks of so many pairs and what is given is taken
// away after each.
type Swept = (Vec<Option<Verdict>>, Vec<Pair>);

// Adds what a call gave, behind the pair that stood there.
fn take(given: &mut Vec<Pair>, out: &[Pair]) -> Result<(), AllocError> {
    match out {
        [first, rest @ ..] if *first == OTHER => given.extend_from_slice(rest),
        _ => Err(AllocError),
    }
}

fn swept(
    alloc: Global,
    rule: Rule,
    entries: &[Entry],
    cache: &[Pair],
    block: usize,
) -> Result<Swept, AllocError> {
    let mut sweep = Sweep::new(alloc, rule, entries)?;
    let mut given = Vec::new(alloc);
    for block in cache.chunks(block.max(1)) {
        let mut out = vec![in alloc; OTHER]?;
        if !sweep.is_sound() {
            return Err(AllocError);
        }
        sweep.feed(block, &mut out)?;
        take(&mut given, &out)?;
    }
    let mut out = vec![in alloc; OTHER]?;
    if !sweep.is_sound() {
        return Err(AllocError);
    }
    let verdicts = sweep.end(&mut out)?;
    take(&mut given, &out)?;
    Ok((verdicts, given))
}

// What a case says.
fn said(alloc: Global, case: &Case) -> Result<(Vec<Entry>, Swept), AllocError> {
    let mut entries = Vec::new(alloc);
    let mut expected = Vec::new(alloc);
    for (op, key, value, verdict) in case.offers {
        entries.push(entry(*op, *key, *value))?;
        expected.push(*verdict)?;
    }
    Ok((entries, (expected, pairs(alloc, case.then)?)))
}

#[test]
fn offers_are_judged_in_their_order(rt: HostRuntime) -> Result<(), Fail> {
    let alloc = rt.alloc();
    for (i, case) in CASES.iter().enumerate() {
        let (entries, wanted) = said(alloc, case)?;
        let cache = pairs(alloc, case.cache)?;
        for block in 1..4 {
            let found = swept(alloc, case.rule, &entries, &cache, block)?;
            assert!(rt; found == wanted, "case {i} by {block}");
        }
    }
    Ok(())
}

// Offers of all operations, some nine of each key from 0 to 96.
fn many(alloc: Global) -> Result<Vec<Offer>, AllocError> {
    let mut offers = Vec::new(alloc);
    let mut seed: u64 = 1;
    for i in 0..900 {
        seed = seed
            .wrapping_mul(6_364_136_223_846_793_005)
            .wrapping_add(1_442_695_040_888_963_407);
        let op = match seed >> 60 {
            0..6 => Op::Check,
            6..11 => Op::Update,
            _ => Op::Both,
        };
        offers.push(Offer {
            op,
            key: (seed >> 33) % 97,
            value: i,
            from: 0,
            aux: Text::from_bytes(alloc, b"")?,
        })?;
    }
    Ok(offers)
}

// A set of 200 keys from 0 to 299, each with a value.
fn first_keys(alloc: Global) -> Result<KeySet, AllocError> {
    let mut keys = KeySet::new(alloc);
    for key in 0..300 {
        if key % 3 != 1 {
            keys.insert(key, NEAR - key)?;
        }
    }
    Ok(keys)
}

// Whether a sweep of 900 offers over those keys gives what one set does.
fn gives_the_same(alloc: Global, rule: Rule) -> Result<bool, AllocError> {
    let offers = many(alloc)?;
    let mut entries = Vec::new(alloc);
    for offer in &offers {
        entries.push(entry(offer.op, offer.key, offer.value))?;
    }
    let mut keys = first_keys(alloc)?;
    let cache = keys.pairs(alloc)?;
    let found = swept(alloc, rule, &entries, &cache, 64)?;
    let wanted = (keys.ask_all(alloc, rule, &offers)?, keys.pairs(alloc)?);
    Ok(cache.len() == 200 && found == wanted)
}

#[test]
fn a_sweep_gives_what_one_set_does(rt: HostRuntime) -> Result<(), Fail> {
    for rule in [Rule::Keep, Rule::Replace, Rule::Add] {
        assert!(rt; gives_the_same(rt.alloc(), rule)?, "by {rule:?}");
    }
    Ok(())
}

// Each of 10,000 keys once, in another order, over a cache of those that are even; and what comes of it.
fn many_keys(alloc: Global) -> Result<(Swept, Swept), AllocError> {
    let mut entries = Vec::new(alloc);
    let mut cache = Vec::new(alloc);
    let mut verdicts = Vec::new(alloc);
    let mut then = Vec::new(alloc);
    for key in 0..10_000 {
        entries.push(entry(Op::Both, key * 7 % 10_000, 1))?;
        let is_even = key % 2 == 0;
        let value = if is_even { 9 } else { 1 };
        if is_even {
            cache.push(Pair { key, value })?;
        }
        // Each seventh key is even where the key is.
        verdicts.push(if is_even {
            Some(Verdict::Known(9))
        } else {
            UNIQUE
        })?;
        then.push(Pair { key, value })?;
    }
    let found = swept(alloc, Rule::Keep, &entries, &cache, 4_096)?;
    Ok((found, (verdicts, then)))
}

#[test]
fn many_keys_are_swept_in_blocks(rt: HostRuntime) -> Result<(), Fail> {
    let (found, wanted) = many_keys(rt.alloc())?;
    assert!(rt; found.0.len() == 10_000 && found == wanted);
    Ok(())
}
