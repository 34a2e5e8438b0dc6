use super::{Waiting, adopted, settings_of};
use crate::quiet::Quiet;
use irl_bay::JudgedRef;
use irl_model::judged;
use irl_offer::{Fault, Judged, Offer, Op, Rule, Settings, Text};
use std::alloc::{AllocError, Global};
use std::test::Fail;

// What a bay of four buckets was given, for the plain program: the offers of each bucket, and the cuts.
#[derive(Drop)]
struct Given {
    lists: Vec<Vec<Offer>>,
    cuts: Vec<Vec<u64>>,
}

impl Given {
    fn none(alloc: Global) -> Result<Given, AllocError> {
        let mut lists = Vec::new(alloc);
        for _ in 0..4 {
            lists.push(Vec::new(alloc))?;
        }
        Ok(Given {
            lists,
            cuts: Vec::new(alloc),
        })
    }

    fn push(&mut self, bucket: u32, offer: Offer) -> Result<(), AllocError> {
        if let Some(list) = self.lists.get_mut(bucket as usize) {
            list.push(offer)?;
        }
        Ok(())
    }

    // A cut at the length of each list.
    fn cut(&mut self, alloc: Global) -> Result<(), AllocError> {
        let mut cut = Vec::new(alloc);
        for list in &self.lists {
            cut.push(list.len() as u64)?;
        }
        self.cuts.push(cut)?;
        Ok(())
    }
}

// An offer of a bucket: one of 50 keys, the bucket's first and last among them, each operation in turn, and a text of 0 to
// 4 bytes.
fn offer_of(alloc: Global, bucket: u32, i: u32) -> Result<Offer, AllocError> {
    let op = match i % 3 {
        0 => Op::Check,
        1 => Op::Update,
        _ => Op::Both,
    };
    let text = i.to_le_bytes();
    let low = match u64::from(i.wrapping_mul(40_503) >> 7) % 50 {
        49 => u64::MAX >> 2,
        key => key,
    };
    Ok(Offer {
        op,
        key: u64::from(bucket % 4) << 62 | low,
        value: u64::from(i % 7),
        from: u64::from(i % 2),
        aux: Text::from_bytes(alloc, &text[..(i % 5) as usize])?,
    })
}

// An offer of a bucket, of 3,000 keys that come again.
fn many_of(alloc: Global, bucket: u32, turn: u32, i: u32) -> Result<Offer, AllocError> {
    Ok(Offer {
        op: Op::Both,
        key: u64::from(bucket % 4) << 62 | u64::from(turn / 4 % 3 * 1_000 + i % 1_000),
        value: u64::from(turn),
        from: 0,
        aux: Text::from_bytes(alloc, b"x")?,
    })
}

// Turns over four buckets: how many there are, how many offers each flushes, 3 or 1,000, and at each how manieth all that
// wait are judged.
#[derive(Clone, Copy)]
struct Turns {
    count: u32,
    offers: u32,
    every: u32,
}

impl Turns {
    // The bucket of a turn. Some merges of three find no offer of bucket 2, or of others.
    fn bucket(self, turn: u32) -> u32 {
        match turn % 7 {
            _ if self.offers != 3 => turn % 4,
            0 | 4 => 0,
            1 | 3 => 3,
            5 => 2,
            _ => 1,
        }
    }

    fn offer(self, alloc: Global, turn: u32, i: u32) -> Result<Offer, AllocError> {
        let bucket = self.bucket(turn);
        if self.offers == 3 {
            offer_of(alloc, bucket, turn.wrapping_mul(3).wrapping_add(i))
        } else {
            many_of(alloc, bucket, turn, i)
        }
    }

    // Flushes the offers of a turn, and gives the plain program the same.
    fn flush(
        self,
        alloc: Global,
        kept: &mut Waiting,
        given: &mut Given,
        turn: u32,
    ) -> Result<(), Fault> {
        for i in 0..self.offers {
            kept.wait(self.offer(alloc, turn, i)?);
            given.push(self.bucket(turn), self.offer(alloc, turn, i)?)?;
        }
        kept.flush(self.bucket(turn))
    }

    // Takes all turns over a new bay.
    fn taken(self, alloc: Global, settings: &Settings) -> Result<(Waiting, Given), Fault> {
        let mut kept = Waiting::made(alloc, None, settings)?;
        let mut given = Given::none(alloc)?;
        for turn in 0..self.count {
            self.flush(alloc, &mut kept, &mut given, turn)?;
            if turn.wrapping_add(1) % self.every.max(1) == 0 {
                given.cut(alloc)?;
                kept.merge(self.bucket(turn))?;
            }
        }
        Ok((kept, given))
    }
}

fn is_same(one: &JudgedRef<'_>, other: &Judged) -> bool {
    one.bucket == other.bucket
        && one.verdict == other.verdict
        && one.op == other.offer.op
        && one.key == other.offer.key
        && one.value == other.offer.value
        && one.from == other.offer.from
        && one.aux == other.offer.aux.bytes()
}

// How many judged offers a bay has that is opened anew, how many of them are those of the plain program, and how many are
// Unique.
fn compared(
    alloc: Global,
    store: &mut Quiet,
    settings: &Settings,
    given: &Given,
) -> Result<(usize, usize, u64), Fault> {
    let bay = adopted(alloc, store, 1_000, settings)?;
    if bay.judged_len() == 0 {
        return Err(Fault::Memory);
    }
    let found = bay.judged_from(store, 0, 20_000)?;
    let expected = judged(alloc, 4, settings.rule, &given.lists, &given.cuts)?;
    let mut same = 0_usize;
    for i in 0..found.len() {
        if let Some(other) = expected.get(i) {
            same = same.saturating_add(usize::from(is_same(&found.get(i), other)));
        }
    }
    Ok((found.len(), same, bay.unique_len()))
}

#[test]
fn a_bay_judges_as_the_plain_program(rt: HostRuntime) -> Result<(), Fail> {
    let alloc = rt.alloc();
    let turns = Turns {
        count: 500,
        offers: 3,
        every: 5,
    };
    for (rule, block) in [(Rule::Keep, 1), (Rule::Replace, 2), (Rule::Add, 3)] {
        let settings = Settings {
            rule,
            block,
            ..settings_of(4, 3, 10_000)
        };
        let (mut kept, given) = turns.taken(alloc, &settings)?;
        let (count, same, _) = compared(alloc, &mut kept.store, &settings, &given)?;
        assert!(rt;
            (count, same) == (1_500, 1_500),
            "{rule:?}: {same} of {count}"
        );
    }
    Ok(())
}

#[test]
fn many_keys_are_judged_in_pieces(rt: HostRuntime) -> Result<(), Fail> {
    let alloc = rt.alloc();
    let turns = Turns {
        count: 20,
        offers: 1_000,
        every: 10,
    };
    let settings = Settings {
        trigger: 1_048_576,
        ..settings_of(4, 1_000, 100_000)
    };
    let (mut kept, given) = turns.taken(alloc, &settings)?;
    let found = compared(alloc, &mut kept.store, &settings, &given)?;
    assert!(rt; found == (20_000, 20_000, 12_000), "{found:?}");
    Ok(())
}
