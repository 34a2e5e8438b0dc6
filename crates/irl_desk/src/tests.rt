use crate::Desk;
use irl_disk::MemStore;
use irl_intake::{Intake, Next};
use irl_offer::{Asked, Fault, Judged, Kind, Offer, Offers, Op, Receipt, Rule, Text};
use irl_yard::Yard;
use std::alloc::{AllocError, Global};
use std::sync::Wait;
use std::test::Fail;

// What is asked of a store of tuples with four buckets.
fn asked_of(array: u32, trigger: u32, cap: u64) -> Asked {
    Asked {
        kind: Kind::Tuples,
        rule: Some(Rule::Keep),
        buckets: Some(4),
        array: Some(array),
        trigger: Some(trigger),
        block: None,
        cap: Some(cap),
        queues: None,
        base: None,
        most: None,
        ranks: None,
    }
}

// Opens a store, or makes one.
fn entered(alloc: Global, store: MemStore, asked: &Asked) -> Result<Yard<MemStore>, Fault> {
    match Yard::enter(alloc, store, asked) {
        Ok(yard) => Ok(yard),
        Err(_) => Err(Fault::Memory),
    }
}

// A desk before it.
fn opened(alloc: Global, store: MemStore, asked: &Asked) -> Result<Desk<MemStore>, Fault> {
    let yard = entered(alloc, store, asked)?;
    if !yard.is_sound() {
        return Err(Fault::Memory);
    }
    match Desk::open(alloc, yard) {
        Ok(desk) => Ok(desk),
        Err(_) => Err(Fault::Memory),
    }
}

// A store whose files are empty, and one of which the call of this number fails.
fn blank(alloc: Global) -> MemStore {
    MemStore::new(alloc, Vec::new(alloc))
}

fn failing(alloc: Global, call: u64) -> Result<MemStore, AllocError> {
    Ok(MemStore::new(alloc, vec![in alloc; call]?))
}

// An offer with this text.
fn offer_of(alloc: Global, key: u64, text: u8) -> Result<Offer, AllocError> {
    Ok(Offer {
        op: Op::Both,
        key,
        value: 0,
        from: 0,
        aux: Text::from_bytes(alloc, &[text])?,
    })
}

// A receipt that no desk gives.
const NONE: Receipt = Receipt {
    bucket: 9,
    number: 0,
};

// Hands an offer in: a bucket's number, and what tells the offer from others. A refusal hands it back.
fn offer<R: Wait>(
    rt: &R,
    alloc: Global,
    desk: &mut Desk<MemStore>,
    bucket: u64,
    text: u8,
) -> Result<Receipt, Fault> {
    match desk.intake.settings().kind {
        Kind::Tuples => {}
        Kind::Lines | Kind::Crawl => return Ok(NONE),
    }
    let offered = offer_of(alloc, (bucket % 4) << 62 | u64::from(text), text)?;
    match desk.offer(rt, offered) {
        Ok(receipt) => Ok(receipt),
        Err((fault, back)) if back.aux.bytes() == [text].as_slice() => Err(fault),
        Err(_) => Ok(NONE),
    }
}

// The texts of each bucket's offers, by their numbers.
type Lists = [[u8; 8]; 4];

fn put(lists: &mut Lists, receipt: Receipt, text: u8) {
    if receipt.bucket < 4 && receipt.number < 8 {
        lists[receipt.bucket as usize][receipt.number as usize] = text;
    }
}

// Hands offers in as long as none is refused, and puts each where its receipt says.
fn offer_all<R: Wait>(
    rt: &R,
    alloc: Global,
    desk: &mut Desk<MemStore>,
    offers: &[(u64, u8)],
) -> Result<Lists, Fault> {
    let mut lists = [[0; 8]; 4];
    for (bucket, text) in offers {
        let receipt = offer(rt, alloc, desk, *bucket, *text)?;
        put(&mut lists, receipt, *text);
    }
    Ok(lists)
}

// Where it is closed with Ok, its store.
fn closed(desk: Desk<MemStore>) -> Result<Yard<MemStore>, Fault> {
    let (closed, yard) = desk.close();
    closed?;
    Ok(yard)
}

// All that a store has, once it is judged.
fn judged(alloc: Global, intake: &mut Intake<MemStore>) -> Result<Vec<Judged>, Fault> {
    if !intake.is_sound() || intake.advance(None)? == Next::Merged {
        return Err(Fault::Memory);
    }
    if !intake.is_sound() || intake.judged_len() == 0 {
        return Err(Fault::Memory);
    }
    Ok(intake.judged_from(0, 64)?.to_vec(alloc)?)
}

// One text more.
fn add(list: &mut [u8; 8], text: u8) {
    for place in list.iter_mut() {
        if *place == 0 {
            *place = text;
            return;
        }
    }
}

fn lists_of(judged: &[Judged]) -> Lists {
    let mut lists = [[0; 8]; 4];
    for one in judged {
        let text = one.offer.aux.bytes().first().copied().unwrap_or(0);
        if one.bucket < 4 {
            add(&mut lists[one.bucket as usize], text);
        }
    }
    lists
}

// What the lists of a store have.
fn listed(alloc: Global, yard: Yard<MemStore>) -> Result<Lists, Fault> {
    match Intake::new(alloc, yard) {
        Ok(mut intake) => Ok(lists_of(&judged(alloc, &mut intake)?)),
        Err(_) => Err(Fault::Memory),
    }
}

const OFFERS: [(u64, u8); 11] = [
    (0, b'a'),
    (3, b'b'),
    (0, b'c'),
    (1, b'd'),
    (0, b'e'),
    (3, b'f'),
    (0, b'a'),
    (3, b'g'),
    (0, b'h'),
    (1, b'i'),
    (0, b'j'),
];

const LISTS: Lists = [
    *b"aceahj\0\0",
    *b"di\0\0\0\0\0\0",
    *b"\0\0\0\0\0\0\0\0",
    *b"bfg\0\0\0\0\0",
];

// The lists by the receipts of these offers, and those of the store that comes back.
fn handed_in<R: Wait>(rt: &R, alloc: Global, asked: &Asked) -> Result<(Lists, Lists), Fault> {
    let mut desk = opened(alloc, blank(alloc), asked)?;
    let by_receipts = offer_all(rt, alloc, &mut desk, &OFFERS)?;
    Ok((by_receipts, listed(alloc, closed(desk)?)?))
}

#[test]
fn each_offer_stands_where_its_receipt_says(rt: HostRuntime) -> Result<(), Fail> {
    let alloc = rt.alloc();
    // Some are judged before the last is handed in, where the trigger is low.
    for (array, trigger) in [(2, 100), (2, 4), (1, 1), (4, 3)] {
        let (by_receipts, listed) = handed_in(&rt, alloc, &asked_of(array, trigger, 1_000))?;
        assert!(rt; by_receipts == LISTS, "array {array}");
        assert!(rt; listed == LISTS, "array {array}");
    }
    Ok(())
}

// One item more.
fn keep<T: Drop>(items: &mut Vec<T>, item: T) -> Result<(), AllocError> {
    items.push(item)?;
    Ok(())
}

// What is answered to offers of these buckets: each one's number, or the fault.
fn numbers<R: Wait>(
    rt: &R,
    alloc: Global,
    desk: &mut Desk<MemStore>,
    buckets: &[u64],
) -> Result<Vec<Result<u64, Fault>>, Fault> {
    let mut numbers = Vec::new(alloc);
    for bucket in buckets {
        let answer = offer(rt, alloc, desk, *bucket, b'a');
        keep(&mut numbers, answer.map(|receipt| receipt.number))?;
    }
    Ok(numbers)
}

// What a desk answers to offers of these buckets, and its last fault then, what closing it answers, and the list of bucket 2.
#[derive(Drop)]
struct Ended {
    numbers: Vec<Result<u64, Fault>>,
    last: Option<Fault>,
    closed: Result<(), Fault>,
    list: [u8; 8],
}

fn run_to_end<R: Wait>(
    rt: &R,
    alloc: Global,
    asked: &Asked,
    buckets: &[u64],
) -> Result<Ended, Fault> {
    let mut desk = opened(alloc, blank(alloc), asked)?;
    let numbers = numbers(rt, alloc, &mut desk, buckets)?;
    let last = desk.last_fault();
    let (closed, yard) = desk.close();
    let list = listed(alloc, yard)?[2];
    Ok(Ended {
        numbers,
        last,
        closed,
        list,
    })
}

#[test]
fn a_full_bucket_is_refused_again(rt: HostRuntime) -> Result<(), Fail> {
    let alloc = rt.alloc();
    let full = Fault::Full(2);
    let run = run_to_end(&rt, alloc, &asked_of(1, 100, 2), &[2, 2, 2, 2, 1, 2])?;
    let numbers = [Ok(0), Ok(1), Ok(2), Err(full), Err(full), Err(full)];
    assert!(rt; run.numbers.as_slice() == numbers.as_slice());
    assert_eq!(rt; (run.last, run.closed), (Some(full), Err(full)));
    // The third waited, and is dropped.
    assert!(rt; run.list == *b"aa\0\0\0\0\0\0");
    Ok(())
}

// How many calls there are once a store was made, and once the offers were handed in and all is flushed.
fn calls<R: Wait>(rt: &R, alloc: Global, asked: &Asked) -> Result<(u64, u64), Fault> {
    let first = entered(alloc, blank(alloc), asked)?.into_store().calls();
    let mut desk = opened(alloc, blank(alloc), asked)?;
    offer_all(rt, alloc, &mut desk, &OFFERS)?;
    Ok((first, closed(desk)?.into_store().calls()))
}

// The fault of the offers, of one more after a fault, and of closing the desk, where this call fails.
fn failed_at<R: Wait>(
    rt: &R,
    alloc: Global,
    asked: &Asked,
    call: u64,
) -> Result<(Option<Fault>, Option<Fault>, Option<Fault>), Fault> {
    let mut desk = opened(alloc, failing(alloc, call)?, asked)?;
    let first = offer_all(rt, alloc, &mut desk, &OFFERS).err();
    let again = match first {
        Some(_) => offer(rt, alloc, &mut desk, 1, b'z').err(),
        None => None,
    };
    Ok((first, again, closed(desk).err()))
}

#[test]
fn a_failure_is_answered_again(rt: HostRuntime) -> Result<(), Fail> {
    let alloc = rt.alloc();
    let asked = asked_of(2, 4, 1_000);
    let failed = Some(Fault::Failed);
    let (first, last) = calls(&rt, alloc, &asked)?;
    let mut among = 0u32;
    for call in first..last {
        let (offered, again, closed) = failed_at(&rt, alloc, &asked, call)?;
        assert_eq!(rt; (again, closed), (offered, failed), "at {call}");
        if offered == failed {
            among = among.saturating_add(1);
        }
    }
    assert!(rt; among > 20, "{among}");
    Ok(())
}
