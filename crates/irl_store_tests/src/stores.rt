//! Stores in memory, what is asked of them, and offers.

use irl_disk::{Failed, MemStore, Part, Store};
use irl_head::FILES;
use irl_offer::{Asked, Fault, Kind, MAX_TEXT, Offer, Op, Rule, Text};
use std::alloc::{AllocError, Global};

// A store of lines of which nothing else is asked.
pub(crate) const LINES: Asked = Asked {
    kind: Kind::Lines,
    rule: None,
    buckets: None,
    array: None,
    trigger: None,
    block: None,
    cap: None,
    queues: None,
    base: None,
    most: None,
    ranks: None,
};

// Tuples that keep the first value.
pub(crate) const TUPLES: Asked = Asked {
    kind: Kind::Tuples,
    rule: Some(Rule::Keep),
    ..LINES
};

// A crawl with one bucket and arrays of two offers.
pub(crate) const CRAWL_OF_ONE: Asked = Asked {
    kind: Kind::Crawl,
    buckets: Some(1),
    array: Some(2),
    trigger: Some(4),
    ..LINES
};

// A store whose files are empty.
pub(crate) fn blank(alloc: Global) -> MemStore {
    MemStore::new(alloc, Vec::new(alloc))
}

// One of which the call of this number fails.
pub(crate) fn failing(alloc: Global, call: u64) -> Result<MemStore, AllocError> {
    Ok(MemStore::new(alloc, vec![in alloc; call]?))
}

// What a stop in a call left: this part of each file.
pub(crate) fn left(
    alloc: Global,
    store: &MemStore,
    call: u64,
    part: Part,
) -> Result<MemStore, AllocError> {
    if call >= store.calls() {
        return Err(AllocError);
    }
    store.image(alloc, call, part)
}

// The same store once more, of which no call was made.
pub(crate) fn copied(alloc: Global, store: &MemStore) -> Result<MemStore, AllocError> {
    left(alloc, store, store.calls().saturating_sub(1), Part::New)
}

// Puts bytes at a place of a file.
pub(crate) fn put_at(store: &mut MemStore, f: u16, at: u64, bytes: &[u8]) -> Result<(), Failed> {
    if f >= FILES || at > store.length(f)? {
        return Err(Failed);
    }
    store.write(f, at, bytes)
}

// Cuts a file at a place.
pub(crate) fn cut_at(store: &mut MemStore, f: u16, at: u64) -> Result<(), Failed> {
    if f >= FILES || at > store.length(f)? {
        return Err(Failed);
    }
    store.cut(f, at)
}

// How long a file is, and its first byte.
pub(crate) fn front_of(store: &mut MemStore, f: u16) -> Result<(u64, u8), Failed> {
    if f >= FILES {
        return Err(Failed);
    }
    let mut first = [0xFF];
    let length = store.length(f)?;
    store.read(f, 0, &mut first)?;
    Ok((length, first[0]))
}

// An offer of value 0 that a page of the domain with this key has.
pub(crate) fn offer_of(
    alloc: Global,
    key: u64,
    from: u64,
    text: &[u8],
) -> Result<Offer, AllocError> {
    let text = &text[..text.len().min(MAX_TEXT)];
    Ok(Offer {
        op: Op::Both,
        key,
        value: 0,
        from,
        aux: Text::from_bytes(alloc, text)?,
    })
}

// One item more.
pub(crate) fn add<T: Drop>(items: &mut Vec<T>, item: T) -> Result<(), AllocError> {
    items.push(item)?;
    Ok(())
}
