//! A crawl of a made-up site, whose store stands in a folder.

ghost use Rattle.std.specs.Prelude.{◌≡◌, IfOk};

use crate::crawl::Crawl;
use crate::score::{Beside, Score, all_if};
use crate::site::Site;
use crate::words::{Stage, number};
use irl_disk::Store;
use irl_files::{FileStore, Lockable};
use irl_offer::{Asked, Fault, Kind};
use irl_schedule::arrays_of;
use irl_yard::Yard;
use std::alloc::{AllocError, Global};
use std::rt::Files;

/// In which folder the store is made, how many domains the site has, and their budgets.
#[derive(Clone, Copy)]
pub struct Manner<'a> {
    folder: &'a str,
    domains: u32,
    base: u32,
    most: u32,
}

impl<'a> Manner<'a> {
    /// What these words name: the folder, how many domains there are, and the least budget and the greatest.
    pub fn from_words(words: &[&'a str]) -> Option<Manner<'a>> {
        match words {
            [] => Some(Manner {
                folder: "yard",
                domains: 1_000,
                base: 10,
                most: 10_000,
            }),
            [folder, domains, base, most] => Some(Manner {
                folder,
                domains: number(domains)?,
                base: number(base)?,
                most: number(most)?,
            }),
            _ => None,
        }
    }
}

/// Crawls a site of so many pages: how many of them are done, and with how many pairs and passes. There is nothing to load.
pub fn run<R: Files + AllocGlobal>(
    rt: &R,
    pages: u32,
    stage: Stage,
    manner: Manner<'_>,
) -> Result<Score, AllocError>
where
    R::File: Lockable,
    ensures calls { IfOk result (λ score. score.calls ≡ pages) }
{
    let calls = u64::from(pages);
    let store = FileStore::new(rt, rt.alloc(), manner.folder)?;
    match crawled(rt.alloc(), store, pages, stage, manner) {
        Ok((right, beside)) => Ok(Score {
            right,
            calls,
            beside: Some(beside),
        }),
        Err(Fault::Memory) => Err(AllocError),
        Err(_) => Ok(Score {
            right: 0,
            calls,
            beside: None,
        }),
    }
}

// How many pages are done.
fn crawled<S: Store + Drop>(
    alloc: Global,
    store: S,
    pages: u32,
    stage: Stage,
    manner: Manner<'_>,
) -> Result<(u64, Beside), Fault> {
    let mut crawl = made(alloc, store, pages, manner)?;
    crawl.begin(alloc)?;
    let Stage::Done = stage else {
        let right = all_if(crawl.yard.has_begun(), u64::from(pages));
        return Ok((
            right,
            Beside::Crawl {
                pairs: 0,
                passes: 0,
            },
        ));
    };
    crawl.seed(alloc)?;
    let passes = rounds(alloc, &mut crawl)?;
    let counts = crawl.yard.counts();
    Ok((
        counts.page,
        Beside::Crawl {
            pairs: counts.pairs,
            passes,
        },
    ))
}

// A new store.
fn made<S: Store + Drop>(
    alloc: Global,
    store: S,
    pages: u32,
    manner: Manner<'_>,
) -> Result<Crawl<S>, Fault> {
    let asked = Asked {
        kind: Kind::Crawl,
        rule: None,
        buckets: None,
        array: None,
        trigger: None,
        block: None,
        cap: None,
        queues: None,
        base: Some(manner.base),
        most: Some(manner.most),
        ranks: None,
    };
    let Ok(yard) = Yard::enter(alloc, store, &asked) else {
        return Err(Fault::Failed);
    };
    let arrays = arrays_of(alloc, &yard.settings())?;
    let site = Site {
        pages,
        domains: manner.domains,
    };
    Ok(Crawl { yard, arrays, site })
}

// Turns, and a pass where the front is empty, until nothing waits. Gives how many passes there were.
fn rounds<S: Store>(alloc: Global, crawl: &mut Crawl<S>) -> Result<u64, Fault> {
    let mut passes = 0u64;
    for _ in 0..u32::MAX {
        if crawl.yard.front_len() > 0 {
            crawl.turn(alloc)?;
        } else {
            let counts = crawl.yard.counts();
            if counts.done == counts.unique {
                break;
            }
            crawl.pass()?;
            passes = passes.saturating_add(1);
        }
    }
    Ok(passes)
}
