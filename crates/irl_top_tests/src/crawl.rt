ghost use Rattle.std.specs.Prelude.{None, IfOk};
ghost use Rattle.irl_crawl.specs.Crawling.{IsPlan};
ghost use Rattle.irl_crawl.specs.Leading.{IsOpen};
ghost use Rattle.irl_record.specs.Fetched.{by_tape};

use crate::tapes::{TAPE_A, tape};
use irl_crawl::{Ended, Plan, crawl};
use irl_disk::MemStore;
use irl_fetch::NoGate;
use irl_key::Web;
use irl_offer::{Answer, Asked, Fault, Kind, Rule, Text, Want};
use irl_record::{Fetch, Tape, TapeFetch, site};
use irl_yard::Yard;
use std::alloc::{AllocError, Global};
use std::process::Abort;
use std::sync::Wait;
use std::test::Fail;
use std::thread::Threads;

/// A fetcher by a tape that keeps the host and the moment of each fetch.
#[derive(Drop)]
struct Watched<'a> {
    fetch: TapeFetch<'a>,
    starts: Vec<(Text, u64)>,
}

impl<'a> Watched<'a> {
    fn new(alloc: Global, tape: &'a Tape) -> Watched<'a> {
        Watched {
            fetch: TapeFetch::new(tape),
            starts: Vec::new(alloc),
        }
    }
}

impl Fetch for Watched<'_> {
    ghost asked = { λ _. None };

    ghost gives = { λ w _. by_tape w.fetch.tape };

    ghost faults = { λ w. w.fetch.faults };

    ghost last = { λ w. w.fetch.moment };

    ghost earlier = { λ _ _ _ _ _ _ _ given. given };

    ghost nothing_new = { λ _ _ _ _ _ given. given };

    fn fetch(&mut self, alloc: Global, web: &Web, want: Want) -> Result<Answer, AllocError> {
        let start = (Text::from_bytes(alloc, web.host())?, self.fetch.now());
        self.starts.push(start)?;
        self.fetch.fetch(alloc, web, want)
    }

    fn now(&mut self) -> u64 {
        self.fetch.now()
    }

    fn wait_till(&mut self, moment: u64) {
        self.fetch.wait_till(moment);
    }
}

// How many fetches of a host start less than a second before or behind this one, which is one of them.
fn close_to(fetchers: &[Watched<'_>], host: &Text, moment: u64) -> u64 {
    let mut count: u64 = 0;
    for fetcher in fetchers {
        for (other, second) in &fetcher.starts {
            if host.bytes() == other.bytes() && second.abs_diff(moment) < 1_000 {
                count = count.wrapping_add(1);
            }
        }
    }
    count
}

// How many fetches started, and how many of them have another one of their host less than a second apart.
fn starts(fetchers: &[Watched<'_>]) -> (u64, u64) {
    let mut all: u64 = 0;
    let mut close: u64 = 0;
    for fetcher in fetchers {
        for (host, moment) in &fetcher.starts {
            all = all.wrapping_add(1);
            if close_to(fetchers, host, *moment) > 1 {
                close = close.wrapping_add(1);
            }
        }
    }
    (all, close)
}

const ASKED: Asked = Asked {
    kind: Kind::Crawl,
    rule: Some(Rule::Keep),
    buckets: Some(1),
    array: Some(4),
    trigger: Some(8),
    block: None,
    cap: Some(1_000),
    queues: None,
    base: None,
    most: None,
    ranks: None,
};

// A new store in which a crawl has begun, with a tape's suffixes.
fn begun(alloc: Global, tape: &Tape) -> Result<Yard<MemStore>, Fault>
    ensures { IfOk result (λ yard. IsOpen yard.parts) }
{
    let Ok(mut yard) = Yard::enter(alloc, MemStore::new(alloc, Vec::new(alloc)), &ASKED) else {
        return Err(Fault::Memory);
    };
    if yard.has_begun() || yard.settings().kind != Kind::Crawl || !yard.is_sound() {
        return Err(Fault::Memory);
    }
    yard.begin(tape.suffixes())?;
    if !yard.has_begun() || !yard.is_sound() {
        return Err(Fault::Memory);
    }
    Ok(yard)
}

// What a tape with one seed asks of a crawl.
fn plan_of(alloc: Global, tape: &Tape) -> Result<Plan, AllocError>
    ensures { IfOk result IsPlan }
{
    let mut seeds = Vec::new(alloc);
    if let [seed] = tape.seeds() {
        seeds.push(seed.copy(alloc)?)?;
    }
    Ok(Plan {
        seeds,
        pages: 1_000,
        batch: 4_096,
        delay: 1_000,
        agent: Text::from_bytes(alloc, b"irlbot")?,
    })
}

// How a crawl ended; how many offers its store has, how many URLs, and how many are done, as pages, redirects, with other
// statuses and denied; how many fetches started, and how many of them too early.
type Came = (Ended, [u64; 7], (u64, u64));

fn came(ended: Ended, yard: &Yard<MemStore>, fetchers: &[Watched<'_>]) -> Came {
    let counts = yard.counts();
    let numbers = [
        counts.offers,
        counts.unique,
        counts.done,
        counts.page,
        counts.moved,
        counts.status,
        counts.denied,
    ];
    (ended, numbers, starts(fetchers))
}

// Crawls a tape with one worker, or with four.
fn crawled<R: Threads + Wait + Sync>(
    rt: &R,
    alloc: Global,
    yard: Yard<MemStore>,
    tape: &Tape,
    plan: &Plan,
    is_alone: bool,
) -> Came
    requires open { IsOpen yard.parts }
    requires plan { IsPlan plan.now }
{
    if is_alone {
        let mut fetchers = [Watched::new(alloc, tape)];
        let (ended, yard) = crawl(rt, alloc, yard, &mut fetchers, &mut [NoGate], plan);
        return came(ended, &yard, &fetchers);
    }
    let mut fetchers = [
        Watched::new(alloc, tape),
        Watched::new(alloc, tape),
        Watched::new(alloc, tape),
        Watched::new(alloc, tape),
    ];
    let mut gates = [NoGate, NoGate, NoGate, NoGate];
    let (ended, yard) = crawl(rt, alloc, yard, &mut fetchers, &mut gates, plan);
    came(ended, &yard, &fetchers)
}

fn run<R: Threads + Wait + Sync>(
    rt: &R,
    alloc: Global,
    tape: &Tape,
    is_alone: bool,
) -> Result<Came, Fail> {
    let plan = plan_of(alloc, tape)?;
    let yard = begun(alloc, tape)?;
    Ok(crawled(rt, alloc, yard, tape, &plan, is_alone))
}

// A crawl of a tape comes to this, by one worker and by four.
fn check_tape<R: Threads + Wait + Sync + Abort>(
    rt: &R,
    alloc: Global,
    tape: &Tape,
    numbers: [u64; 7],
    starts: (u64, u64),
) -> Result<(), Fail> {
    for is_alone in [true, false] {
        let came = run(rt, alloc, tape, is_alone)?;
        assert!(rt; came == (Ended::Done, numbers, starts), "{starts:?}");
    }
    Ok(())
}

// Tape A has three hosts, and the site of a hundred pages sixteen: a robots file of each is fetched too.
#[test]
fn tapes_are_crawled_by_one_worker_and_by_four(rt: HostRuntime) -> Result<(), Fail> {
    let tape_a = tape(rt.alloc(), TAPE_A)?;
    check_tape(&rt, rt.alloc(), &tape_a, [10, 6, 6, 3, 1, 1, 1], (8, 0))?;
    let site = site(rt.alloc(), 100)?;
    let numbers = [200, 100, 100, 100, 0, 0, 0];
    check_tape(&rt, rt.alloc(), &site, numbers, (116, 0))
}
