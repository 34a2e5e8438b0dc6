ghost use Rattle.std.specs.Prelude.{◌≤◌, None, ⊤, IfOk};
ghost use Rattle.std.proofs.Common.{arith};
ghost use Rattle.irl_workers.specs.Workers.{IsReady};

use irl_fetch::{Gate, NoGate};
use irl_io::MemSource;
use irl_key::{Canon, Work, canonical};
use irl_offer::{Fault, Offer, Offers, Receipt, Text};
use irl_pld::{SuffixFault, Suffixes};
use irl_polite::Front;
use irl_record::{Tape, TapeFetch};
use irl_workers::{Worker, work_side_by_side};
use std::alloc::{AllocError, Global};
use std::sync::Wait;
use std::sync::atomic::AtomicBool;
use std::sync::atomic::Ordering::SeqCst;
use std::test::Fail;
use std::thread::Threads;

// ---- what the workers have
// Gives receipts by a count.
#[derive(Drop)]
struct Counter {
    count: u64,
}

impl Offers for Counter {
    ghost entries = { λ _. None };

    ghost last_fault = { λ _. None };

    ghost takes = { λ _ _. ⊤ };

    ghost follows = { λ old new. old.count ≤ new.count };

    fn offer<R: Wait>(&mut self, _rt: &R, _offer: Offer) -> Result<Receipt, (Fault, Offer)> {
        let receipt = Receipt {
            bucket: 0,
            number: self.count,
        };
        self.count = self.count.saturating_add(1);
        Ok(receipt)
    }

    ghost follows_none = { λ _. Prim.omega arith };

    ghost follows_both = { λ _ _ _ one two. Prim.omega (arith, one, two) };
}

// A worker that has these items to fetch.
fn worker(alloc: Global, items: &[(u64, &str)]) -> Result<Worker<Counter>, AllocError>
    ensures { IfOk result (IsReady ⟦<Counter as Offers>⟧.last_fault ⟦<Counter as Offers>⟧.takes) }
{
    let mut front = Front::new(alloc, 1_000, Text::from_bytes(alloc, b"irlbot")?);
    let mut pages = Vec::new(alloc);
    for (number, url) in items {
        pages.push(item(alloc, *number, url.as_bytes())?)?;
    }
    front.load(pages, Vec::new(alloc))?;
    Ok(Worker {
        offers: Counter { count: 0 },
        front,
        done: None,
    })
}

// The item with this number at this URL.
fn item(alloc: Global, number: u64, url: &[u8]) -> Result<Work, AllocError> {
    match canonical(alloc, None, url)? {
        Canon::Web(web) => Ok(Work { number, web }),
        Canon::NotHttp | Canon::Bad | Canon::TooLong => Err(AllocError),
    }
}

// Suffixes that are taken.
fn suffixes(alloc: Global) -> Result<Suffixes, AllocError> {
    match Suffixes::read(alloc, b"test") {
        Ok(suffixes) => Ok(suffixes),
        Err(SuffixFault::BadLine(_) | SuffixFault::Memory) => Err(AllocError),
    }
}

// The tape of a text that is taken.
fn tape(alloc: Global, text: &[u8]) -> Result<Tape, AllocError> {
    let mut source = MemSource::new(text.to_vec(alloc)?, Vec::new(alloc));
    match Tape::read(alloc, &mut source, true) {
        Ok(tape) => Ok(tape),
        Err(_) => Err(AllocError),
    }
}

// ---- side by side
const SEEDS: &[u8] = b"suffix test
seed http://a.test/
seed http://b.test/
";

// How often a gate looks whether the other page was fetched.
const LOOKS: u64 = 2_000_000_000;

// The page with one number is fetched only behind the other one, but where it has waited too long.
#[derive(Drop)]
struct Holding<'a> {
    waits: u64,
    fetched: &'a AtomicBool,
    gave_up: bool,
}

impl<'a> Gate for Holding<'a> {
    fn before(&mut self, number: u64) {
        if number != self.waits {
            return;
        }
        for _ in 0..LOOKS {
            if self.fetched.load(SeqCst) {
                return;
            }
        }
        self.gave_up = true;
    }

    fn after(&mut self, number: u64) {
        if number != self.waits {
            self.fetched.store(true, SeqCst);
        }
    }
}

// Whether the page with this number, of one worker, was fetched once that of another worker was.
fn waits_for_other<R: Threads + Wait + Sync>(
    rt: &R,
    alloc: Global,
    tape: &Tape,
    waits: u64,
) -> Result<bool, AllocError> {
    let suffixes = suffixes(alloc)?;
    let fetched = AtomicBool::new(false);
    let mut fetchers = [TapeFetch::new(tape), TapeFetch::new(tape)];
    let mut gates = [
        Holding {
            waits,
            fetched: &fetched,
            gave_up: false,
        },
        Holding {
            waits,
            fetched: &fetched,
            gave_up: false,
        },
    ];
    let mut workers = [
        worker(alloc, &[(0, "http://a.test/")])?,
        worker(alloc, &[(1, "http://b.test/")])?,
    ];
    work_side_by_side(
        rt,
        alloc,
        &suffixes,
        &mut fetchers,
        &mut gates,
        &mut workers,
    );
    Ok(fetched.load(SeqCst) && !gates[0].gave_up && !gates[1].gave_up)
}

#[test]
fn one_page_may_wait_for_that_of_another_worker(rt: HostRuntime) -> Result<(), Fail> {
    let alloc = rt.alloc();
    let tape = tape(alloc, SEEDS)?;
    for waits in 0..2 {
        assert!(rt;
            waits_for_other(&rt, alloc, &tape, waits)?,
            "number {waits}"
        );
    }
    Ok(())
}

// ---- what comes of each page
const PAGES: &[u8] = b"suffix test
page 200 html http://a.test/
|<a href=\"/one\">1</a>
|<a href=\"http://b.test/\">2</a>
end
page 200 other http://b.test/robots.txt
|User-agent: *
|Disallow: /p
end
lost http://c.test/x
";

// What came of each page of a worker, in the order in which they were done: its number, outcome and receipts.
fn push_worker(alloc: Global, text: &mut String, worker: &Worker<Counter>) -> Result<(), Fail> {
    let Some(Ok(log)) = &worker.done else {
        return Err(Fail::new("nothing came of a turn"));
    };
    for one in &log.done {
        let head = format!(in alloc; "{} {:?}", one.number, one.outcome)?;
        text.push_str(&head)?;
        for receipt in one.receipts.items() {
            let number = format!(in alloc; " {}", receipt.number)?;
            text.push_str(&number)?;
        }
        text.push_str("\n")?;
    }
    Ok(())
}

// The same of all of them, with a line behind each.
fn told(alloc: Global, workers: &[Worker<Counter>]) -> Result<String, Fail> {
    let mut text = String::new(alloc);
    for worker in workers {
        push_worker(alloc, &mut text, worker)?;
        text.push_str("--\n")?;
    }
    Ok(text)
}

// What comes of the pages where one worker has them all.
fn told_of_one<R: Threads + Wait + Sync>(
    rt: &R,
    alloc: Global,
    tape: &Tape,
) -> Result<String, Fail> {
    let suffixes = suffixes(alloc)?;
    let mut fetchers = [TapeFetch::new(tape)];
    let mut gates = [NoGate];
    let mut workers = [worker(
        alloc,
        &[
            (0, "http://a.test/"),
            (1, "http://b.test/"),
            (2, "http://b.test/p"),
            (3, "http://c.test/x"),
        ],
    )?];
    work_side_by_side(
        rt,
        alloc,
        &suffixes,
        &mut fetchers,
        &mut gates,
        &mut workers,
    );
    told(alloc, &workers)
}

// What comes of them where two of three have some each, and the third has none.
fn told_of_three<R: Threads + Wait + Sync>(
    rt: &R,
    alloc: Global,
    tape: &Tape,
) -> Result<String, Fail> {
    let suffixes = suffixes(alloc)?;
    let mut fetchers = [
        TapeFetch::new(tape),
        TapeFetch::new(tape),
        TapeFetch::new(tape),
    ];
    let mut gates = [NoGate, NoGate, NoGate];
    let mut workers = [
        worker(alloc, &[(3, "http://c.test/x"), (0, "http://a.test/")])?,
        worker(alloc, &[(1, "http://b.test/"), (2, "http://b.test/p")])?,
        worker(alloc, &[])?,
    ];
    work_side_by_side(
        rt,
        alloc,
        &suffixes,
        &mut fetchers,
        &mut gates,
        &mut workers,
    );
    told(alloc, &workers)
}

#[test]
fn each_worker_does_its_own(rt: HostRuntime) -> Result<(), Fail> {
    let alloc = rt.alloc();
    let tape = tape(alloc, PAGES)?;
    let one = told_of_one(&rt, alloc, &tape)?;
    assert_eq!(rt;
        one.as_str(),
        "0 Page 0 1\n1 Status(404)\n3 Lost\n2 Denied(2)\n--\n"
    );
    let three = told_of_three(&rt, alloc, &tape)?;
    assert_eq!(rt;
        three.as_str(),
        "3 Lost\n0 Page 0 1\n--\n1 Status(404)\n2 Denied(2)\n--\n--\n"
    );
    Ok(())
}
