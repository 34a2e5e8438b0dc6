ghost use Rattle.std.specs.Prelude.{◌≡◌, ◌≤◌, None, Some, length, map, IfOk, Ok};
ghost use Rattle.std.proofs.Common.{arith};
ghost use Rattle.irl_base.specs.Faults.{HasCause};
ghost use Rattle.irl_answer.specs.Found.{IsTaken};
ghost use Rattle.irl_offer.specs.Offering.{Entered};
ghost use Rattle.irl_record.specs.Fetched.{by_tape};
ghost use Rattle.irl_record.specs.Widening.{WidensSince};

use crate::helpers::{item, items, suffixes};
use crate::tapes::{TAPE_A, tape};
use irl_fetch::{Gate, NoGate, WorkLog, work};
use irl_key::{Web, Work};
use irl_offer::{Answer, Done, Fault, Note, NoteState, Offer, Offers, Receipt, Text, Want};
use irl_polite::Front;
use irl_record::{Fetch, Tape, TapeFetch};
use std::alloc::{AllocError, Global};
use std::sync::Wait;
use std::test::Fail;

// Takes what a crawl may offer, up to so many, and tells all. Past them it is full, or lacks memory.
#[derive(Drop)]
struct Shelf {
    room: usize,
    is_full: bool,
    taken: Vec<(Receipt, Offer)>,
    last: Option<Fault>,
}

impl Offers for Shelf {
    ghost entries = { λ shelf. Some (map (λ pair. record { receipt = pair.0; offer = pair.1 }) shelf.taken.items) };

    ghost last_fault = { λ shelf. shelf.last };

    ghost takes = { λ _ offer. IsTaken offer };

    // What it took it keeps.
    ghost follows = { λ old new. length old.taken.items ≤ length new.taken.items };

    fn offer<R: Wait>(&mut self, _rt: &R, offer: Offer) -> Result<Receipt, (Fault, Offer)> {
        let number = self.taken.len();
        if number == self.room && self.is_full {
            self.last = Some(Fault::Full(3));
            return Err((Fault::Full(3), offer));
        }
        if number == self.room || self.taken.try_reserve(1).is_err() {
            return Err((Fault::Memory, offer));
        }
        let receipt = Receipt {
            bucket: 0,
            number: number as u64,
        };
        self.taken.push_reserved((receipt, offer));
        Ok(receipt)
    }

    ghost follows_none = { λ _. Prim.omega arith };

    ghost follows_both = { λ _ _ _ one two. Prim.omega (arith, one, two) };
}

// A shelf with room for more than a test offers.
fn wide_shelf(alloc: Global) -> Shelf
    ensures { result.last ≡ None }
{
    Shelf {
        room: usize::MAX,
        is_full: true,
        taken: Vec::new(alloc),
        last: None,
    }
}

// Works on these items by a front with a delay of a second.
fn work_on<R: Wait, F: Fetch, G: Gate>(
    rt: &R,
    alloc: Global,
    fetch: &mut F,
    shelf: &mut Shelf,
    gate: &mut G,
    items: Vec<Work>,
) -> Result<Result<WorkLog, Fault>, Fail>
    requires { shelf.old.last ≡ None }
{
    let suffixes = suffixes(alloc, "test")?;
    let mut front = Front::new(alloc, 1_000, Text::from_bytes(alloc, b"irlbot")?);
    front.load(items, Vec::new(alloc))?;
    Ok(work(rt, alloc, fetch, shelf, &mut front, &suffixes, gate))
}

// What came of each page: its number, outcome and receipts.
fn show_done(alloc: Global, text: &mut String, done: &[Done]) -> Result<(), Fail> {
    for one in done {
        let head = format!(in alloc; "{} {:?}", one.number, one.outcome)?;
        text.push_str(&head)?;
        for receipt in one.receipts.items() {
            let number = format!(in alloc; " {}", receipt.number)?;
            text.push_str(&number)?;
        }
        text.push_str("\n")?;
    }
    Ok(())
}

// What was noted of each host, at which moment.
fn show_notes(alloc: Global, text: &mut String, notes: &[Note]) -> Result<(), Fail> {
    for note in notes {
        let host = String::from_utf8_lossy(alloc, note.host.bytes())?;
        let head = format!(in alloc; "{host} {}", note.when)?;
        text.push_str(&head)?;
        match &note.state {
            NoteState::Rules(rules) => {
                let rules = format!(in alloc; " rules {}", rules.bytes().len())?;
                text.push_str(&rules)?;
            }
            NoteState::Free => text.push_str(" free")?,
            NoteState::Shut => text.push_str(" shut")?,
        }
        text.push_str("\n")?;
    }
    Ok(())
}

// What was offered.
fn show_offers(alloc: Global, text: &mut String, taken: &[(Receipt, Offer)]) -> Result<(), Fail> {
    for (_, offer) in taken {
        let aux = String::from_utf8_lossy(alloc, offer.aux.bytes())?;
        text.push_str(&aux)?;
        text.push_str("\n")?;
    }
    Ok(())
}

// What comes of these URLs by a tape: of each page, what is noted, and what is offered.
fn told<R: Wait>(rt: &R, alloc: Global, tape: &Tape, urls: &[&[u8]]) -> Result<String, Fail> {
    let mut fetch = TapeFetch::new(tape);
    let mut shelf = wide_shelf(alloc);
    let items = items(alloc, urls)?;
    let Ok(log) = work_on(rt, alloc, &mut fetch, &mut shelf, &mut NoGate, items)? else {
        return Err(Fail::new("a fault"));
    };
    let mut text = String::new(alloc);
    show_done(alloc, &mut text, &log.done)?;
    show_notes(alloc, &mut text, &log.notes)?;
    show_offers(alloc, &mut text, &shelf.taken)?;
    Ok(text)
}

// URLs that are worked on together, and what comes of them by the tape above: first those of a crawl, turn by turn.
const TURNS: [(&[&[u8]], &str); 4] = [
    (
        &[b"http://www.a.test/"],
        "0 Page 0 1 2 3
www.a.test 0 rules 33
http://www.a.test/one
http://www.a.test/private/x
http://b.test/
http://www.a.test/one
",
    ),
    (
        &[
            b"http://www.a.test/one",
            b"http://www.a.test/private/x",
            b"http://b.test/",
        ],
        "0 Moved 0
2 Page 1 2 3
1 Denied(2)
www.a.test 0 rules 33
b.test 0 free
http://c.test/new
http://www.a.test/
http://c.test/new
http://b.test/gone
",
    ),
    (
        &[b"http://c.test/new", b"http://b.test/gone"],
        "0 Page 0
1 Status(404)
c.test 0 free
b.test 0 free
http://b.test/
",
    ),
    (
        &[
            b"http://c.test/old",
            b"http://c.test/lost",
            b"http://c.test/none",
        ],
        "0 Page
1 Lost
2 Page
c.test 0 free
",
    ),
];

#[test]
fn a_crawl_is_worked_turn_by_turn(rt: HostRuntime) -> Result<(), Fail> {
    let alloc = rt.alloc();
    let tape = tape(alloc, TAPE_A)?;
    for (urls, expected) in TURNS {
        let told = told(&rt, alloc, &tape, urls)?;
        assert_eq!(rt; told.as_str(), expected);
    }
    Ok(())
}

// Robots files that are behind redirects, and some that can't be had.
const ROBOTS: &[u8] = b"page 301 other http://five.test/robots.txt
to /1
end
page 302 other http://five.test/1
to /2
end
page 303 other http://five.test/2
to /3
end
page 307 other http://five.test/3
to /4
end
page 308 other http://five.test/4
to /5
end
page 200 other http://five.test/5
|User-agent: irlbot
|Disallow: /p
end
page 301 other http://six.test/robots.txt
to http://five.test/robots.txt
end
page 301 other http://elsewhere.test/robots.txt
to http://five.test/5
end
page 301 other http://ring.test/robots.txt
to http://ring.test/robots.txt
end
page 301 other http://nowhere.test/robots.txt
to ftp://five.test/5
end
page 503 other http://down.test/robots.txt
end
lost http://lost.test/robots.txt
page 200 html http://down.test/p
|<a href=\"/x\">x</a>
end
";

// A URL, what comes of it, and what is noted of its host.
const CHAINS: [(&[u8], &str); 8] = [
    (b"http://five.test/p", "0 Denied(2)\nfive.test 0 rules 32\n"),
    (
        b"http://five.test/q",
        "0 Status(404)\nfive.test 0 rules 32\n",
    ),
    (b"http://six.test/p", "0 Status(404)\nsix.test 0 free\n"),
    (
        b"http://elsewhere.test/p",
        "0 Denied(2)\nelsewhere.test 0 rules 32\n",
    ),
    (b"http://ring.test/p", "0 Status(404)\nring.test 0 free\n"),
    (
        b"http://nowhere.test/p",
        "0 Status(404)\nnowhere.test 0 free\n",
    ),
    (b"http://down.test/p", "0 Shut\ndown.test 0 shut\n"),
    (b"http://lost.test/p", "0 Shut\nlost.test 0 shut\n"),
];

#[test]
fn a_robots_file_is_asked_for_first(rt: HostRuntime) -> Result<(), Fail> {
    let alloc = rt.alloc();
    let tape = tape(alloc, ROBOTS)?;
    for (url, expected) in CHAINS {
        let told = told(&rt, alloc, &tape, &[url])?;
        assert_eq!(rt; told.as_str(), expected);
    }
    Ok(())
}

// How many offers there is room for, whether it is full then, and the fault.
const ROOMS: [(usize, bool, Option<Fault>); 6] = [
    (0, true, Some(Fault::Full(3))),
    (0, false, Some(Fault::Memory)),
    (3, true, Some(Fault::Full(3))),
    (3, false, Some(Fault::Memory)),
    (4, true, None),
    (4, false, None),
];

#[test]
fn offers_may_be_refused(rt: HostRuntime) -> Result<(), Fail> {
    let alloc = rt.alloc();
    let tape = tape(alloc, TAPE_A)?;
    for (room, is_full, expected) in ROOMS {
        let mut fetch = TapeFetch::new(&tape);
        let mut shelf = Shelf {
            room,
            is_full,
            taken: Vec::new(alloc),
            last: None,
        };
        let items = items(alloc, &[b"http://www.a.test/"])?;
        let worked = work_on(&rt, alloc, &mut fetch, &mut shelf, &mut NoGate, items)?;
        assert_eq!(rt; worked.err(), expected, "with room for {room}");
        assert_eq!(rt; shelf.taken.len(), room);
    }
    Ok(())
}

// A page with 10,100 links, of which each of the first 50 is followed by one that is no link to a page.
fn many_links(alloc: Global) -> Result<Vec<u8>, Fail> {
    let mut text = b"page 200 html http://a.test/\n".to_vec(alloc)?;
    for number in 0..10_050 {
        let line = format!(in alloc; "|<a href=/{number}>\n")?;
        text.extend_from_slice(line.as_bytes())?;
        if number < 50 {
            text.extend_from_slice(b"|<a href=https://a.test/>\n")?;
        }
    }
    text.extend_from_slice(b"end\n")?;
    Ok(text)
}

#[test]
fn the_first_links_are_offered(rt: HostRuntime) -> Result<(), Fail> {
    let alloc = rt.alloc();
    let tape = tape(alloc, &many_links(alloc)?)?;
    let mut fetch = TapeFetch::new(&tape);
    let mut shelf = wide_shelf(alloc);
    let items = items(alloc, &[b"http://a.test/"])?;
    let worked = work_on(&rt, alloc, &mut fetch, &mut shelf, &mut NoGate, items)?;
    assert!(rt; worked.is_ok());
    assert_eq!(rt; shelf.taken.len(), 10_000);
    let last = shelf.taken.last().map(|(_, offer)| offer.aux.bytes());
    assert_eq!(rt; last, Some(b"http://a.test/9999".as_slice()));
    Ok(())
}

// A fetcher by a tape that keeps the host and the moment of each fetch.
#[derive(Drop)]
struct Watched<'a> {
    fetch: TapeFetch<'a>,
    starts: Vec<(Text, u64)>,
}

impl Fetch for Watched<'_> {
    ghost asked = { λ _. None };

    ghost gives = { λ w _. by_tape w.fetch.tape };

    ghost faults = { λ w. w.fetch.faults };

    ghost last = { λ w. w.fetch.moment };

    ghost earlier = { λ _ _ _ _ _ _ _ given. given };

    ghost nothing_new = { λ _ _ _ _ _ given. given };

    fn fetch(&mut self, alloc: Global, web: &Web, want: Want) -> Result<Answer, AllocError> {
        let start = (Text::from_bytes(alloc, web.host())?, self.fetch.now());
        self.starts.push(start)?;
        self.fetch.fetch(alloc, web, want)
    }

    fn now(&mut self) -> u64 {
        self.fetch.now()
    }

    fn wait_till(&mut self, moment: u64) {
        self.fetch.wait_till(moment);
    }
}

// Counts the pages that were fetched, each between its two calls.
#[derive(Drop)]
struct Counting {
    inside: Option<u64>,
    count: u64,
}

impl Gate for Counting {
    fn before(&mut self, number: u64) {
        self.inside = Some(number);
    }

    fn after(&mut self, number: u64) {
        if self.inside.take() == Some(number) {
            self.count = self.count.wrapping_add(1);
        }
    }
}

// How many pairs of fetches of one host start less than a second apart. Each is one with itself.
fn close_pairs(starts: &[(Text, u64)]) -> u64 {
    let mut count: u64 = 0;
    for (host, moment) in starts {
        for (other, second) in starts {
            if host.bytes() == other.bytes() && second.abs_diff(*moment) < 1_000 {
                count = count.wrapping_add(1);
            }
        }
    }
    count
}

// So many pages, on 40 hosts by turns.
fn pages_of_hosts(alloc: Global, count: u64) -> Result<Vec<Work>, AllocError> {
    let mut items = Vec::new(alloc);
    for number in 0..count {
        let url = format!(in alloc; "http://h{}.test/{number}", number % 40)?;
        items.push(item(alloc, number, url.as_bytes())?)?;
    }
    Ok(items)
}

// Works on 300 pages: how many are done, and how many hosts noted; how many pages were fetched between two calls of the gate, how
// many fetches started, and how many pairs of them too early.
fn starts_of<R: Wait>(
    rt: &R,
    alloc: Global,
    tape: &Tape,
) -> Result<(usize, usize, u64, usize, u64), Fail> {
    let items = pages_of_hosts(alloc, 300)?;
    let mut fetch = Watched {
        fetch: TapeFetch::new(tape),
        starts: Vec::new(alloc),
    };
    let mut gate = Counting {
        inside: None,
        count: 0,
    };
    let mut shelf = wide_shelf(alloc);
    let worked = work_on(rt, alloc, &mut fetch, &mut shelf, &mut gate, items)?;
    let (done, notes) = worked.map_or((0, 0), |log| (log.done.len(), log.notes.len()));
    let close = close_pairs(&fetch.starts);
    Ok((done, notes, gate.count, fetch.starts.len(), close))
}

// With a robots file for each host. Each fetch makes a pair with itself.
#[test]
fn fetches_of_a_host_are_a_delay_apart(rt: HostRuntime) -> Result<(), Fail> {
    let tape = tape(rt.alloc(), b"suffix test\n")?;
    let counts = starts_of(&rt, rt.alloc(), &tape)?;
    assert_eq!(rt; counts, (300, 40, 300, 340, 340));
    Ok(())
}
