use crate::helpers::{item, items};
use irl_io::{Clock, JumpClock};
use irl_key::Work;
use irl_offer::{Note, NoteState, Text};
use irl_polite::{Front, HostState, Job};
use std::alloc::Global;
use std::test::Fail;

fn note(alloc: Global, host: &[u8], when: u64, state: NoteState) -> Result<Note, Fail> {
    let host = Text::from_bytes(alloc, host)?;
    Ok(Note { host, when, state })
}

// What an answer comes to.
#[derive(Clone, Copy, Debug, PartialEq, Eq)]
enum Told {
    Page(u64),
    Denied(u64, u32),
    ShutOut(u64),
    Robots,
    WaitTill(u64),
    Idle,
}

fn summary(job: &Job) -> Told {
    match job {
        Job::Page(work) => Told::Page(work.number),
        Job::Denied(work, line) => Told::Denied(work.number, *line),
        Job::ShutOut(work) => Told::ShutOut(work.number),
        Job::Robots(_) => Told::Robots,
        Job::WaitTill(till) => Told::WaitTill(*till),
        Job::Idle => Told::Idle,
    }
}

// What there is to do at a moment. A robots file that is asked for is handed in at once, and lets all pages be fetched.
fn take_at(front: &mut Front, now: u64) -> Told {
    match front.take(now) {
        Job::Robots(host) => {
            front.robots_done(host, HostState::Free, now);
            Told::Robots
        }
        job => summary(&job),
    }
}

// Hands in that this host has no rules. Its robots file is asked for at the moment 0, once.
fn hear(front: &mut Front, name: &[u8]) -> Result<(), Fail> {
    let Job::Robots(host) = front.take(0) else {
        return Err(Fail::new("no robots file is asked for"));
    };
    let Job::Idle = front.take(0) else {
        return Err(Fail::new("there is more to do while it is awaited"));
    };
    if host.bytes() != name {
        return Err(Fail::new("another host is asked for"));
    }
    front.robots_done(host, HostState::Free, 0);
    Ok(())
}

// Loads where no item may be left.
fn load(front: &mut Front, items: Vec<Work>, notes: Vec<Note>) -> Result<(), Fail> {
    if front.left() != 0 {
        return Err(Fail::new("items are left"));
    }
    front.load(items, notes)?;
    Ok(())
}

// A front with a delay of a second.
fn front(alloc: Global) -> Result<Front, Fail> {
    Ok(Front::new(alloc, 1_000, Text::from_bytes(alloc, b"foobot")?))
}

#[test]
fn pages_of_one_host_are_a_delay_apart(rt: HostRuntime) -> Result<(), Fail> {
    let alloc = rt.alloc();
    let mut front = front(alloc)?;
    assert_eq!(rt; front.agent(), b"foobot".as_slice());
    let all = items(alloc, &[b"http://a.test/x", b"http://a.test/y"])?;
    load(&mut front, all, Vec::new(alloc))?;
    hear(&mut front, b"a.test")?;
    assert_eq!(rt; front.left(), 2);
    for (now, answer) in [
        (0, Told::WaitTill(1_000)),
        (1_000, Told::Page(0)),
        (1_500, Told::WaitTill(2_000)),
        (2_000, Told::Page(1)),
        (2_000, Told::Idle),
    ] {
        assert_eq!(rt; take_at(&mut front, now), answer, "at {now}");
    }
    assert_eq!(rt; front.left(), 0);
    Ok(())
}

const RULES: &[u8] =
    b"User-Agent: foobot\nAllow: /example/page/\nDisallow: /example/page/disallowed.gif\n";

// A host's state, the URL of its page, and the answer.
const ANSWERS: [(usize, &[u8], Told); 5] = [
    (
        0,
        b"http://a.test/example/page/disallowed.gif",
        Told::Denied(0, 3),
    ),
    (0, b"http://a.test/example/page/x", Told::Page(0)),
    (0, b"http://a.test/y", Told::Page(0)),
    (1, b"http://a.test/y", Told::Page(0)),
    (2, b"http://a.test/y", Told::ShutOut(0)),
];

// The notes on a host, of which the last one counts.
fn notes(alloc: Global, kind: usize) -> Result<Vec<Note>, Fail> {
    let state = match kind {
        0 => NoteState::Rules(Text::from_bytes(alloc, RULES)?),
        1 => NoteState::Free,
        _ => NoteState::Shut,
    };
    let mut notes = Vec::new(alloc);
    notes.push(note(alloc, b"a.test", 0, NoteState::Shut)?)?;
    notes.push(note(alloc, b"a.test", 5, state)?)?;
    Ok(notes)
}

// The answers to a page in the last millisecond of a note's day, and when the host is due again, after that day.
fn told_of(alloc: Global, kind: usize, url: &[u8]) -> Result<(Told, Told), Fail> {
    let mut front = front(alloc)?;
    // A note of a host without items stays.
    load(&mut front, Vec::new(alloc), notes(alloc, kind)?)?;
    load(&mut front, items(alloc, &[url])?, Vec::new(alloc))?;
    let within = take_at(&mut front, 86_400_004);
    load(&mut front, items(alloc, &[url])?, Vec::new(alloc))?;
    Ok((within, take_at(&mut front, 86_401_005)))
}

#[test]
fn notes_answer_for_a_day(rt: HostRuntime) -> Result<(), Fail> {
    for (kind, url, answer) in ANSWERS {
        assert_eq!(rt; told_of(rt.alloc(), kind, url)?, (answer, Told::Robots));
    }
    Ok(())
}

const HOSTS: u64 = 10_000;

// Two items of each host.
fn two_of_each(alloc: Global) -> Result<Vec<Work>, Fail> {
    let mut all = Vec::new(alloc);
    for number in 0..2 * HOSTS {
        let url = format!(in alloc; "http://h{}.test/{number}", number % HOSTS)?;
        all.push(item(alloc, number, url.as_bytes())?)?;
    }
    Ok(all)
}

// Does what there is to do by a clock that jumps, until nothing is left. Gives the hosts of the pages with their moments.
fn starts(alloc: Global, front: &mut Front) -> Result<Vec<(u64, u64)>, Fail> {
    let mut clock = JumpClock::new();
    let mut starts = Vec::new(alloc);
    for _ in 0..4 * HOSTS {
        let now = clock.now();
        match take_at(front, now) {
            Told::Page(number) => starts.push((number % HOSTS, now))?,
            Told::Robots => {}
            Told::WaitTill(till) => clock.wait_till(till),
            Told::Idle => break,
            _ => return Err(Fail::new("a page is refused")),
        }
    }
    Ok(starts)
}

#[test]
fn many_hosts_have_their_turns(rt: HostRuntime) -> Result<(), Fail> {
    let alloc = rt.alloc();
    let mut front = front(alloc)?;
    load(&mut front, two_of_each(alloc)?, Vec::new(alloc))?;
    let starts = starts(alloc, &mut front)?;
    // A page of each host a second after its robots file, and the other a second later.
    assert_eq!(rt; front.left(), 0);
    assert_eq!(rt; starts.len(), 2 * HOSTS as usize);
    for (i, (host, moment)) in starts.iter().enumerate() {
        let i = i as u64;
        assert_eq!(rt; *host, i % HOSTS);
        assert_eq!(rt; *moment, if i < HOSTS { 1_000 } else { 2_000 });
    }
    Ok(())
}
