//! The commands that crawl: they lead a store on by what answers their fetches, and print its report.

ghost use Rattle.std.specs.Prelude.{◌≡◌, ◌≢◌, ◌≤◌, ◌⊎◌, [], false, true, None, length, IfErr, IfOk, IsErrOf, OnOk};
ghost use Rattle.std.specs.List.{All};
ghost use Rattle.irl_log.specs.Form.{max_suffixes};
ghost use Rattle.irl_pld.specs.Names.{bad_line};
ghost use Rattle.irl_offer.specs.declared.settings.Kind.TheVariants.{Crawl as CrawlKind};
ghost use Rattle.irl_words.specs.Words.{AreRunOptions};
ghost use Rattle.irl_yard.specs.Holding.{IsSound};
ghost use Rattle.irl_crawl.specs.Batches.{Batches, besides, just};
ghost use Rattle.irl_crawl.specs.Leading.{IsOpen, Leads};
ghost use Rattle.irl_crawl.specs.Workers.{AllGoOn, given_by};
ghost use Rattle.irl_top.specs.Crawled.{crawl_task, part_task, replay_task, site_task, Begins, BeginsAt, Crawled, CrawlsTape, CrawlRun, GoesOver};
ghost use Rattle.irl_top.specs.Crawled.{EndsAsFound, IsCrawlEnding, IsPlanOf, KeepsSuffixes, MayCrawlInput, RefusesSuffixes};
ghost use Rattle.irl_top.specs.Crawled.{ending_of_crawl, ending_of_tape, playing_at_first};
ghost use Rattle.irl_top.specs.Outside.{lent, lent_beside, stream};
ghost use Rattle.irl_top.specs.Ports.{PortsGoOn, aimed_all, ports_of};
ghost use Rattle.irl_top.specs.Stream.{Stream};
ghost use Rattle.irl_top.specs.declared.ending.Ending.TheVariants.{DiskFault as DiskEnding};

use crate::Ending;
use crate::showing::print_report;
use irl_crawl::{Ended, Plan, crawl};
use irl_disk::Store;
use irl_fetch::NoGate;
use irl_http::Link;
use irl_io::{Sink, Source};
use irl_key::{Web, key_of};
use irl_offer::{Asked, Text};
use irl_record::{Fetch, Tape, TapeFault, TapeFetch, WireFetch, site};
use irl_words::RunOptions;
use irl_yard::Yard;
use std::alloc::{AllocError, Global};
use std::sync::Wait;
use std::thread::Threads;

/// The number of the suffix text among what a store was made with, where it differs from a tape's.
const SUFFIXES: u8 = 12;

/// Crawls the pages of a tape, and prints the report. The store is entered before the tape is read, and the tape is read
/// whole before the first offer.
pub fn replay<R, I, O, S>(
    rt: &R,
    alloc: Global,
    asked: &Asked,
    options: &RunOptions,
    input: &mut I,
    output: &mut O,
    store: S,
) -> (Ending, S)
where
    R: Threads + Wait + Sync,
    I: Source,
    O: Sink,
    S: Store + Send,
    requires kind { asked.now.kind ≡ CrawlKind }
    requires options { AreRunOptions options.now }
    ensures { let tells = lent S.told I.left I.faults O.written O.faults in
        CrawlRun (replay_task options.now) asked.now (tells store input.old output.old)
        (tells result.1 input.new output.new) result.0 }
{
    let yard = match Yard::enter(alloc, store, asked) {
        Ok(yard) => yard,
        Err((fault, store)) => return (fault.into(), store),
    };
    let (ending, yard) = replay_over(rt, alloc, yard, options, input, output);
    (ending, yard.into_store())
}

// The same over an open store.
fn replay_over<R, I, O, S>(
    rt: &R,
    alloc: Global,
    yard: Yard<S>,
    options: &RunOptions,
    input: &mut I,
    output: &mut O,
) -> (Ending, Yard<S>)
where
    R: Threads + Wait + Sync,
    I: Source,
    O: Sink,
    S: Store + Send,
    requires sound { IsSound yard.parts }
    requires kind { yard.parts.urls.settings.kind ≡ CrawlKind }
    requires options { AreRunOptions options.now }
    ensures { let tells = lent S.told I.left I.faults O.written O.faults in
        GoesOver (replay_task options.now) yard.parts result.1.parts (tells yard.store input.old output.old)
        (tells result.1.store input.new output.new) result.0 }
{
    let _is_sound = yard.is_sound();
    let tape = match Tape::read(alloc, input, true) {
        Ok(tape) => tape,
        Err(fault) => return (ending_of_tape(fault), yard),
    };
    let Ok(mut fetchers) = players(alloc, &tape, options.workers) else {
        return (Ending::NoMemory, yard);
    };
    crawl_tape(rt, alloc, yard, &tape, options, &mut fetchers, output)
}

/// Crawls a made-up site of so many pages, and prints the report. Nothing is read.
pub fn crawl_site<R, O, S>(
    rt: &R,
    alloc: Global,
    asked: &Asked,
    options: &RunOptions,
    pages: u32,
    output: &mut O,
    store: S,
) -> (Ending, S)
where
    R: Threads + Wait + Sync,
    O: Sink,
    S: Store + Send,
    requires kind { asked.now.kind ≡ CrawlKind }
    requires options { AreRunOptions options.now }
    ensures { (input : Stream) → let tells = lent_beside input S.told O.written O.faults in
        CrawlRun (site_task options.now pages) asked.now (tells store output.old) (tells result.1 output.new) result.0 }
{
    let yard = match Yard::enter(alloc, store, asked) {
        Ok(yard) => yard,
        Err((fault, store)) => return (fault.into(), store),
    };
    let (ending, yard) = crawl_site_over(rt, alloc, yard, options, pages, output);
    (ending, yard.into_store())
}

// The same over an open store.
fn crawl_site_over<R, O, S>(
    rt: &R,
    alloc: Global,
    yard: Yard<S>,
    options: &RunOptions,
    pages: u32,
    output: &mut O,
) -> (Ending, Yard<S>)
where
    R: Threads + Wait + Sync,
    O: Sink,
    S: Store + Send,
    requires sound { IsSound yard.parts }
    requires kind { yard.parts.urls.settings.kind ≡ CrawlKind }
    requires options { AreRunOptions options.now }
    ensures { (input : Stream) → let tells = lent_beside input S.told O.written O.faults in
        GoesOver (site_task options.now pages) yard.parts result.1.parts (tells yard.store output.old)
        (tells result.1.store output.new) result.0 }
{
    let _is_sound = yard.is_sound();
    let tape = match site(alloc, pages) {
        Ok(tape) => tape,
        Err(_) => return (Ending::NoMemory, yard),
    };
    let Ok(mut fetchers) = players(alloc, &tape, options.workers) else {
        return (Ending::NoMemory, yard);
    };
    crawl_tape(rt, alloc, yard, &tape, options, &mut fetchers, output)
}

/// Crawls the sites that a tape's seeds lead to, and prints the report. The first ports, one for each worker, connect to
/// this number. The tape has no pages.
pub fn crawl_ports<R, I, O, S, P>(
    rt: &R,
    alloc: Global,
    asked: &Asked,
    options: &RunOptions,
    number: u16,
    input: &mut I,
    output: &mut O,
    store: S,
    ports: &mut [WireFetch<P>],
) -> (Ending, S)
where
    R: Threads + Wait + Sync,
    I: Source,
    O: Sink,
    S: Store + Send,
    P: Link + Send,
    requires kind { asked.now.kind ≡ CrawlKind }
    requires options { AreRunOptions options.now }
    requires some { options.now.workers ≤ length ports.old }
    ensures run { let tells = lent S.told I.left I.faults O.written O.faults in
        let told = ports_of P.connections P.faults in
        CrawlRun (crawl_task options.now number (told ports.old) (told ports.new)) asked.now
        (tells store input.old output.old) (tells result.1 input.new output.new) result.0 }
    ensures ports { let told = ports_of P.connections P.faults in PortsGoOn (told ports.old) (told ports.new) }
{
    let yard = match Yard::enter(alloc, store, asked) {
        Ok(yard) => yard,
        Err((fault, store)) => return (fault.into(), store),
    };
    let (ending, yard) = crawl_ports_over(rt, alloc, yard, options, number, input, output, ports);
    (ending, yard.into_store())
}

// The same over an open store.
fn crawl_ports_over<R, I, O, S, P>(
    rt: &R,
    alloc: Global,
    yard: Yard<S>,
    options: &RunOptions,
    number: u16,
    input: &mut I,
    output: &mut O,
    ports: &mut [WireFetch<P>],
) -> (Ending, Yard<S>)
where
    R: Threads + Wait + Sync,
    I: Source,
    O: Sink,
    S: Store + Send,
    P: Link + Send,
    requires sound { IsSound yard.parts }
    requires kind { yard.parts.urls.settings.kind ≡ CrawlKind }
    requires options { AreRunOptions options.now }
    requires some { options.now.workers ≤ length ports.old }
    ensures over { let tells = lent S.told I.left I.faults O.written O.faults in
        let told = ports_of P.connections P.faults in
        GoesOver (crawl_task options.now number (told ports.old) (told ports.new)) yard.parts result.1.parts
        (tells yard.store input.old output.old) (tells result.1.store input.new output.new) result.0 }
    ensures ports { let told = ports_of P.connections P.faults in PortsGoOn (told ports.old) (told ports.new) }
{
    let _is_sound = yard.is_sound();
    let tape = match Tape::read(alloc, input, false) {
        Ok(tape) => tape,
        Err(fault) => return (ending_of_tape(fault), yard),
    };
    let count = options.workers as usize;
    let Ok(()) = aim_all(alloc, number, &options.agent, &mut ports[..count]) else {
        return (Ending::NoMemory, yard);
    };
    crawl_tape(rt, alloc, yard, &tape, options, &mut ports[..count], output)
}

// Aims each of some fetchers at a number of a port, by a copy of an agent's name. No port is called.
fn aim_all<P: Link>(
    alloc: Global,
    number: u16,
    agent: &Text,
    fetchers: &mut [WireFetch<P>],
) -> Result<(), AllocError>
    ensures aimed { OnOk result (fetchers.new ≡ aimed_all number agent.now fetchers.old) }
    ensures ports { let told = ports_of P.connections P.faults in told fetchers.new ≡ told fetchers.old }
{
    for fetcher in fetchers.iter_mut() {
        fetcher.aim(number, agent.copy(alloc)?);
    }
    Ok(())
}

// So many fetchers that answer by a tape.
fn players<'a>(
    alloc: Global,
    tape: &'a Tape,
    workers: u32,
) -> Result<Vec<TapeFetch<'a>>, AllocError>
    ensures count { IfOk result (λ fetchers. length fetchers.items ≡ workers) }
    ensures each { IfOk result (λ fetchers. All (λ f. f ≡ playing_at_first tape.now) fetchers.items) }
{
    let mut fetchers = Vec::new(alloc);
    for _ in 0..workers {
        fetchers.push(TapeFetch::new(tape))?;
    }
    Ok(fetchers)
}

// So many gates that do nothing.
fn open_gates(alloc: Global, workers: usize) -> Result<Vec<NoGate>, AllocError>
    ensures { IfOk result (λ gates. length gates.items ≡ workers) }
{
    let mut gates = Vec::new(alloc);
    for _ in 0..workers {
        gates.push(NoGate)?;
    }
    Ok(gates)
}

// Crawls a tape over an open store, each worker by a fetcher of its own, and prints the report.
fn crawl_tape<R, S, F, O>(
    rt: &R,
    alloc: Global,
    yard: Yard<S>,
    tape: &Tape,
    options: &RunOptions,
    fetchers: &mut [F],
    output: &mut O,
) -> (Ending, Yard<S>)
where
    R: Threads + Wait + Sync,
    S: Store + Send,
    F: Fetch + Send,
    O: Sink,
    requires sound { IsSound yard.parts }
    requires kind { yard.parts.urls.settings.kind ≡ CrawlKind }
    requires options { AreRunOptions options.now }
    requires some { (1 ≤ length fetchers.old) × (length fetchers.old ≤ 64) }
    ensures tape { CrawlsTape (part_task options.now (given_by F.asked F.gives F.faults fetchers.old fetchers.new))
        tape.now
        yard.parts result.1.parts (S.told yard.store) (S.told result.1.store)
        (stream O.written O.faults output.old) (stream O.written O.faults output.new) result.0 }
    ensures fetchers { AllGoOn F.asked F.gives F.faults F.last F.aim fetchers.old fetchers.new }
{
    let _is_sound = yard.is_sound();
    let (crawled, yard) = begin_and_play(rt, alloc, yard, tape, options, fetchers);
    match crawled {
        Ok(()) => {
            let printed = print_report(alloc, &yard.counts(), output);
            (Ending::of(printed), yard)
        }
        Err(ending) => (ending, yard),
    }
}

// Crawls a tape over an open store, which begins a crawl or goes on with one.
fn begin_and_play<R, S, F>(
    rt: &R,
    alloc: Global,
    yard: Yard<S>,
    tape: &Tape,
    options: &RunOptions,
    fetchers: &mut [F],
) -> (Result<(), Ending>, Yard<S>)
where
    R: Threads + Wait + Sync,
    S: Store + Send,
    F: Fetch + Send,
    requires sound { IsSound yard.parts }
    requires kind { yard.parts.urls.settings.kind ≡ CrawlKind }
    requires options { AreRunOptions options.now }
    requires some { (1 ≤ length fetchers.old) × (length fetchers.old ≤ 64) }
    ensures leads { let task = part_task options.now (given_by F.asked F.gives F.faults fetchers.old fetchers.new) in
        Leads (IsErrOf result.0 DiskEnding) (MayCrawlInput task yard.parts.urls.settings tape.now)
        (Crawled result.0 task yard.parts.urls.settings tape.now) yard.parts result.1.parts
        (S.told yard.store) (S.told result.1.store) }
    ensures batches { Batches (IsErrOf result.0 DiskEnding) (besides 2 1) (besides 2 1) yard.parts result.1.parts
        (S.told yard.store) (S.told result.1.store) }
    ensures found { EndsAsFound (IsErrOf result.0) result.1.parts (S.told result.1.store) }
    ensures kinds { IfErr result.0 IsCrawlEnding }
    ensures suffixes { RefusesSuffixes result.0 tape.now.suffixes }
    ensures fetchers { AllGoOn F.asked F.gives F.faults F.last F.aim fetchers.old fetchers.new }
{
    let _is_sound = yard.is_sound();
    let mut yard = yard;
    match begin(&mut yard, tape.suffixes()) {
        Ok(()) => play(rt, alloc, yard, tape, options, fetchers),
        Err(ending) => (Err(ending), yard),
    }
}

// Begins a crawl with a text of suffixes, or goes on with one that began with it; no text at all fits every crawl.
fn begin<S: Store>(yard: &mut Yard<S>, suffixes: &Text) -> Result<(), Ending>
    requires sound { IsSound yard.old.parts }
    requires kind { yard.old.parts.urls.settings.kind ≡ CrawlKind }
    requires good { bad_line suffixes.now ≡ None }
    requires short { length suffixes.now ≤ max_suffixes }
    ensures leads { Leads (IsErrOf result DiskEnding) (BeginsAt suffixes.now) (Begins result suffixes.now)
        yard.old.parts yard.new.parts (S.told yard.old.store) (S.told yard.new.store) }
    ensures batches { Batches (IsErrOf result DiskEnding) (just 0 0) (just 0 0)
        yard.old.parts yard.new.parts (S.told yard.old.store) (S.told yard.new.store) }
    ensures found { EndsAsFound (IsErrOf result) yard.new.parts (S.told yard.new.store) }
    ensures kinds { IfErr result IsCrawlEnding }
    ensures suffixes { RefusesSuffixes result suffixes.now }
    ensures open { OnOk result (IsOpen yard.new.parts × KeepsSuffixes yard.new.parts suffixes.now) }
{
    let _is_sound = yard.is_sound();
    let Some(kept) = yard.suffixes() else {
        yard.begin(suffixes)?;
        return Ok(());
    };
    if fits(suffixes.bytes(), kept.text()) {
        return Ok(());
    }
    Err(Ending::OtherSettings(SUFFIXES, key_of(kept.text()), key_of(suffixes.bytes())))
}

// Whether a crawl that began with a text of suffixes may go on with another: with the same one, or with none.
fn fits(suffixes: &[u8], kept: &[u8]) -> bool
    ensures fits { result ≡ true → (suffixes.now ≡ []) ⊎ (kept.now ≡ suffixes.now) }
    ensures named { result ≡ false → suffixes.now ≢ [] }
    ensures other { result ≡ false → kept.now ≢ suffixes.now }
{
    suffixes.is_empty() || suffixes == kept
}

// Crawls a tape over a crawl that has begun.
fn play<R, S, F>(
    rt: &R,
    alloc: Global,
    yard: Yard<S>,
    tape: &Tape,
    options: &RunOptions,
    fetchers: &mut [F],
) -> (Result<(), Ending>, Yard<S>)
where
    R: Threads + Wait + Sync,
    S: Store + Send,
    F: Fetch + Send,
    requires open { IsOpen yard.parts }
    requires options { AreRunOptions options.now }
    requires some { (1 ≤ length fetchers.old) × (length fetchers.old ≤ 64) }
    ensures leads { let task = part_task options.now (given_by F.asked F.gives F.faults fetchers.old fetchers.new) in
        KeepsSuffixes yard.parts tape.now.suffixes →
        Leads (IsErrOf result.0 DiskEnding) (MayCrawlInput task yard.parts.urls.settings tape.now)
        (Crawled result.0 task yard.parts.urls.settings tape.now) yard.parts result.1.parts
        (S.told yard.store) (S.told result.1.store) }
    ensures batches { Batches (IsErrOf result.0 DiskEnding) (besides 2 1) (besides 2 1) yard.parts result.1.parts
        (S.told yard.store) (S.told result.1.store) }
    ensures found { EndsAsFound (IsErrOf result.0) result.1.parts (S.told result.1.store) }
    ensures kinds { IfErr result.0 IsCrawlEnding }
    ensures suffixes { RefusesSuffixes result.0 tape.now.suffixes }
    ensures fetchers { AllGoOn F.asked F.gives F.faults F.last F.aim fetchers.old fetchers.new }
{
    let _is_sound = yard.is_sound();
    let plan = match plan_of(alloc, tape, options) {
        Ok(plan) => plan,
        Err(_) => return (Err(Ending::NoMemory), yard),
    };
    let Ok(mut gates) = open_gates(alloc, fetchers.len()) else {
        return (Err(Ending::NoMemory), yard);
    };
    let (ended, yard) = crawl(rt, alloc, yard, fetchers, &mut gates, &plan);
    (ending_of_crawl(ended), yard)
}

// What a tape and the options of a run ask of a crawl.
fn plan_of(alloc: Global, tape: &Tape, options: &RunOptions) -> Result<Plan, AllocError>
    requires options { AreRunOptions options.now }
    ensures { IfOk result (IsPlanOf tape.now options.now) }
{
    Ok(Plan {
        seeds: copies(alloc, tape.seeds())?,
        pages: options.pages,
        batch: options.batch,
        delay: options.delay,
        agent: options.agent.copy(alloc)?,
    })
}

// The same pages once more.
fn copies(alloc: Global, webs: &[Web]) -> Result<Vec<Web>, AllocError>
    ensures { IfOk result (λ copies. copies.items ≡ webs.now) }
{
    let mut copies = Vec::new(alloc);
    for web in webs {
        copies.push(web.copy(alloc)?)?;
    }
    Ok(copies)
}

// What the end of a crawl is to a run.
fn ending_of_crawl(ended: Ended) -> Result<(), Ending>
    ensures { result ≡ ending_of_crawl ended }
{
    match ended {
        Ended::Done | Ended::Limit => Ok(()),
        Ended::Fault(fault) => Err(fault.into()),
    }
}

// The ending that a tape's fault is.
fn ending_of_tape(fault: TapeFault) -> Ending
    ensures { result ≡ ending_of_tape fault }
{
    match fault {
        TapeFault::BadRecord(n) => Ending::LineRefused(n),
        TapeFault::Failed => Ending::InputFault,
        TapeFault::Memory => Ending::NoMemory,
    }
}
