ghost use Rattle.std.specs.Prelude.{◌≡◌, ◌≢◌, [], length, map};
ghost use Rattle.irl_words.specs.Words.{IsInRange};
ghost use Rattle.irl_top.specs.Message.{refused_status};
ghost use Rattle.irl_top.specs.Outside.{outside, lent};
ghost use Rattle.irl_top.specs.Ports.{ports_of};
ghost use Rattle.irl_top.specs.Run.{Runs, Obeys, Does, WaitsForNobody};

use crate::Ending;
use crate::crawling::{crawl_ports, crawl_site, replay};
use crate::ending::REFUSED;
use crate::filter::filter;
use crate::line::LineKind;
use crate::showing::{list, show};
use crate::telling::{tell, tell_refused};
use irl_disk::Store;
use irl_http::Link;
use irl_io::{Sink, Source};
use irl_record::WireFetch;
use irl_words::{Command, WordFault, read_words};
use std::alloc::Global;
use std::sync::Wait;
use std::thread::Threads;

/// Runs the program with the words behind the folder's: answers the exit status, and hands the store back.
///
/// Words that are a command are carried out. Refused words have the status 1 and their line on the error sink, and where
/// memory runs out while they are read it is 7 and that line; nothing else is called then. Only `crawl` calls the ports.
pub fn run<R, I, O, E, S, P>(
    rt: &R,
    alloc: Global,
    words: &[&str],
    input: &mut I,
    output: &mut O,
    errors: &mut E,
    store: S,
    ports: &mut [WireFetch<P>],
) -> (u8, S)
where
    R: Threads + Wait + Sync,
    I: Source,
    O: Sink,
    E: Sink,
    S: Store + Send,
    P: Link + Send,
    requires ports { length ports.old ≡ 64 }
    ensures { let tells = outside S.told I.left I.faults O.written O.faults E.written E.faults in
        let told = ports_of P.connections P.faults in
        Runs (map (λ word. word.now) words.now)
        (tells store input.old output.old errors.old (told ports.old))
        (tells result.1 input.new output.new errors.new (told ports.new)) result.0 }
{
    match read_words(alloc, words) {
        Ok(command) => obey(rt, alloc, &command, input, output, errors, store, ports),
        Err(WordFault::Refused(word)) => {
            let _ = tell_refused(errors, word.bytes());
            (REFUSED, store)
        }
        Err(WordFault::Memory) => {
            let _ = tell(errors, Ending::NoMemory);
            (Ending::NoMemory.status(), store)
        }
    }
}

// Carries out a command: answers the exit status, and hands the store back.
fn obey<R, I, O, E, S, P>(
    rt: &R,
    alloc: Global,
    command: &Command,
    input: &mut I,
    output: &mut O,
    errors: &mut E,
    store: S,
    ports: &mut [WireFetch<P>],
) -> (u8, S)
where
    R: Threads + Wait + Sync,
    I: Source,
    O: Sink,
    E: Sink,
    S: Store + Send,
    P: Link + Send,
    requires range { IsInRange command.now }
    requires ports { length ports.old ≡ 64 }
    ensures { let tells = outside S.told I.left I.faults O.written O.faults E.written E.faults in
        let told = ports_of P.connections P.faults in
        Obeys command.now (tells store input.old output.old errors.old (told ports.old))
        (tells result.1 input.new output.new errors.new (told ports.new)) result.0 }
{
    let (ending, store) = match command {
        Command::Replay(asked, options) => {
            replay(rt, alloc, asked, options, input, output, store)
        }
        Command::Crawl(asked, options, number) => {
            crawl_ports(
                rt, alloc, asked, options, *number, input, output, store, ports,
            )
        }
        Command::Gen(asked, options, pages) => {
            crawl_site(rt, alloc, asked, options, *pages, output, store)
        }
        plain => carry_out(alloc, plain, input, output, store),
    };
    let _ = tell(errors, ending);
    (ending.status(), store)
}

/// Carries out a command that waits for nobody: answers the exit status, and hands the store back.
///
/// `seen` keeps the lines of the input that aren't empty, and writes those that no line before them, in this run or an
/// earlier one, has the key of. `drum` keeps the offers that the lines are, and writes the verdict on each that asks for one.
/// `show` writes the report of the store, and `list` a line for each of its unique numbers; both only look.
pub fn plain<I: Source, O: Sink, E: Sink, S: Store>(
    alloc: Global,
    command: &Command,
    input: &mut I,
    output: &mut O,
    errors: &mut E,
    store: S,
) -> (u8, S)
    requires range { IsInRange command.now }
    requires plain { WaitsForNobody command.now }
    ensures obeys { let tells = outside S.told I.left I.faults O.written O.faults E.written E.faults in
        Obeys command.now
        (tells store input.old output.old errors.old []) (tells result.1 input.new output.new errors.new []) result.0 }
    ensures accepted { result.0 ≢ refused_status }
{
    let (ending, store) = carry_out(alloc, command, input, output, store);
    let _ = tell(errors, ending);
    (ending.status(), store)
}

// Carries out a command, and says nothing of how it ends.
fn carry_out<I: Source, O: Sink, S: Store>(
    alloc: Global,
    command: &Command,
    input: &mut I,
    output: &mut O,
    store: S,
) -> (Ending, S)
    requires range { IsInRange command.now }
    requires plain { WaitsForNobody command.now }
    ensures { let tells = lent S.told I.left I.faults O.written O.faults in
        Does command.now [] [] (tells store input.old output.old) (tells result.1 input.new output.new) result.0 }
{
    match command {
        Command::Seen(asked) => filter(alloc, LineKind::Text, asked, input, output, store),
        Command::Drum(asked) => filter(alloc, LineKind::Tuple, asked, input, output, store),
        Command::Show => show(alloc, output, store),
        Command::List => list(alloc, output, store),
        Command::Replay(_, _) | Command::Crawl(_, _, _) | Command::Gen(_, _, _) => unreachable!(),
    }
}
