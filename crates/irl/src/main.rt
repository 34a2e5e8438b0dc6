//! The program `irl`: a web crawler over a store in a folder.
#![tactic(auto)]

ghost use Rattle.std.specs.Prelude.{◌≡◌, ◌≢◌, length, map, drop, IfOk, OnOk, OnErr, IsErr, string_bytes};
ghost use Rattle.std.specs.Io.KnownBytes.{Appends};
ghost use Rattle.irl_base.specs.Faults.{Rose, HasCause};
ghost use Rattle.irl_io.specs.Written.{AppendsPrefix};
ghost use Rattle.irl_files.specs.FileStore.{fault_count, folder_path};
ghost use Rattle.irl_files.specs.Folder.{named_folder};
ghost use Rattle.irl_top.specs.Message.{Says, refusal};
ghost use Rattle.irl_top.specs.Ports.{ports_of};
ghost use Rattle.irl.specs.Words.{asked, folder_in};
ghost use Rattle.irl_words.specs.Help.{asks_help};
ghost use Rattle.irl.specs.Obeying.{RunsOverFiles, RunsInFolder, Obeys, ObeysCommand, handed, TellsFault, IsFaultLine};

mod words;

use irl_files::{Failure, FileStore, Lockable};
use irl_http::Link;
use irl_io::{Failed, ReadSource, Sink, Source, WriteSink};
use irl_record::WireFetch;
use irl_top::run;
use irl_wire::{Cleared, Meter, Metered, Wire};
use irl_words::help;
use std::alloc::{AllocError, Global};
use std::io::{self, Eprint, Error, ErrorKind, IsTerminal};
use std::net::Net;
use std::process::ExitCode;
use std::rt::{Env, Files};
use std::sync::Wait;
use std::thread::Threads;
use std::time::Clock;
use std::{env, fs};
use words::{Request, folder_and_command, refusing_word};

const HELP: &str = "\
Usage: irl DIR COMMAND [OPTIONS]

Keeps what it is given in the folder DIR, which is made at the first write.
A name that begins with - is written with its place, as ./-DIR. One program at
a time may use a folder: another ends with status 4. What a run judged and was
stopped or failed before it printed is printed by no later run.

Commands that keep what standard input gives:
  seen  prints each line of standard input that was not given before
  drum  checks and updates keys by the lines of standard input, and prints each
        verdict

Commands that crawl:
  crawl   crawls sites that answer on this machine, and prints a report
  replay  crawls the pages of a tape on standard input, and prints a report
  gen     crawls a made-up site of N pages, and prints a report

Commands that look at what is kept, and change nothing:
  show  prints how much there is
  list  prints a line for each line, key or URL that was judged unique

irl DIR COMMAND --help prints the options of a command.

Options:
  -h, --help     prints this text
      --version  prints the version
";

const VERSION: &str = "irl 0.1.0\n";

/// How many workers there may be, each with a port.
const PORTS: usize = 64;

/// A device that has no bytes.
const NULL_DEVICE: &str = "/dev/null";

/// The exit status where the words are refused.
const WORDS_REFUSED: u8 = 1;

/// The exit status where the system refused a file, or another program has the folder.
const DISK_FAULT: u8 = 4;

/// The exit status where the output failed.
const OUTPUT_FAULT: u8 = 6;

/// The exit status where memory ran out.
const NO_MEMORY: u8 = 7;

/// The line of a fault of which no more can be told.
const UNTOLD: &str = "irl: what failed could not be told\n";

/// Writes a text, and gives the exit status.
fn show<O: Sink, E: Sink>(output: &mut O, errors: &mut E, text: &[u8]) -> u8
    ensures done { result ≡ 0 → Appends (O.written output.old) (O.written output.new) text.now }
    ensures fault { result ≢ 0 → (result ≡ OUTPUT_FAULT) × Rose (O.faults output.old) (O.faults output.new) }
{
    match output.write(text) {
        Ok(()) => 0,
        Err(_) => {
            let _ = errors.write(b"output fault\n");
            OUTPUT_FAULT
        }
    }
}

/// Refuses the words by one of them, and gives the exit status.
fn refuse<E: Sink>(errors: &mut E, word: &str) -> u8
    ensures status { result ≡ WORDS_REFUSED }
    ensures says { Says (refusal word.now)
        (record { bytes = E.written errors.old; faults = E.faults errors.old })
        (record { bytes = E.written errors.new; faults = E.faults errors.new }) }
{
    let _ = write_refusal(errors, word);
    WORDS_REFUSED
}

/// Writes the line of refused words, up to the first piece that fails.
fn write_refusal<E: Sink>(errors: &mut E, word: &str) -> Result<(), Failed>
    ensures ok { OnOk result
        (Appends (E.written errors.old) (E.written errors.new) (refusal word.now)) }
    ensures err { OnErr result
        (AppendsPrefix (E.written errors.old) (E.written errors.new) (refusal word.now)) }
    ensures cause { HasCause (IsErr result) (E.faults errors.old) (E.faults errors.new) }
{
    errors.write(b"words refused: ")?;
    errors.write(word.as_bytes())?;
    errors.write(b"\n")?;
    Ok(())
}

/// The line that tells of a failure in a store over this folder.
fn fault_line(alloc: Global, folder: &str, failure: Failure) -> Result<String, AllocError>
    ensures { IfOk result (λ line. IsFaultLine folder.now failure (string_bytes line)) }
{
    let text = failure.explain(alloc, folder)?;
    ["irl: ", text.as_str(), "\n"].concat(alloc)
}

/// Writes a line of what failed first in a store over this folder.
fn tell_fault<E: Sink>(alloc: Global, errors: &mut E, folder: &str, first: Option<Failure>)
    ensures { TellsFault folder.now first
        (record { bytes = E.written errors.old; faults = E.faults errors.old })
        (record { bytes = E.written errors.new; faults = E.faults errors.new }) }
{
    let Some(failure) = first else {
        return say(errors, UNTOLD.as_bytes());
    };
    match fault_line(alloc, folder, failure) {
        Ok(line) => say(errors, line.as_bytes()),
        Err(_) => say(errors, UNTOLD.as_bytes()),
    }
}

/// Writes such a line at the status of a refused file, and nothing at any other.
fn tell_status<E: Sink>(
    alloc: Global,
    errors: &mut E,
    folder: &str,
    status: u8,
    first: Option<Failure>,
)
    ensures told { status ≡ 4 → TellsFault folder.now first
        (record { bytes = E.written errors.old; faults = E.faults errors.old })
        (record { bytes = E.written errors.new; faults = E.faults errors.new }) }
    ensures quiet { status ≢ 4 → errors.new ≡ errors.old }
{
    if status == DISK_FAULT {
        tell_fault(alloc, errors, folder, first);
    }
}

/// Writes a line, where the stream takes it.
fn say<E: Sink>(errors: &mut E, line: &[u8])
    ensures { Says line.now
        (record { bytes = E.written errors.old; faults = E.faults errors.old })
        (record { bytes = E.written errors.new; faults = E.faults errors.new }) }
{
    let _ = errors.write(line);
}

/// The words of the command line behind the program's name. Where one of them is no text, there are none.
fn arguments<R: Env + AllocGlobal>(rt: &R) -> Result<Vec<String>, AllocError> {
    match env::args(rt) {
        Ok(arguments) => arguments.skip(1).collect(rt.alloc()),
        Err(error) if error.kind() == ErrorKind::OutOfMemory => Err(AllocError),
        Err(_) => Ok(Vec::new(rt.alloc())),
    }
}

/// The store over the folder that the first word names. Nothing is opened or made yet.
fn store_in_folder<'a, R: Files + AllocGlobal>(
    rt: &'a R,
    words: &[&str],
) -> Result<FileStore<&'a R>, AllocError>
where
    R::File: Lockable,
    ensures folder { IfOk result (λ store.
        folder_path store ≡ named_folder (folder_in (map (λ word. word.now) words.now))) }
    ensures faults { IfOk result (λ store. fault_count store ≡ 0) }
{
    let (folder, _) = folder_and_command(words);
    FileStore::new(rt, rt.alloc(), folder)
}

/// As many ports as there may be workers. Nothing is connected yet.
fn new_ports<'a, R: Net + Clock + Eprint + Drop + AllocGlobal>(
    rt: &'a R,
    meter: &'a Meter<&'a R>,
) -> Result<Vec<WireFetch<Metered<'a, Wire<&'a R>, &'a R>>>, AllocError>
    ensures { IfOk result (λ ports. length ports.items ≡ PORTS) }
{
    let mut ports = Vec::new(rt.alloc());
    for _ in 0..PORTS {
        let port = Metered::new(Wire::new(rt), meter);
        ports.push(WireFetch::new(rt.alloc(), port))?;
    }
    Ok(ports)
}

/// Runs the command over a store in the folder that the first word names, which has not failed yet. Gives the exit status and
/// what failed first.
fn run_over<'a, R, I, O, E, P>(
    rt: &'a R,
    words: &[&str],
    input: &mut I,
    output: &mut O,
    errors: &mut E,
    store: FileStore<&'a R>,
    ports: &mut [WireFetch<P>],
) -> (u8, Option<Failure>)
where
    R: Files + AllocGlobal + Threads + Wait + Sync,
    R::File: Lockable + Send,
    R::Dir: Send,
    I: Source,
    O: Sink,
    E: Sink,
    P: Link + Send,
    requires folder { folder_path store ≡ named_folder (folder_in (map (λ word. word.now) words.now)) }
    requires faults { fault_count store ≡ 0 }
    requires ports { length ports.old ≡ PORTS }
    ensures { let tells = handed I.left I.faults O.written O.faults E.written E.faults in
        let told = ports_of P.connections P.faults in
        RunsOverFiles (map (λ word. word.now) (drop 1 words.now))
        (tells input.old output.old errors.old (told ports.old))
        (tells input.new output.new errors.new (told ports.new)) result.0 result.1 }
{
    let (_, command) = folder_and_command(words);
    let (status, store) = run(rt, rt.alloc(), command, input, output, errors, store, ports);
    (status, store.first_failure())
}

/// Runs the command over the folder that the first word names, and tells what failed first where a file was refused. Gives the
/// exit status.
fn run_in_folder<'a, R, I, O, E, P>(
    rt: &'a R,
    words: &[&str],
    input: &mut I,
    output: &mut O,
    errors: &mut E,
    ports: &mut [WireFetch<P>],
) -> Result<u8, AllocError>
where
    R: Files + AllocGlobal + Threads + Wait + Sync,
    R::File: Lockable + Send,
    R::Dir: Send,
    I: Source,
    O: Sink,
    E: Sink,
    P: Link + Send,
    requires { length ports.old ≡ PORTS }
    ensures { IfOk result (λ status.
        let tells = handed I.left I.faults O.written O.faults E.written E.faults in
        let told = ports_of P.connections P.faults in
        RunsInFolder (folder_in (map (λ word. word.now) words.now)) (map (λ word. word.now) (drop 1 words.now))
        (tells input.old output.old errors.old (told ports.old))
        (tells input.new output.new errors.new (told ports.new)) status) }
{
    let store = store_in_folder(rt, words)?;
    let (status, first) = run_over(rt, words, input, output, errors, store, ports);
    let (folder, _) = folder_and_command(words);
    tell_status(rt.alloc(), errors, folder, status, first);
    Ok(status)
}

/// Does what the words behind the folder ask for: shows the help of their command, or runs them. Gives the exit status.
fn command<'a, R, I, O, E, P>(
    rt: &'a R,
    words: &[&str],
    input: &mut I,
    output: &mut O,
    errors: &mut E,
    ports: &mut [WireFetch<P>],
) -> Result<u8, AllocError>
where
    R: Files + AllocGlobal + Threads + Wait + Sync,
    R::File: Lockable + Send,
    R::Dir: Send,
    I: Source,
    O: Sink,
    E: Sink,
    P: Link + Send,
    requires { length ports.old ≡ PORTS }
    ensures { IfOk result (λ status.
        let tells = handed I.left I.faults O.written O.faults E.written E.faults in
        let told = ports_of P.connections P.faults in
        let command = map (λ word. word.now) (drop 1 words.now) in
        ObeysCommand (asks_help command) (folder_in (map (λ word. word.now) words.now)) command
        (tells input.old output.old errors.old (told ports.old))
        (tells input.new output.new errors.new (told ports.new)) status) }
{
    let (_, command) = folder_and_command(words);
    match help(rt.alloc(), command)? {
        Some(text) => Ok(show(output, errors, text.bytes())),
        None => run_in_folder(rt, words, input, output, errors, ports),
    }
}

/// Does what the words ask for, and gives the exit status.
fn obey<'a, R, I, O, E, P>(
    rt: &'a R,
    words: &[&str],
    input: &mut I,
    output: &mut O,
    errors: &mut E,
    ports: &mut [WireFetch<P>],
) -> Result<u8, AllocError>
where
    R: Files + AllocGlobal + Threads + Wait + Sync,
    R::File: Lockable + Send,
    R::Dir: Send,
    I: Source,
    O: Sink,
    E: Sink,
    P: Link + Send,
    requires { length ports.old ≡ PORTS }
    ensures { IfOk result (λ status.
        let tells = handed I.left I.faults O.written O.faults E.written E.faults in
        let told = ports_of P.connections P.faults in
        Obeys (asked (map (λ word. word.now) words.now))
        HELP.now VERSION.now (map (λ word. word.now) words.now)
        (tells input.old output.old errors.old (told ports.old))
        (tells input.new output.new errors.new (told ports.new)) status) }
{
    match Request::from_words(words) {
        Request::Help => Ok(show(output, errors, HELP.as_bytes())),
        Request::Version => Ok(show(output, errors, VERSION.as_bytes())),
        Request::Refused => Ok(refuse(errors, refusing_word(words))),
        Request::Command => command(rt, words, input, output, errors, ports),
    }
}

/// Does what the words of the command line ask for, and gives the exit status.
fn answer<'a, R, I, O, E>(
    rt: &'a R,
    meter: &'a Meter<&'a R>,
    input: &mut I,
    output: &mut O,
    errors: &mut E,
) -> Result<u8, AllocError>
where
    R: Env + Files + Net + Clock + Eprint + Drop + AllocGlobal + Threads + Wait + Sync,
    R::File: Lockable + Send,
    R::Dir: Send,
    R::Stream: Send,
    R::Listener: Send,
    I: Source,
    O: Sink,
    E: Sink,
{
    let arguments = arguments(rt)?;
    let words: Vec<&str> = arguments
        .iter()
        .map(|word| word.as_str())
        .collect(rt.alloc())?;
    let mut ports = new_ports(rt, meter)?;
    obey(rt, &words, input, output, errors, &mut ports)
}

/// Opens the null device so often that each closed standard stream gets it, and no file that is opened later takes the
/// place of one. It is opened to be read: a closed input is empty, and what is written to a closed output is refused.
fn fill_closed_streams<R: Files>(rt: &R) -> io::Result<[R::File; 3]> {
    Ok([
        fs::open(rt, NULL_DEVICE)?,
        fs::open(rt, NULL_DEVICE)?,
        fs::open(rt, NULL_DEVICE)?,
    ])
}

/// Writes the lines of a null device that could not be opened.
fn refuse_device<R: AllocGlobal, E: Sink>(rt: &R, errors: &mut E, error: &Error) {
    let _ = errors.write(b"disk fault\n");
    let line = format!(in rt.alloc(); "irl: open of {NULL_DEVICE}: {error}\n");
    match line {
        Ok(line) => say(errors, line.as_bytes()),
        Err(_) => say(errors, UNTOLD.as_bytes()),
    }
}

fn main(rt: HostRuntime) -> ExitCode {
    let filled = fill_closed_streams(&rt);
    let mut input = ReadSource::new(rt.stdin());
    let meter = Meter::new(&rt, rt.stderr().is_terminal());
    let mut output = Cleared::new(WriteSink::new(rt.stdout()), &meter);
    let mut errors = Cleared::new(WriteSink::new(rt.stderr()), &meter);
    if let Err(error) = &filled {
        refuse_device(&rt, &mut errors, error);
        return ExitCode::from(DISK_FAULT);
    }
    let answer = answer(&rt, &meter, &mut input, &mut output, &mut errors);
    meter.clear();
    match answer {
        Ok(status) => ExitCode::from(status),
        Err(_) => {
            let _ = errors.write(b"no memory\n");
            ExitCode::from(NO_MEMORY)
        }
    }
}
