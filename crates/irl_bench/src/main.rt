//! The program `irl_bench`: measured runs of the crawler's parts, each at a size that the words name.
#![tactic(auto)]

ghost use Rattle.std.specs.Prelude.{◌≡◌, ◌≢◌, ◌⊎◌, false, None, Ok, map};
ghost use Rattle.std.specs.Io.KnownBytes.{Appends};
ghost use Rattle.irl_base.specs.Faults.{Rose};
ghost use Rattle.irl_bench.specs.Words.{begins_with_name};

mod crawl;
mod fates;
mod front;
mod parse;
mod reply;
mod robots;
mod score;
mod site;
mod words;
mod yard;

use irl_files::Lockable;
use irl_io::{ReadSource, Sink, Source, WriteSink};
use score::{Beside, Score};
use std::alloc::{AllocError, Global};
use std::env;
use std::process::ExitCode;
use std::rt::{Env, Files};
use words::{Bench, Stage, number};

/// Every bench at a small size.
const SMALL: &str = "\
fates 300
front 10
parse 3
reply 5000 done plain 1024 2
reply 5000 done chunked 1 2
reply 5000 done head 1 2
reply 5000 done interim 1 2
robots 40 done ordinary 2
robots 5 done one-run 1
robots 5 done many-stars 1
robots 40 done short 1
yard 600 done yard-small 16 10 10000
yard 600 done yard-queues 16 1 4
";

const USAGE: &str = "\
words refused. These name benches, where STAGE is made, loaded or done:
  all
  fates EVENTS [STAGE]
  front HOSTS [STAGE]
  parse PAGES [STAGE], of the tape on standard input
  reply BYTES [STAGE [plain | chunked | head | interim  PIECE ROUNDS]]
  robots RULES [STAGE [ordinary | one-run | many-stars | short  ROUNDS]]
  yard URLS [STAGE [FOLDER DOMAINS BASE MOST]]
";

/// The exit status where the words are refused.
const WORDS_REFUSED: u8 = 1;

/// The exit status where a call did not answer what it should.
const WRONG_ANSWER: u8 = 2;

/// The exit status where the output failed.
const OUTPUT_FAULT: u8 = 6;

/// The exit status where memory ran out.
const NO_MEMORY: u8 = 7;

// Runs the bench that these words name. None where they name none.
fn run<R: Files + AllocGlobal, I: Source>(
    rt: &R,
    words: &[&str],
    input: &mut I,
) -> Result<Option<Score>, AllocError>
where
    R::File: Lockable,
    ensures odd { begins_with_name (map (λ word. word.now) words.now) ≡ false → result ≡ Ok None }
{
    let [name, size, choices @ ..] = words else {
        return Ok(None);
    };
    let Some(bench) = Bench::from_word(name) else {
        return Ok(None);
    };
    let (Some(size), Some((stage, choices))) = (number(size), stage_of(choices)) else {
        return Ok(None);
    };
    run_bench(rt, input, bench, size, stage, choices)
}

// Runs a bench up to a stage. None where these further words are none of its choices.
fn run_bench<R: Files + AllocGlobal, I: Source>(
    rt: &R,
    input: &mut I,
    bench: Bench,
    size: u32,
    stage: Stage,
    choices: &[&str],
) -> Result<Option<Score>, AllocError>
where
    R::File: Lockable,
{
    let alloc = rt.alloc();
    match bench {
        Bench::Fates if choices.is_empty() => Ok(Some(fates::run(alloc, size, stage)?)),
        Bench::Front if choices.is_empty() => Ok(Some(front::run(alloc, size, stage)?)),
        Bench::Parse if choices.is_empty() => Ok(Some(parse::run(alloc, input, size, stage)?)),
        Bench::Reply => match reply::Manner::from_words(choices) {
            Some(manner) => Ok(Some(reply::run(alloc, size, stage, manner)?)),
            None => Ok(None),
        },
        Bench::Robots => match robots::Manner::from_words(choices) {
            Some(manner) => Ok(Some(robots::run(alloc, size, stage, manner)?)),
            None => Ok(None),
        },
        Bench::Yard => match yard::Manner::from_words(choices) {
            Some(manner) => Ok(Some(yard::run(rt, size, stage, manner)?)),
            None => Ok(None),
        },
        _ => Ok(None),
    }
}

// How far a bench goes, and the words behind that. With no word it goes to its end.
fn stage_of<'a, 'b>(words: &'b [&'a str]) -> Option<(Stage, &'b [&'a str])> {
    match words {
        [] => Some((Stage::Done, words)),
        [word, rest @ ..] => Some((Stage::from_word(word)?, rest)),
    }
}

// Writes what a bench counted behind its words, and gives the exit status.
fn tell<O: Sink>(alloc: Global, output: &mut O, words: &str, score: Score) -> Result<u8, AllocError>
    ensures done { result ≡ Ok 0 → score.right ≡ score.calls }
    ensures known { result ≢ Ok WORDS_REFUSED }
{
    let beside = match score.beside {
        Some(Beside::Crawl { pairs, passes }) => {
            format!(in alloc; ", {pairs} pairs, {passes} passes")?
        }
        Some(Beside::Links { links, keys }) => {
            format!(in alloc; ", {links} links, keys {keys:016x}")?
        }
        None => String::new(alloc),
    };
    let line = format!(in alloc; "{words}: {} of {}{beside}\n", score.right, score.calls)?;
    if output.write(line.as_bytes()).is_err() {
        return Ok(OUTPUT_FAULT);
    }
    Ok(if score.is_full() { 0 } else { WRONG_ANSWER })
}

// Runs every bench at a small size, up to the first whose status isn't 0, and gives the exit status.
fn run_all<R: Files + AllocGlobal, I: Source, O: Sink>(
    rt: &R,
    input: &mut I,
    output: &mut O,
) -> Result<u8, AllocError>
where
    R::File: Lockable,
    ensures known { result ≢ Ok WORDS_REFUSED }
{
    for line in SMALL.lines() {
        let words: Vec<&str> = line.split(' ').collect(rt.alloc())?;
        let Some(score) = run(rt, &words, input)? else {
            return Ok(WRONG_ANSWER);
        };
        let status = tell(rt.alloc(), output, line, score)?;
        if status != 0 {
            return Ok(status);
        }
    }
    Ok(0)
}

// Refuses the words, and gives the exit status.
fn refuse<E: Sink>(errors: &mut E) -> u8
    ensures status { result ≡ WORDS_REFUSED }
    ensures says { Appends (E.written errors.old) (E.written errors.new) USAGE.now
        ⊎ Rose (E.faults errors.old) (E.faults errors.new) }
{
    let _ = errors.write(USAGE.as_bytes());
    WORDS_REFUSED
}

// Does what the words ask for, and gives the exit status. Words that name no bench are refused by a line, and nothing else
// is done for them.
fn obey<R: Files + AllocGlobal, I: Source, O: Sink, E: Sink>(
    rt: &R,
    words: &[&str],
    input: &mut I,
    output: &mut O,
    errors: &mut E,
) -> Result<u8, AllocError>
where
    R::File: Lockable,
    ensures odd { begins_with_name (map (λ word. word.now) words.now) ≡ false → result ≡ Ok WORDS_REFUSED }
    ensures says { result ≡ Ok WORDS_REFUSED → Appends (E.written errors.old) (E.written errors.new) USAGE.now
        ⊎ Rose (E.faults errors.old) (E.faults errors.new) }
    ensures refused { result ≡ Ok WORDS_REFUSED → output.new ≡ output.old }
    ensures quiet { result ≢ Ok WORDS_REFUSED → errors.new ≡ errors.old }
{
    match words {
        [word] if *word == "all" => run_all(rt, input, output),
        _ => match run(rt, words, input)? {
            Some(score) => tell(
                rt.alloc(),
                output,
                words.first().copied().unwrap_or_default(),
                score,
            ),
            None => Ok(refuse(errors)),
        },
    }
}

// Does what the words of the command line ask for, and gives the exit status. Words that are no text are refused.
fn answer<R: Env + Files + AllocGlobal, I: Source, O: Sink, E: Sink>(
    rt: &R,
    input: &mut I,
    output: &mut O,
    errors: &mut E,
) -> Result<u8, AllocError>
where
    R::File: Lockable,
{
    let Ok(arguments) = env::args(rt) else {
        return Ok(refuse(errors));
    };
    let arguments: Vec<String> = arguments.skip(1).collect(rt.alloc())?;
    let mut words = Vec::new(rt.alloc());
    for argument in &arguments {
        words.push(argument.as_str())?;
    }
    obey(rt, &words, input, output, errors)
}

fn main(rt: HostRuntime) -> ExitCode {
    let mut input = ReadSource::new(rt.stdin());
    let mut output = WriteSink::new(rt.stdout());
    let mut errors = WriteSink::new(rt.stderr());
    match answer(&rt, &mut input, &mut output, &mut errors) {
        Ok(status) => ExitCode::from(status),
        Err(_) => {
            let _ = errors.write(b"no memory\n");
            ExitCode::from(NO_MEMORY)
        }
    }
}
