use crate::runs::same;
use irl_offer::{Asked, Kind};
use irl_words::{Command, RunOptions, WordFault, help, read_words};
use std::alloc::{AllocError, Global};
use std::test::Fail;

// What a command asks of a store where no option is named.
const LINES: Asked = Asked {
    kind: Kind::Lines,
    rule: None,
    buckets: None,
    array: None,
    trigger: None,
    block: None,
    cap: None,
    queues: None,
    base: None,
    most: None,
    ranks: None,
};

const TUPLES: Asked = Asked {
    kind: Kind::Tuples,
    ..LINES
};

const CRAWL: Asked = Asked {
    kind: Kind::Crawl,
    ..LINES
};

// What is asked where all are.
const ALL: Asked = Asked {
    buckets: Some(1),
    array: Some(2),
    trigger: Some(3),
    block: Some(4),
    cap: Some(5),
    queues: Some(6),
    base: Some(7),
    most: Some(8),
    ranks: Some(9),
    ..CRAWL
};

// The workers, the delay, the pages, the batch and the agent of a run.
type Run = (u32, u64, u32, u32, &'static str);

const DEFAULT: Run = (1, 1_000, 1_000_000, 4_096, "irlbot");

const ALL_OF_RUN: Run = (2, 10, 11, 12, "Foo-bot");

// The longest name of an agent.
const LONGEST: &str = "abcdefghijklmnopqrstuvwxyzABCDEFGHIJKLMNOPQRSTUVWXYZ-_abcdefghij";

// Words, what they ask of a store, how they run, and their port or their pages.
type Row = (&'static [&'static str], Asked, Option<Run>, Option<u32>);

// All options but the command's own, one for each of a store and of a run.
const READ: [Row; 8] = [
    (&["seen"], LINES, None, None),
    (&["drum"], TUPLES, None, None),
    (&["replay"], CRAWL, Some(DEFAULT), None),
    (
        &["replay", "--most=9", "--delay=0", "--agent=_"],
        Asked {
            most: Some(9),
            ..CRAWL
        },
        Some((1, 0, 1_000_000, 4_096, "_")),
        None,
    ),
    (
        &[
            "replay",
            "--agent",
            LONGEST,
            "--batch=16384",
            "--pages=4294967295",
            "--delay=86399999",
            "--workers=+64",
        ],
        CRAWL,
        Some((64, 86_399_999, 4_294_967_295, 16_384, LONGEST)),
        None,
    ),
    (
        &[
            "replay",
            "--buckets=1",
            "--array=2",
            "--trigger=3",
            "--block=4",
            "--cap=5",
            "--queues=6",
            "--base=7",
            "--most=8",
            "--ranks=9",
            "--workers=2",
            "--delay=10",
            "--pages=11",
            "--batch=12",
            "--agent=Foo-bot",
        ],
        ALL,
        Some(ALL_OF_RUN),
        None,
    ),
    (
        &[
            "crawl",
            "--port",
            "80",
            "--buckets=1",
            "--array=2",
            "--trigger=3",
            "--block=4",
            "--cap=5",
            "--queues=6",
            "--base=7",
            "--most=8",
            "--ranks=9",
            "--workers=2",
            "--delay=10",
            "--pages=11",
            "--batch=12",
            "--agent=Foo-bot",
        ],
        ALL,
        Some(ALL_OF_RUN),
        Some(80),
    ),
    (
        &[
            "gen",
            "5",
            "--buckets=1",
            "--array=2",
            "--trigger=3",
            "--block=4",
            "--cap=5",
            "--queues=6",
            "--base=7",
            "--most=8",
            "--ranks=9",
            "--workers=2",
            "--delay=10",
            "--pages=11",
            "--batch=12",
            "--agent=Foo-bot",
        ],
        ALL,
        Some(ALL_OF_RUN),
        Some(5),
    ),
];

// Whether a command has these options of a run.
fn runs_so(options: &RunOptions, run: Option<Run>) -> bool {
    let Some((workers, delay, pages, batch, agent)) = run else {
        return false;
    };
    let numbers = (options.workers, options.delay, options.pages);
    numbers == (workers, delay, pages)
        && options.batch == batch
        && options.agent.bytes() == agent.as_bytes()
}

// Whether a command is that of a row.
fn is_of_row(command: &Command, row: &Row) -> bool {
    let (words, asked, run, number) = row;
    let word = words.first().copied().unwrap_or("");
    match command {
        Command::Seen(read) => word == "seen" && read == asked,
        Command::Drum(read) => word == "drum" && read == asked,
        Command::Replay(read, options) => {
            word == "replay" && read == asked && runs_so(options, *run)
        }
        Command::Crawl(read, options, port) => {
            word == "crawl"
                && read == asked
                && runs_so(options, *run)
                && *number == Some(u32::from(*port))
        }
        Command::Gen(read, options, pages) => {
            word == "gen" && read == asked && runs_so(options, *run) && *number == Some(*pages)
        }
        Command::Show | Command::List => false,
    }
}

fn is_read(alloc: Global, row: &Row) -> Result<bool, AllocError> {
    match read_words(alloc, row.0) {
        Ok(command) => Ok(is_of_row(&command, row)),
        Err(WordFault::Refused(_)) => Ok(false),
        Err(WordFault::Memory) => Err(AllocError),
    }
}

#[test]
fn words_are_read(rt: HostRuntime) -> Result<(), Fail> {
    for row in &READ {
        let is_read = is_read(rt.alloc(), row)?;
        same(&rt, is_read, row.0.last().copied().unwrap_or("command"));
    }
    assert!(rt; matches!(read_words(rt.alloc(), &["show"]), Ok(Command::Show)));
    assert!(rt; matches!(read_words(rt.alloc(), &["list"]), Ok(Command::List)));
    Ok(())
}

// Whether a command and an option are refused with the command's word.
fn is_refused(alloc: Global, command: &str, option: &str) -> Result<bool, AllocError> {
    match read_words(alloc, &[command, option]) {
        Ok(_) => Ok(false),
        Err(WordFault::Refused(word)) => Ok(word.bytes() == command.as_bytes()),
        Err(WordFault::Memory) => Err(AllocError),
    }
}

// The program asks for help before it reads these words, so no run of it shows what they are.
#[test]
fn help_is_no_option(rt: HostRuntime) -> Result<(), Fail> {
    for (command, option) in [
        ("seen", "--help"),
        ("seen", "-h"),
        ("show", "--help"),
        ("list", "-h"),
        ("replay", "--help"),
    ] {
        let is_refused = is_refused(rt.alloc(), command, option)?;
        same(&rt, is_refused, command);
    }
    Ok(())
}

#[test]
fn a_command_has_its_help(rt: HostRuntime) -> Result<(), Fail> {
    let text = help(rt.alloc(), &["seen", "--help"])?.ok_or("no help")?;
    let text = str::from_utf8(text.bytes()).unwrap_or("");
    assert!(rt; text.contains("irl DIR seen [OPTIONS]"));
    assert!(rt; help(rt.alloc(), &["seen"])?.is_none());
    assert!(rt; help(rt.alloc(), &[])?.is_none());
    Ok(())
}
