ghost use Rattle.std.specs.Prelude.{◌≡◌, map, false, option_map, IfOk, IfErr, IfSome, Ok, Err};
ghost use Rattle.clap.specs.Words.{found_of, one_of, rows_of, IsUnsignedIn};
ghost use Rattle.irl_offer.specs.Buckets.{is_bucket_count as is_bucket_count_of, IsBucketCount};
ghost use Rattle.irl_offer.specs.Settings.{AreValidSizes, settings_of};
ghost use Rattle.irl_words.specs.Options.{budgets_options, rules_of, run_options, settings_options};
ghost use Rattle.irl_words.specs.Rows.{AreInRange, AreMatches};
ghost use Rattle.irl_words.specs.Words.{asked_for as asked_for_of, checked as checked_of, decided, has_most_below_base};
ghost use Rattle.irl_words.specs.Words.{checked_run, crawl_in, run_in, with_budgets, with_settings};
ghost use Rattle.irl_words.specs.declared.command.Command.TheVariants.{Replay};
ghost use Rattle.irl_words.specs.Words.{is_agent as is_agent_of, is_token as is_token_of};
ghost use Rattle.irl_words.specs.Words.{is_token_byte as is_token_byte_of};
ghost use Rattle.irl_words.specs.Words.{command_named, command_of, number_in, rule_in, AreRunOptions};
ghost use Rattle.irl_words.specs.Words.{IsCause, IsFaultWith, IsInRange, IsRefusedBy};

use crate::commands::command;
use crate::name::Name;
use crate::{Command, RunOptions, WordFault};
use clap::ArgMatches;
use clap::error::ErrorKind;
use irl_offer::{Asked, Kind, Rule, Text};
use std::alloc::{AllocError, Global};

/// Reads the words behind the folder's. The first picks the command, and the others are its options: each takes one
/// value, as `--name VALUE` or `--name=VALUE`, and is given at most once. An option that isn't named asks nothing of a
/// store, and in a run is its default; only `--port` of `crawl` has to be named. `gen` also takes a word, its number of
/// pages.
///
/// Words that are no command are refused with one of them: `-` where there is none; the first where it names no
/// command, or where an option is unknown, given twice, without a value or with a value out of its range, where one
/// that has to be there isn't, and where a further word stands. Where all the words are taken it is `--buckets` where
/// that number is no power of two, `--most` where it is below that of `--base`, or `--agent` where that is no name of an
/// agent, the first of these. Want of memory may come at any time.
pub fn read_words(alloc: Global, words: &[&str]) -> Result<Command, WordFault>
    ensures command { IfOk result (λ command. command_of (map (λ word. word.now) words.now) ≡ Ok command) }
    ensures range { IfOk result IsInRange }
    ensures refused { IfErr result (IsCause (map (λ word. word.now) words.now)) }
{
    match words {
        [] => Err(refusal(alloc, "-")),
        [word, ..] => match Name::of(word) {
            Some(name) => read_command(alloc, name, word, words),
            None => Err(refusal(alloc, word)),
        },
    }
}

// The fault of words that are refused with this one.
fn refusal(alloc: Global, word: &str) -> WordFault
    ensures { IsFaultWith word.now result }
{
    match Text::from_bytes(alloc, word.as_bytes()) {
        Ok(word) => WordFault::Refused(word),
        Err(_) => WordFault::Memory,
    }
}

// Reads the words of a command, of which this is the first.
fn read_command(alloc: Global, name: Name, word: &str, words: &[&str]) -> Result<Command, WordFault>
    ensures command { IfOk result (λ command.
        command_named name word.now (map (λ word. word.now) words.now) ≡ Ok command) }
    ensures range { IfOk result IsInRange }
    ensures refused { IfErr result (IsRefusedBy (command_named name word.now (map (λ word. word.now) words.now))) }
{
    match take(alloc, name, words)? {
        Some(matches) => decide(alloc, name, word, &matches),
        None => Err(refusal(alloc, word)),
    }
}

// The values that a command's words give its options, where they take the words.
fn take<'a>(
    alloc: Global,
    name: Name,
    words: &'a [&'a str],
) -> Result<Option<ArgMatches<'a>>, AllocError>
    ensures { IfOk result (AreMatches name (map (λ word. word.now) words.now)) }
{
    match command(alloc, name)?.try_get_matches_from(words) {
        Ok(matches) => Ok(Some(matches)),
        Err(error) if error.kind() == ErrorKind::OutOfMemory => Err(AllocError),
        Err(_) => Ok(None),
    }
}

// The command of this name with these values of its options, or the word with which they are refused.
fn decide(alloc: Global, name: Name, word: &str, matches: &ArgMatches) -> Result<Command, WordFault>
    requires { AreInRange (rules_of name) (rows_of (found_of matches.now)) }
    ensures command { IfOk result (λ command. decided name word.now (rows_of (found_of matches.now)) ≡ Ok command) }
    ensures range { IfOk result IsInRange }
    ensures refused { IfErr result (IsRefusedBy (decided name word.now (rows_of (found_of matches.now)))) }
{
    match name {
        Name::Seen => {
            let asked = settings(asked_for(Kind::Lines, None), matches);
            Ok(Command::Seen(checked(alloc, asked)?))
        }
        Name::Drum => match rule(matches.get_str("rule")) {
            Some(rule) => {
                let asked = settings(asked_for(Kind::Tuples, rule), matches);
                Ok(Command::Drum(checked(alloc, asked)?))
            }
            None => Err(refusal(alloc, word)),
        },
        Name::Replay => {
            let (asked, options) = crawl(alloc, matches)?;
            Ok(Command::Replay(asked, options))
        }
        Name::Crawl => match small_number(matches, "port") {
            Some(port) => {
                let (asked, options) = crawl(alloc, matches)?;
                Ok(Command::Crawl(asked, options, port))
            }
            None => Err(refusal(alloc, word)),
        },
        Name::Gen => match number(matches, "size") {
            Some(pages) => {
                let (asked, options) = crawl(alloc, matches)?;
                Ok(Command::Gen(asked, options, pages))
            }
            None => Err(refusal(alloc, word)),
        },
        Name::Show => Ok(Command::Show),
        Name::List => Ok(Command::List),
    }
}

// What a crawl asks of a store and how it is run, or the option with which they are refused: the first of these.
fn crawl(alloc: Global, matches: &ArgMatches) -> Result<(Asked, RunOptions), WordFault>
    requires settings { AreInRange settings_options (rows_of (found_of matches.now)) }
    requires budgets { AreInRange budgets_options (rows_of (found_of matches.now)) }
    requires run { AreInRange run_options (rows_of (found_of matches.now)) }
    ensures crawl { IfOk result (λ crawl. crawl_in (rows_of (found_of matches.now)) ≡ Ok crawl) }
    ensures range { IfOk result (λ crawl. IsInRange (Replay crawl.0 crawl.1)) }
    ensures refused { IfErr result (IsRefusedBy (crawl_in (rows_of (found_of matches.now)))) }
{
    let asked = settings(asked_for(Kind::Crawl, None), matches);
    let asked = checked(alloc, budgets(asked, matches))?;
    Ok((asked, run(alloc, matches)?))
}

// What is asked of a store, or the option with which it is refused: the first of these.
fn checked(alloc: Global, asked: Asked) -> Result<Asked, WordFault>
    ensures asked { IfOk result (λ same. checked_of asked ≡ Ok same) }
    ensures same { IfOk result (λ same. same ≡ asked) }
    ensures buckets { IfOk result (λ same. IsBucketCount (settings_of same).buckets) }
    ensures budgets { IfOk result (λ same. has_most_below_base same ≡ false) }
    ensures refused { IfErr result (IsRefusedBy (checked_of asked)) }
{
    match asked {
        Asked {
            buckets: Some(buckets),
            ..
        } if !is_bucket_count(buckets) => Err(refusal(alloc, "--buckets")),
        Asked {
            base: Some(base),
            most: Some(most),
            ..
        } if most < base => Err(refusal(alloc, "--most")),
        _ => Ok(asked),
    }
}

// Whether this is a number of buckets: a power of two from 1 to 64.
fn is_bucket_count(buckets: u32) -> bool
    ensures { result ≡ is_bucket_count_of buckets }
{
    matches!(buckets, 1 | 2 | 4 | 8 | 16 | 32 | 64)
}

// A store of this kind with this rule, and nothing else of it.
fn asked_for(kind: Kind, rule: Option<Rule>) -> Asked
    ensures { result ≡ asked_for_of kind rule }
{
    Asked {
        kind,
        rule,
        buckets: None,
        array: None,
        trigger: None,
        block: None,
        cap: None,
        queues: None,
        base: None,
        most: None,
        ranks: None,
    }
}

// The same with the sizes that the options name.
fn settings(asked: Asked, matches: &ArgMatches) -> Asked
    requires { AreInRange settings_options (rows_of (found_of matches.now)) }
    ensures value { result ≡ with_settings (rows_of (found_of matches.now)) asked }
    ensures range { AreValidSizes (settings_of result) }
{
    Asked {
        buckets: number(matches, "buckets"),
        array: number(matches, "array"),
        trigger: number(matches, "trigger"),
        block: number(matches, "block"),
        cap: large_number(matches, "cap"),
        ..asked
    }
}

// The same with the queues and the budgets that they name.
fn budgets(asked: Asked, matches: &ArgMatches) -> Asked
    requires { AreInRange budgets_options (rows_of (found_of matches.now)) }
    ensures { result ≡ with_budgets (rows_of (found_of matches.now)) asked }
{
    Asked {
        queues: number(matches, "queues"),
        base: number(matches, "base"),
        most: number(matches, "most"),
        ranks: number(matches, "ranks"),
        ..asked
    }
}

// The rule that the value of `--rule` asks for, none where it isn't named; nothing where the value is no rule.
fn rule(word: Option<&str>) -> Option<Option<Rule>>
    ensures { result ≡ rule_in (option_map (λ word. word.now) word.entry) }
{
    match word {
        None => Some(None),
        Some("keep") => Some(Some(Rule::Keep)),
        Some("replace") => Some(Some(Rule::Replace)),
        Some("add") => Some(Some(Rule::Add)),
        Some(_) => None,
    }
}

// The options of a run, or the one with which they are refused.
fn run(alloc: Global, matches: &ArgMatches) -> Result<RunOptions, WordFault>
    requires { AreInRange run_options (rows_of (found_of matches.now)) }
    ensures options { IfOk result (λ options. checked_run (run_in (rows_of (found_of matches.now))) ≡ Ok options) }
    ensures range { IfOk result AreRunOptions }
    ensures refused { IfErr result (IsRefusedBy (checked_run (run_in (rows_of (found_of matches.now))))) }
{
    let agent = matches.get_str("agent").unwrap_or("irlbot");
    if !is_agent(agent) {
        return Err(refusal(alloc, "--agent"));
    }
    Ok(RunOptions {
        workers: number(matches, "workers").unwrap_or(1),
        delay: large_number(matches, "delay").unwrap_or(1_000),
        pages: number(matches, "pages").unwrap_or(1_000_000),
        batch: number(matches, "batch").unwrap_or(4_096),
        agent: Text::from_bytes(alloc, agent.as_bytes())?,
    })
}

// Whether this is a name of an agent: 1 to 64 letters, `-` or `_`.
fn is_agent(name: &str) -> bool
    ensures { result ≡ is_agent_of name.now }
{
    is_token(name.as_bytes()) && name.len() <= 64
}

// Whether this is a product token: letters, `-` and `_`, at least one.
fn is_token(name: &[u8]) -> bool
    ensures { result ≡ is_token_of name.now }
{
    !name.is_empty() && name.iter().all(|byte| is_token_byte(*byte))
}

// Whether a token may have this byte.
fn is_token_byte(byte: u8) -> bool
    ensures { result ≡ is_token_byte_of byte }
{
    byte.is_ascii_alphabetic() || byte == b'-' || byte == b'_'
}

// The number that an option names.
fn number(matches: &ArgMatches, option: &str) -> Option<u32>
    requires { IfSome (one_of option.now (rows_of (found_of matches.now))) (IsUnsignedIn 0 4294967295) }
    ensures { result ≡ number_in option.now (rows_of (found_of matches.now)) }
{
    matches.get_one::<u32>(option)
}

// The same of an option that takes smaller ones.
fn small_number(matches: &ArgMatches, option: &str) -> Option<u16>
    requires { IfSome (one_of option.now (rows_of (found_of matches.now))) (IsUnsignedIn 0 65535) }
    ensures { result ≡ number_in option.now (rows_of (found_of matches.now)) }
{
    matches.get_one::<u16>(option)
}

// The same of an option that takes larger ones.
fn large_number(matches: &ArgMatches, option: &str) -> Option<u64>
    requires { IfSome (one_of option.now (rows_of (found_of matches.now))) (IsUnsignedIn 0 18446744073709551615) }
    ensures { result ≡ number_in option.now (rows_of (found_of matches.now)) }
{
    matches.get_one::<u64>(option)
}
