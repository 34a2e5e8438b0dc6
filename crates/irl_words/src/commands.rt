ghost use Rattle.std.specs.Prelude.{◌≡◌, IfOk};
ghost use Rattle.std.specs.List.{fold};
ghost use Rattle.clap.specs.Words.{app_of, new_app, with_rule};
ghost use Rattle.irl_words.specs.Tables.{rules_of_row, IsSmallRow};
ghost use Rattle.irl_words.specs.Options.{options_of};

use crate::name::Name;
use crate::options::{Argument, BUDGETS, PORT, RULE, RUN, SETTINGS, SIZE, with_arguments};
use clap::Command;
use std::alloc::{AllocError, Global};

/// A command: its word, its options and its help.
pub(crate) struct Row {
    word: &'static str,
    /// The options that it has in common with others, by groups.
    groups: &'static [&'static [Argument]],
    /// What it alone is given.
    own: &'static [Argument],
    usage: &'static str,
    /// What it does.
    about: &'static str,
    /// What stands below the options.
    notes: &'static str,
}

// `seen` keeps lines.
const SEEN: Row = Row {
    word: "seen",
    groups: &[&SETTINGS],
    own: &[],
    usage: "irl DIR seen [OPTIONS]",
    about: "\
Keeps the lines of standard input in the folder DIR, and prints each line that is
new. A line has at most 2,048 bytes, and empty lines are passed over. Lines are
judged many at once, bucket by bucket, and synced to the disk before they are
printed.",
    notes: NOTES_OF_LINES,
};

// `drum` keeps keys. Its help has an example.
const DRUM: Row = Row {
    word: "drum",
    groups: &[&SETTINGS],
    own: &[RULE],
    usage: "irl DIR drum [OPTIONS]",
    about: "\
Checks and updates keys that are kept in the folder DIR: reads a tuple from each
line of standard input, and prints each verdict. A line is `c KEY` to check,
`u KEY VALUE` to update, or `b KEY VALUE` or `b KEY VALUE TEXT` for both; a key has
1 to 16 lower-case hexadecimal digits.

    $ printf 'b 1f 7 first\\nc 1f\\nc 2\\n' | irl DIR drum --buckets 1
    unique 000000000000001f first
    known 000000000000001f 7
    absent 0000000000000002",
    notes: NOTES_OF_LINES,
};

// `replay` crawls what was recorded. Its help has examples.
const REPLAY: Row = Row {
    word: "replay",
    groups: &[&SETTINGS, &BUDGETS, &RUN],
    own: &[],
    usage: "irl DIR replay [OPTIONS]",
    about: "\
Crawls the pages of a tape, which standard input is, keeps in the folder DIR what
it finds and what comes of it, and prints the report, as `show` does. It goes on
from what the folder has, and ends where no URL waits, or after --pages of them.

A tape has lines `suffix NAME`, `seed URL` and `lost URL`, and pages: each a line
`page STATUS KIND URL`, of KIND html or other, `to URL` where it leads elsewhere,
lines `|TEXT` of its body, and `end`. URLs that aren't on it answer 404.

    $ cat tape
    seed http://a.test/
    page 200 html http://a.test/
    |<a href=\"/x\">x</a>
    end
    $ irl DIR replay --pages 1 <tape | grep fresh
    fresh 1
    $ irl DIR replay <tape | grep done
    done 2
    $ irl DIR list
    0 page http://a.test/
    1 status:404 http://a.test/x",
    notes: NOTES_OF_A_CRAWL,
};

// `crawl` crawls what answers on this machine. Its help has an example.
const CRAWL: Row = Row {
    word: "crawl",
    groups: &[&SETTINGS, &BUDGETS, &RUN],
    own: &[PORT],
    usage: "irl DIR crawl --port N [OPTIONS]",
    about: "\
Crawls sites that answer on this machine: every host is reached at 127.0.0.1 on the
port of --port, whatever its URLs say, and is sent its own name in `Host:`. Keeps in
the folder DIR what it finds and what comes of it, and prints the report, as `show`
does. It goes on from what the folder has, and ends where no URL waits, or after
--pages of them.

Standard input is a tape without pages: lines `suffix NAME` and `seed URL`.

    $ python3 -m http.server 8080 >log 2>&1 &
    $ echo 'seed http://a.test/' | irl DIR crawl --port 8080 --pages 1 | grep page
    page 1",
    notes: NOTES_OF_A_CRAWL,
};

// `gen` crawls what is made up. Its help has an example.
const GEN: Row = Row {
    word: "gen",
    groups: &[&SETTINGS, &BUDGETS, &RUN],
    own: &[SIZE],
    usage: "irl DIR gen N [OPTIONS]",
    about: "\
Crawls a made-up site of N pages, keeps in the folder DIR what it finds and what comes
of it, and prints the report, as `show` does. It reads no input. It goes on from what
the folder has, and ends where no URL waits, or after --pages of them.

Page I is http://sH.test/pI, where H is I mod 16. It leads to the pages 2 * I + 1 and
2 * I + 2, where the site has these, and to the page (7 * I + 3) mod N. The crawl
begins at page 0.

    $ irl DIR gen 2000 | grep -e unique -e pairs -e done
    unique 2000
    pairs 44
    done 2000",
    notes: NOTES_OF_A_MADE_SITE,
};

// `show` reports what a store has.
const SHOW: Row = Row {
    word: "show",
    groups: &[],
    own: &[],
    usage: "irl DIR show",
    about: "\
Prints the report of the store in the folder DIR, whatever kind it is of: 18 lines
`NAME N`. It changes nothing, reads no input and has no options. Where there is no
store, each number is 0.

offers is how many lines or links were given, judged how many of them are judged,
and unique how many distinct ones that makes; pairs is how many distinct pairs of
domains link to one another. fresh, queued, last, front and done count the unique
ones by what became of them, and the last nine those that are done by outcome.

    $ printf 'a\\nb\\na\\n' | irl DIR seen >new
    $ irl DIR show | head -n 3
    offers 3
    judged 3
    unique 2
    $ irl DIR show | grep fresh
    fresh 2",
    notes: NOTES_OF_A_LOOK,
};

// `list` tells what became of each URL.
const LIST: Row = Row {
    word: "list",
    groups: &[],
    own: &[],
    usage: "irl DIR list",
    about: "\
Prints a line `NUMBER FATE TEXT` for each line, key or URL that was judged unique
in the store in the folder DIR, by rising number. It changes nothing, reads no
input and has no options. Where there is no store, it prints nothing.

A number is the place in the order in which all were judged, from 0 on. A fate is
fresh, queue:I, last or front where the URL waits, and else what came of it: page,
moved, status:N, denied:N, shut, lost, bad, large or coded.

    $ printf 'a\\na\\nb\\n' | irl DIR seen --buckets 1 >new
    $ irl DIR list
    0 fresh a
    2 fresh b
    $ irl DIR list | cut -d ' ' -f 3-
    a
    b",
    notes: NOTES_OF_A_LOOK,
};

// What stands below the options of a command that takes in lines.
const NOTES_OF_LINES: &str = "\
In brackets stands what a new store gets. A store keeps what it was made with: an
option that isn't named takes that, and another value is refused.

Exit status: 0 done, 1 words refused, 2 a line refused, 3 not a store, damaged or
made with other settings, 4 disk fault, 5 input fault, 6 output fault,
7 no memory, 8 a bucket full.";

// The same of one that crawls.
const NOTES_OF_A_CRAWL: &str = "\
In brackets stands what a new store gets, and from --workers on what each run gets.
A store keeps what it was made with, from --buckets to --ranks: one of these that
isn't named takes that, and another value is refused.

Exit status: 0 done, 1 words refused, 2 a line refused, 3 not a store, damaged or
made with other settings, 4 disk fault, 5 input fault, 6 output fault,
7 no memory, 8 a bucket full.";

// The same of one that makes up what it crawls, and reads no input.
const NOTES_OF_A_MADE_SITE: &str = "\
In brackets stands what a new store gets, and from --workers on what each run gets.
A store keeps what it was made with, from --buckets to --ranks: one of these that
isn't named takes that, and another value is refused.

Exit status: 0 done, 1 words refused, 3 not a store, damaged or made with other
settings, 4 disk fault, 6 output fault, 7 no memory, 8 a bucket full.";

// The same of one that only looks at a store.
const NOTES_OF_A_LOOK: &str = "\
Exit status: 0 done, 1 words refused, 3 not a store or damaged, 4 disk fault,
6 output fault, 7 no memory.";

/// A command with its options and its help.
pub(crate) fn command<'a>(alloc: Global, name: Name) -> Result<Command<'a>, AllocError>
    ensures { IfOk result (λ command. app_of command ≡ options_of name) }
{
    match name {
        Name::Seen => command_of_row(alloc, &SEEN),
        Name::Drum => command_of_row(alloc, &DRUM),
        Name::Replay => command_of_row(alloc, &REPLAY),
        Name::Crawl => command_of_row(alloc, &CRAWL),
        Name::Gen => command_of_row(alloc, &GEN),
        Name::Show => command_of_row(alloc, &SHOW),
        Name::List => command_of_row(alloc, &LIST),
    }
}

// The command of a row.
fn command_of_row<'a>(alloc: Global, row: &Row) -> Result<Command<'a>, AllocError>
    requires { IsSmallRow row.now }
    ensures { IfOk result (λ command.
        app_of command ≡ fold with_rule (new_app row.now.word.now) (rules_of_row row.now)) }
{
    let mut command = Command::new(alloc, row.word)
        .override_usage(row.usage)
        .about(row.about)
        .after_help(row.notes);
    for group in row.groups {
        command = with_arguments(alloc, command, group)?;
    }
    with_arguments(alloc, command, row.own)
}
