ghost use Rattle.std.specs.Prelude.{◌≡◌, ◌<◌, ◌^◌, IfOk, map, false};
ghost use Rattle.std.specs.List.{fold, AllByRecursion};
ghost use Rattle.clap.specs.Words.{app_of, rule_of, with_rule};
ghost use Rattle.irl_words.specs.Tables.{rule_of_argument, valued, IsSmall};

use clap::{Arg, Command, value_parser};
use std::alloc::{AllocError, Global};

/// What a command is given: an option `--name`, which has one value, or a word in its place.
pub(crate) struct Argument {
    pub(crate) name: &'static str,
    pub(crate) form: Form,
    pub(crate) value: Value,
    /// What the help says of it.
    pub(crate) help: &'static str,
}

/// How it is given.
pub(crate) enum Form {
    /// As `--name VALUE`, or not at all.
    Optional,
    /// As `--name VALUE`, always.
    Required,
    /// As the word VALUE, always.
    Positional,
}

/// What its value may be.
pub(crate) enum Value {
    /// A number from the first to the second.
    Number(u64, u64),
    /// Any word. The help has this for it.
    Word(&'static str),
}

/// The sizes of a store.
pub(crate) const SETTINGS: [Argument; 5] = [
    Argument {
        name: "buckets",
        form: Form::Optional,
        value: Value::Number(1, 64),
        help: "Buckets that keys are spread over, a power of two from 1 to 64 (16)",
    },
    Argument {
        name: "array",
        form: Form::Optional,
        value: Value::Number(1, 8_192),
        help: "Offers of a bucket that wait in memory, 1 to 8192 (1024)",
    },
    Argument {
        name: "trigger",
        form: Form::Optional,
        value: Value::Number(1, 1_048_576),
        help: "Unjudged offers of a bucket at which all are judged, 1 to 1048576 (16384)",
    },
    Argument {
        name: "block",
        form: Form::Optional,
        value: Value::Number(1, 65_536),
        help: "Keys that a merge goes through at a time, 1 to 65536 (4096)",
    },
    Argument {
        name: "cap",
        form: Form::Optional,
        value: Value::Number(1, 1_099_511_627_776),
        help: "Offers that a bucket may be given in all, 1 to 1099511627776 (1099511627776)",
    },
];

/// The queues and the budgets of a crawl.
pub(crate) const BUDGETS: [Argument; 4] = [
    Argument {
        name: "queues",
        form: Form::Optional,
        value: Value::Number(1, 64),
        help: "Queues that the crawl begins with, 1 to 64 (2)",
    },
    Argument {
        name: "base",
        form: Form::Optional,
        value: Value::Number(1, 1_000_000),
        help: "URLs of a domain that a pass lets through where few link to it, 1 to 1000000 (10)",
    },
    Argument {
        name: "most",
        form: Form::Optional,
        value: Value::Number(1, 1_000_000),
        help: "The same of the domain that most link to, from the base to 1000000 (10000)",
    },
    Argument {
        name: "ranks",
        form: Form::Optional,
        value: Value::Number(1, 1_000_000),
        help: "Domains that may have more than the base, 1 to 1000000 (10000)",
    },
];

/// How a crawl is run.
pub(crate) const RUN: [Argument; 5] = [
    Argument {
        name: "workers",
        form: Form::Optional,
        value: Value::Number(1, 64),
        help: "Workers that fetch, 1 to 64 (1)",
    },
    Argument {
        name: "delay",
        form: Form::Optional,
        value: Value::Number(0, 86_399_999),
        help: "Milliseconds between the starts of two fetches of a host, 0 to 86399999 (1000)",
    },
    Argument {
        name: "pages",
        form: Form::Optional,
        value: Value::Number(1, 4_294_967_295),
        help: "URLs after which the run ends, 1 to 4294967295 (1000000)",
    },
    Argument {
        name: "batch",
        form: Form::Optional,
        value: Value::Number(1, 16_384),
        help: "URLs that a turn takes at most, 1 to 16384 (4096)",
    },
    Argument {
        name: "agent",
        form: Form::Optional,
        value: Value::Word("NAME"),
        help: "Name that robots files are read for, 1 to 64 letters, - or _ (irlbot)",
    },
];

/// The rule of `drum`.
pub(crate) const RULE: Argument = Argument {
    name: "rule",
    form: Form::Optional,
    value: Value::Word("RULE"),
    help: "How the values of a key combine: keep, replace or add (keep)",
};

/// The port of `crawl`.
pub(crate) const PORT: Argument = Argument {
    name: "port",
    form: Form::Required,
    value: Value::Number(1, 65_535),
    help: "Port of 127.0.0.1 at which every host is reached, 1 to 65535; it has to be named",
};

/// The size of the site of `gen`.
pub(crate) const SIZE: Argument = Argument {
    name: "size",
    form: Form::Positional,
    value: Value::Number(1, 100_000),
    help: "Pages of the site, 1 to 100000",
};

impl Argument {
    // The argument, as a command has it.
    fn arg<'a>(&self, alloc: Global) -> Arg<'a>
        requires { IsSmall self.now }
        ensures rule { rule_of result ≡ rule_of_argument self.now }
        ensures local { result.global ≡ false }
    {
        let arg = self.valued(alloc);
        match self.form {
            Form::Optional => arg.long(self.name),
            Form::Required => arg.long(self.name).required(true),
            Form::Positional => arg.required(true),
        }
    }

    // The same, as far as its value goes.
    fn valued<'a>(&self, alloc: Global) -> Arg<'a>
        requires { IsSmall self.now }
        ensures rule { rule_of result ≡ valued self.now.name.now self.now.value }
        ensures local { result.global ≡ false }
    {
        let arg = Arg::new(alloc, self.name).help(self.help);
        match self.value {
            Value::Number(least, most) => arg
                .value_name("N")
                .value_parser(value_parser!(u64).range(least as i64..=most as i64)),
            Value::Word(name) => arg.value_name(name),
        }
    }
}

/// Gives a command some arguments more.
pub(crate) fn with_arguments<'a>(
    alloc: Global,
    command: Command<'a>,
    arguments: &[Argument],
) -> Result<Command<'a>, AllocError>
    requires { AllByRecursion IsSmall arguments.now }
    ensures { IfOk result (λ wider.
        app_of wider ≡ fold with_rule (app_of command.entry) (map rule_of_argument arguments.now)) }
{
    let mut command = command;
    for argument in arguments {
        command = command.arg(argument.arg(alloc))?;
    }
    Ok(command)
}
