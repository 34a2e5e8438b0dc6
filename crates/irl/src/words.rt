ghost use Rattle.std.specs.Prelude.{◌≡◌, map, drop};
ghost use Rattle.irl_words.specs.Help.{is_help_word};
ghost use Rattle.irl.specs.Words.{names_no_folder, asked};
ghost use Rattle.irl.specs.Words.{folder_in, refusing_word as refusing_word_of};

/// What the words of the command line ask for.
#[derive(Clone, Copy, Debug, PartialEq, Eq)]
pub enum Request {
    /// The usage of the program.
    Help,
    /// The name of the program and its version.
    Version,
    /// Nothing that is known, and the first word names no folder: the words are refused.
    Refused,
    /// What the words behind the folder's ask for: a run over it, or the help of a command.
    Command,
}

impl Request {
    /// What these words ask for.
    pub fn from_words(words: &[&str]) -> Request
        ensures { result ≡ asked (map (λ word. word.now) words.now) }
    {
        match words {
            [] => Request::Refused,
            [first, ..] if is_help(first) => Request::Help,
            [first, ..] if *first == "--version" => Request::Version,
            [first, ..] if is_no_folder(first) => Request::Refused,
            [_, ..] => Request::Command,
        }
    }
}

/// Whether a word asks for help.
fn is_help(word: &str) -> bool
    ensures { result ≡ is_help_word word.now }
{
    word == "--help" || word == "-h"
}

/// Whether a word names no folder, as an empty one and one that begins with `-`.
fn is_no_folder(word: &str) -> bool
    ensures { result ≡ names_no_folder word.now }
{
    match word.as_bytes() {
        [] => true,
        [first, ..] => *first == b'-',
    }
}

/// The word that the words are refused with where the first names no folder: that one, or `-` where it is empty or there
/// is none.
pub fn refusing_word<'a>(words: &[&'a str]) -> &'a str
    ensures { result.now ≡ refusing_word_of (map (λ word. word.now) words.now) }
{
    match words {
        [first, ..] if !first.is_empty() => first,
        _ => "-",
    }
}

/// The folder that these words name, and the words of the command.
pub fn folder_and_command<'a>(words: &'a [&'a str]) -> (&'a str, &'a [&'a str])
    ensures folder { result.0.now ≡ folder_in (map (λ word. word.now) words.now) }
    ensures command { result.1.now ≡ drop 1 words.now }
{
    match words {
        [] => (".", &[]),
        [folder, command @ ..] => (folder, command),
    }
}
