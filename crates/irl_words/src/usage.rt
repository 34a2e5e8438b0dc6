ghost use Rattle.std.specs.Prelude.{◌≡◌, map, IfOk, is_some};
ghost use Rattle.irl_words.specs.Help.{asks_help, is_help_word};

use crate::commands::command;
use crate::name::Name;
use irl_offer::Text;
use std::alloc::{AllocError, Global};

/// The help of a command: where the first of the words behind the folder's names it, and the next one is `--help` or `-h`.
/// Other words ask for none. No clause says what the text is.
pub fn help(alloc: Global, words: &[&str]) -> Result<Option<Text>, AllocError>
    ensures { IfOk result (λ text. is_some text ≡ asks_help (map (λ word. word.now) words.now)) }
{
    match words {
        [word, option, ..] if is_help(option) => match Name::of(word) {
            Some(name) => Ok(Some(help_of(alloc, name)?)),
            None => Ok(None),
        },
        _ => Ok(None),
    }
}

// Whether a word asks for help.
fn is_help(word: &str) -> bool
    ensures { result ≡ is_help_word word.now }
{
    word == "--help" || word == "-h"
}

// The help of this command.
fn help_of(alloc: Global, name: Name) -> Result<Text, AllocError> {
    let help = command(alloc, name)?.render_help()?;
    Ok(Text::from_vec(help.into_bytes()))
}
