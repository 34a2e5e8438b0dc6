//! The words of the program's command line: the command that they are, and the help that they ask for.
#![tactic(auto)]

mod command;
mod commands;
mod name;
mod options;
mod usage;
mod words;

pub use command::{Command, RunOptions, WordFault};
pub use usage::help;
pub use words::read_words;
