//! Tests of `irl_words`, `irl_tuple`, `irl_crawl` and `irl_top`. They stand here, since a crate that has tests itself is proved
//! twice.
#![tactic(auto)]

#[cfg(test)]
mod crawl;
#[cfg(test)]
mod runs;
#[cfg(test)]
mod tapes;
#[cfg(test)]
mod top;
#[cfg(test)]
mod tuple;
#[cfg(test)]
mod words;
