//! Tests of `irl_http`, `irl_polite`, `irl_record`, `irl_answer`, `irl_wire`, `irl_fetch` and `irl_workers`. They stand here,
//! since a crate that has tests itself is proved twice.
#![tactic(auto)]

#[cfg(test)]
mod answer;
#[cfg(test)]
mod fetch;
#[cfg(test)]
mod helpers;
#[cfg(test)]
mod http;
#[cfg(test)]
mod polite;
#[cfg(test)]
mod record;
#[cfg(test)]
mod tapes;
#[cfg(test)]
mod wire;
#[cfg(test)]
mod workers;
