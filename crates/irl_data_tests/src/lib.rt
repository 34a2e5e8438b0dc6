//! Tests of the crates of plain data, of URLs, domains, robots files and pages, and of what a crawl keeps in memory. They stand
//! here since a crate that has tests itself is proved twice.
#![tactic(auto)]

#[cfg(test)]
mod base;
#[cfg(test)]
mod beast;
#[cfg(test)]
mod events;
#[cfg(test)]
mod fate;
#[cfg(test)]
mod frontier;
#[cfg(test)]
mod helpers;
#[cfg(test)]
mod host;
#[cfg(test)]
mod key;
#[cfg(test)]
mod model;
#[cfg(test)]
mod offer;
#[cfg(test)]
mod pld;
#[cfg(test)]
mod report;
#[cfg(test)]
mod robots;
#[cfg(test)]
mod scan;
#[cfg(test)]
mod star;
#[cfg(test)]
mod steps;
