ghost use Rattle.std.specs.Prelude.{◌≡◌, ◌||◌, ◌==◌, ◌+◌, take, IfOk};
ghost use Rattle.std.specs.List.{before_first, position};
ghost use Rattle.irl_robots.specs.Heads.{is_special, front_of as front_by, sum_after as after, sum_of as sum_by, head_of as head_by, heads_of as heads_by};
ghost use Rattle.irl_robots.specs.Target.{AreSums};

use crate::lines::front;
use crate::rule::PathRule;
use std::alloc::{AllocError, Global};

/// How many octets of a pattern are looked at before the pattern itself, at most.
const MOST: usize = 64;

/// How many sums of a target's first octets are enough.
pub const SUMS: usize = 65;

/// The first octets of a pattern, which stand for themselves, by their number and a sum of them.
#[derive(Clone, Copy)]
pub struct Head {
    pub len: usize,
    pub sum: u32,
}

/// The heads of the patterns of rules.
pub fn heads_of(alloc: Global, rules: &[PathRule]) -> Result<Vec<Head>, AllocError>
    ensures { IfOk result (λ heads. heads.items ≡ heads_by rules.now) }
{
    rules
        .iter()
        .map(|rule| head_of(rule.pattern.bytes()))
        .collect(alloc)
}

/// The head of a pattern in normal form.
#[tactic(auto, unfolding(crate::specs::Heads::head_of))]
fn head_of(pattern: &[u8]) -> Head
    ensures { result ≡ head_by pattern.now }
{
    let octets = front(before_special(pattern), MOST);
    Head {
        len: octets.len(),
        sum: sum_of(octets),
    }
}

/// The octets of a pattern before the first that may not stand for itself.
fn before_special(pattern: &[u8]) -> &[u8]
    ensures { result.now ≡ before_first is_special pattern.now }
{
    match special_place(pattern) {
        Some(at) => &pattern[..at],
        None => pattern,
    }
}

/// The place of the first octet that may not stand for itself.
fn special_place(pattern: &[u8]) -> Option<usize>
    ensures { result ≡ position is_special pattern.now }
{
    pattern.iter().position(|c| *c == b'*' || *c == b'$')
}

/// A sum of octets that tells most of them from others.
#[tactic(auto, unfolding(crate::specs::Heads::sum_of))]
fn sum_of(octets: &[u8]) -> u32
    ensures { result ≡ sum_by octets.now }
{
    let mut sum = 0;
    for octet in octets {
        sum = sum_after(sum, *octet);
    }
    sum
}

/// The sum with one octet more.
fn sum_after(sum: u32, octet: u8) -> u32
    ensures { result ≡ after sum octet }
{
    ((u64::from(sum) * 31 + u64::from(octet)) % 4_294_967_296) as u32
}

/// Writes at each place the sum of as many octets of a path.
pub fn write_sums(path: &[u8], sums: &mut [u32])
    ensures { AreSums sums.new path.now }
{
    let mut sum = 0;
    for (i, slot) in sums.iter_mut().enumerate() {
        *slot = sum;
        sum = sum_behind(sum, path, i);
    }
}

/// The sum of one octet more of a path than this many, or the same at its end.
fn sum_behind(sum: u32, path: &[u8], octets: usize) -> u32
    ensures { sum ≡ sum_by (take octets path.now) → result ≡ sum_by (take (octets + 1) path.now) }
{
    if octets < path.len() {
        sum_after(sum, path[octets])
    } else {
        sum
    }
}
