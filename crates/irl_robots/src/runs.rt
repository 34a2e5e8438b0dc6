ghost use Rattle.std.specs.Prelude.{◌≡◌, ◌↔◌, ◌==◌, ◌&&◌, ℕ, drop, length, IsTrue, MatchOption};
ghost use Rattle.std.specs.Bool.{OnTrue};
ghost use Rattle.irl_robots.specs.Matching.{matches, is_empty, some_end};
ghost use Rattle.irl_robots.specs.Runs.{AreLiteral, IsSplit, StandsNowhere, IsPastFirst};
ghost use Rattle.memchr.specs.Find.{FindsNeedle, Nowhere, Passes, is_byte};

use memchr::{memchr, memmem};

/// From this length on the search for a run takes a while to prepare.
const LONG: usize = 32;

/// Whether a pattern matches a path, both in normal form. It takes no memory, and time linear in both.
pub fn is_match(pattern: &[u8], path: &[u8]) -> bool
    ensures { result ≡ matches pattern.now path.now }
{
    let mut rest = pattern;
    let mut left = path;
    while let Some((first, others)) = rest.split_first() {
        if *first == b'*' {
            return is_within(others, left);
        }
        if is_end_mark(*first, others) {
            return left.is_empty();
        }
        let Some((octet, behind)) = left.split_first() else {
            return false;
        };
        if *octet != *first {
            return false;
        }
        rest = others;
        left = behind;
    }
    true
}

/// Whether the first octet of a pattern is a `$` at its end.
fn is_end_mark(first: u8, others: &[u8]) -> bool
    ensures { result ≡ ((first == 36) && is_empty others.now) }
{
    first == b'$' && others.is_empty()
}

/// Whether a pattern matches some end of a path. Each run of octets before a `*` is sought once, from where the one
/// before it ended: its leftmost place serves as well as any later one.
fn is_within(pattern: &[u8], path: &[u8]) -> bool
    ensures { result ≡ some_end (matches pattern.now) path.now }
{
    let mut rest = pattern;
    let mut left = path;
    while let Some((run, behind)) = split_star(rest) {
        let Some(further) = past(left, run) else {
            return false;
        };
        left = further;
        rest = behind;
    }
    match rest.split_last() {
        Some((last, run)) if *last == b'$' => is_end(run, left),
        _ => find(left, rest).is_some(),
    }
}

/// The octets of a pattern before its first `*`, and those behind it.
fn split_star(pattern: &[u8]) -> Option<(&[u8], &[u8])>
    ensures { MatchOption result
        (AreLiteral pattern.now)
        (λ split. IsSplit pattern.now split.0.now split.1.now) }
{
    match memchr(b'*', pattern) {
        Some(star) => Some((&pattern[..star], &pattern[star + 1..])),
        None => None,
    }
}

/// What follows the first place at which a run of octets stands in a path.
fn past<'a>(path: &'a [u8], run: &[u8]) -> Option<&'a [u8]>
    ensures { MatchOption result
        (StandsNowhere path.now run.now)
        (λ rest. IsPastFirst path.now run.now rest.now) }
{
    match find(path, run) {
        Some(at) => Some(&path[at + run.len()..]),
        None => None,
    }
}

/// The first place at which a run of octets stands in a path.
fn find(path: &[u8], run: &[u8]) -> Option<usize>
    ensures { FindsNeedle path.now run.now 0 result }
{
    if path.len() < run.len() || run.len() > LONG && is_missing(run[run.len() - 1], path) {
        return None;
    }
    memmem::find(path, run)
}

/// Whether a path lacks an octet.
fn is_missing(octet: u8, path: &[u8]) -> bool
    ensures { OnTrue result (Nowhere (Passes (is_byte octet) path.now) 0 (length path.now)) }
{
    memchr(octet, path).is_none()
}

/// Whether a path ends with a run of octets.
fn is_end(run: &[u8], path: &[u8]) -> bool
    ensures { IsTrue result ↔ ((k : ℕ) × (drop k path.now ≡ run.now)) }
{
    run.len() <= path.len() && &path[path.len() - run.len()..] == run
}
