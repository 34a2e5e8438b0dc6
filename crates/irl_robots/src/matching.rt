ghost use Rattle.std.specs.Prelude.{◌≡◌, ◌↔◌, IsTrue};
ghost use Rattle.irl_robots.specs.Normal.{normal};
ghost use Rattle.irl_robots.specs.Matching.{matches, Matches};
ghost use Rattle.irl_robots.specs.Place.{fits, Steps};

use crate::octets::Octets;

/// What is left of a pattern and of a path.
#[derive(Clone, Copy)]
pub struct Place<'a> {
    pattern: &'a [u8],
    path: Octets<'a>,
}

/// What the first octets of a place say.
pub enum Step<'a> {
    /// The pattern matches.
    Matched,
    /// It doesn't.
    Failed,
    /// A `*` came: the place behind it.
    Star(Place<'a>),
    /// One octet was met by the same octet: the place behind both.
    Next(Place<'a>),
}

/// Whether a pattern in normal form matches a path. It takes no memory, and at most as many steps as pattern and
/// path have octets, multiplied.
pub fn is_match(pattern: &[u8], path: &[u8]) -> bool
    ensures value { result ≡ matches pattern.now (normal path.now) }
    ensures cut { IsTrue result ↔ Matches pattern.now (normal path.now) }
{
    search(Place {
        pattern,
        path: Octets::new(path),
    })
}

/// Whether what is left of the pattern matches. After a `*` the leftmost place where the octets up to the next `*`
/// fit serves as well as any later one, so no earlier `*` is tried again.
fn search(start: Place<'_>) -> bool
    ensures { result ≡ fits start.entry }
{
    let mut place = start;
    let mut retry: Option<Place> = None;
    loop {
        match advance(place) {
            Step::Matched => return true,
            Step::Star(next) => {
                retry = Some(next);
                place = next;
            }
            Step::Next(next) => place = next,
            Step::Failed => {
                let Some(mut later) = retry else {
                    return false;
                };
                if later.path.next().is_none() {
                    return false;
                }
                retry = Some(later);
                place = later;
            }
        }
    }
}

/// Looks at the first octets of a place.
fn advance(place: Place<'_>) -> Step<'_>
    ensures { Steps place.entry result }
{
    let mut path = place.path;
    let octet = path.next();
    match place.pattern {
        [] => Step::Matched,
        [b'*', pattern @ ..] => Step::Star(Place {
            pattern,
            path: place.path,
        }),
        [b'$'] => match octet {
            None => Step::Matched,
            Some(_) => Step::Failed,
        },
        [first, pattern @ ..] => match octet {
            Some(octet) if octet == *first => Step::Next(Place { pattern, path }),
            _ => Step::Failed,
        },
    }
}
