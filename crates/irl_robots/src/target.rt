ghost use Rattle.std.specs.Prelude.{◌≡◌};
ghost use Rattle.irl_robots.specs.Matching.{matches};
ghost use Rattle.irl_robots.specs.Target.{normal_of, may_begin};

use crate::heads::Head;
use crate::{matching, runs};

/// A target that is asked for, as it is compared with patterns.
#[derive(Clone, Copy)]
pub enum Target<'a> {
    /// In normal form, with the sums of its first octets.
    Normal(&'a [u8], &'a [u32]),
    /// As it was written.
    Written(&'a [u8]),
}

impl Target<'_> {
    /// Whether it may begin with the octets of a head.
    pub fn may_begin(&self, head: &Head) -> bool
        ensures { result ≡ may_begin self.now head.now }
    {
        match self {
            Target::Normal(octets, sums) => {
                head.len <= octets.len() && head.len < sums.len() && sums[head.len] == head.sum
            }
            Target::Written(_) => true,
        }
    }

    /// Whether a pattern in normal form matches it.
    pub fn is_matched_by(&self, pattern: &[u8]) -> bool
        ensures { result ≡ matches pattern.now (normal_of self.now) }
    {
        match self {
            Target::Normal(octets, _) => runs::is_match(pattern, octets),
            Target::Written(path) => matching::is_match(pattern, path),
        }
    }
}
