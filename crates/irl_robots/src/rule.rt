ghost use Rattle.std.specs.Prelude.{◌≡◌, ◌↔◌, IsTrue, IfSome, IfNone};
ghost use Rattle.std.specs.Option.{option_copied};
ghost use Rattle.irl_robots.specs.Heads.{head_of, heads_of};
ghost use Rattle.irl_robots.specs.Normal.{normal};
ghost use Rattle.irl_robots.specs.Target.{normal_of, IsSummed};
ghost use Rattle.irl_robots.specs.Rule.{WinsOver, wins_over, best_after, best_rule, IsBest, NoneMatches};

use crate::heads::{Head, SUMS, write_sums};
use crate::octets::write_normal;
use crate::target::Target;
use irl_offer::Text;
use std::cmp::Ordering;

/// A rule of a robots file.
#[derive(Drop)]
pub struct PathRule {
    /// The number of its line, from 1.
    pub line: u32,
    /// Whether it allows the paths that it matches.
    pub allow: bool,
    /// Its pattern in normal form.
    pub pattern: Text,
}

impl PathRule {
    /// Whether this rule is obeyed before the other where both match.
    fn wins_over(&self, other: &PathRule) -> bool
        ensures value { result ≡ wins_over self.now other.now }
        ensures meaning { IsTrue result ↔ WinsOver self.now other.now }
    {
        let octets = self.pattern.bytes().len();
        let others = other.pattern.bytes().len();
        match octets.cmp(&others) {
            Ordering::Greater => true,
            Ordering::Less => false,
            Ordering::Equal if self.allow != other.allow => self.allow,
            Ordering::Equal => self.line < other.line,
        }
    }
}

/// The most octets of a target in normal form that are held while its rule is sought: as many as 2,058 octets can
/// have.
const MOST: usize = 6_174;

/// The best of the rules that match a path, by the heads of their patterns and then by the patterns. It takes no
/// memory.
pub fn best<'a>(rules: &'a [PathRule], heads: &[Head], path: &[u8]) -> Option<&'a PathRule>
    requires { heads.now ≡ heads_of rules.now }
    ensures value { option_copied result ≡ best_rule rules.now (normal path.now) }
    ensures best { IfSome result (λ best. IsBest rules.now (normal path.now) best.now) }
    ensures none { IfNone result (NoneMatches rules.now (normal path.now)) }
{
    let mut buffer = [0; MOST];
    match write_normal(path, &mut buffer) {
        Some(end) => {
            let mut sums = [0; SUMS];
            write_sums(&buffer[..end], &mut sums);
            best_for(rules, heads, Target::Normal(&buffer[..end], &sums))
        }
        None => best_for(rules, heads, Target::Written(path)),
    }
}

/// The same for a target.
fn best_for<'a>(rules: &'a [PathRule], heads: &[Head], target: Target<'_>) -> Option<&'a PathRule>
    requires heads { heads.now ≡ heads_of rules.now }
    requires summed { IsSummed target }
    ensures { option_copied result ≡ best_rule rules.now (normal_of target.entry) }
{
    let mut best: Option<&PathRule> = None;
    for (i, head) in heads.iter().enumerate() {
        best = better(best, &rules[i], head, target);
    }
    best
}

/// The better of the best rule so far and one more, where that one matches.
fn better<'a>(
    best: Option<&'a PathRule>,
    rule: &'a PathRule,
    head: &Head,
    target: Target<'_>,
) -> Option<&'a PathRule>
    requires head { head.now ≡ head_of rule.now.pattern }
    requires summed { IsSummed target }
    ensures { option_copied result ≡ best_after (normal_of target.entry) (option_copied best.entry) rule.now }
{
    if !target.may_begin(head) {
        return best;
    }
    let wins = match best {
        None => true,
        Some(held) => rule.wins_over(held),
    };
    if wins && target.is_matched_by(rule.pattern.bytes()) {
        Some(rule)
    } else {
        best
    }
}
