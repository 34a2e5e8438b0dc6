ghost use Rattle.std.specs.Prelude.{◌≡◌, ◌≢◌, ◌↔◌, ℕ, map, false, Some, codes, IsFalse, IfOk, IfSome, IfNone, IsNone};
ghost use Rattle.std.specs.List.{All};
ghost use Rattle.std.specs.List.Sorted.{IsStrictlyIncreasing};
ghost use Rattle.irl_robots.specs.Groups.{obeyed as obeyed_by};
ghost use Rattle.irl_robots.specs.Normal.{normal};
ghost use Rattle.irl_robots.specs.Numbered.{IsOfLine, said_by};
ghost use Rattle.irl_robots.specs.Rule.{rule, allows, IsVerdict, NoneMatches};

use crate::groups::obeyed;
use crate::heads::{Head, heads_of};
use crate::rule::{PathRule, best};
use std::alloc::{AllocError, Global};
use std::marker::Model;

/// The path of the robots file itself.
const ROBOTS_FILE: &[u8] = b"/robots.txt";

/// The rules of a robots file that an agent obeys. Contracts see them as a list of rules.
#[derive(Drop)]
pub struct Robots {
    rules: Vec<PathRule>,
    /// The heads of their patterns, by which most rules are passed over.
    heads: Vec<Head>,
}

impl Model for Robots {
    ghost use Rattle.std.specs.Prelude.{◌≡◌, List};
    ghost use Rattle.irl_robots.specs.declared.rule.PathRule.{PathRule};
    ghost use Rattle.irl_robots.specs.Heads.{heads_of};

    ghost Value = { List PathRule };

    ghost view = { λ r. r.rules.items };

    ghost invariant = { λ r. r.heads.items ≡ heads_of r.rules.items };
}

impl Robots {
    ghost use Rattle.irl_robots.specs.declared.rule.PathRule.{PathRule};

    /// Reads a robots file, of which the first 512,000 bytes count, for the agent with this product token. Any bytes
    /// are a file.
    pub fn read(alloc: Global, bytes: &[u8], agent: &[u8]) -> Result<Robots, AllocError>
        ensures value { IfOk result (λ robots. robots ≡ obeyed_by bytes.now agent.now) }

        // Each rule is what the line with its number says, and no line has two.
        ensures lines { IfOk result (All (IsOfLine (said_by bytes.now))) }
        ensures order { IfOk result (λ robots. IsStrictlyIncreasing (map (λ (r : PathRule). r.line) robots)) }
    {
        let rules = obeyed(alloc, bytes, agent)?;
        let heads = heads_of(alloc, &rules)?;
        Ok(Robots { rules, heads })
    }

    /// The line of the rule that holds for a target, which is a path with its query, and whether it allows.
    #[tactic(auto, unfolding(crate::specs::Rule::rule))]
    pub fn by(&self, target: &[u8]) -> Option<(u32, bool)>
        ensures value { result ≡ rule self.now target.now }

        // It is the best of the rules that match, and there is none only where none matches.
        ensures best { IfSome result (IsVerdict self.now (normal target.now)) }
        ensures none { IfNone result
            (target.now ≢ codes "/robots.txt" → NoneMatches self.now (normal target.now)) }
        ensures robots_file { target.now ≡ codes "/robots.txt" → IsNone result }
    {
        if target == ROBOTS_FILE {
            return None;
        }
        best(&self.rules, &self.heads, target).map(|rule| (rule.line, rule.allow))
    }

    /// Whether a target, which is a path with its query, may be fetched.
    pub fn allows(&self, target: &[u8]) -> bool
        ensures value { result ≡ allows (rule self.now target.now) }
        ensures denied { IsFalse result ↔ ((line : ℕ) × (rule self.now target.now ≡ Some (line, false))) }
    {
        match self.by(target) {
            None => true,
            Some((_, allow)) => allow,
        }
    }
}
