ghost use Rattle.std.specs.Prelude.{◌≡◌, ◌≤◌, length, map, not, IfOk};
ghost use Rattle.std.specs.List.{list_any, filter, flat_map, position};
ghost use Rattle.irl_robots.specs.Lines.{lines, line_of};
ghost use Rattle.irl_robots.specs.Groups.{is_named as named, is_star, is_for, is_token_octet as token_octet, token as token_by, outline_of, rules_of, obeyed as obeyed_by};
ghost use Rattle.irl_robots.specs.Agents.{are_meant};
ghost use Rattle.irl_base.specs.Limits.{max_robots};

use crate::lines::{Line, Lines, parse, text_of};
use crate::octets::normalized;
use crate::rule::PathRule;
use irl_offer::Text;
use std::alloc::{AllocError, Global};

/// Whose groups are read.
#[derive(Clone, Copy)]
enum Agents<'a> {
    /// The agent with this product token.
    Named(&'a [u8]),
    /// All agents, by `*`.
    All,
}

impl Agents<'_> {
    /// Whether a user-agent value is for these.
    fn are_meant(&self, value: &[u8]) -> bool
        ensures { result ≡ are_meant self.now value.now }
    {
        match self {
            Agents::Named(agent) => is_named(agent, value),
            Agents::All => value == b"*".as_slice(),
        }
    }
}

/// The rules of a file that the agent with this product token obeys, in the order of their lines.
#[tactic(auto, unfolding(crate::specs::Groups::obeyed))]
pub fn obeyed(alloc: Global, bytes: &[u8], agent: &[u8]) -> Result<Vec<PathRule>, AllocError>
    ensures { IfOk result (λ rules. rules.items ≡ obeyed_by bytes.now agent.now) }
{
    let text = text_of(bytes);
    let agents = if has_group(text, agent) {
        Agents::Named(agent)
    } else {
        Agents::All
    };
    rules_for(alloc, text, agents)
}

/// The rules of the groups that are for these agents, in the order of their lines.
fn rules_for(alloc: Global, text: &[u8], agents: Agents<'_>) -> Result<Vec<PathRule>, AllocError>
    requires { length text.now ≤ max_robots }
    ensures { IfOk result (λ rules. rules.items ≡ flat_map rules_of
        (filter (is_for (are_meant agents.entry)) (outline_of 1 (map line_of (lines text.now))).groups)) }
{
    let mut rules = Vec::new(alloc);
    let mut number = 0;
    let mut opening = false;
    let mut meant = false;
    for line in Lines(text) {
        number += 1;
        match parse(line) {
            Line::Agent(value) => {
                meant = agents.are_meant(value) || opening && meant;
                opening = true;
            }
            Line::Access(allow, value) => {
                opening = false;
                if meant && !value.is_empty() {
                    let pattern = Text::from_vec(normalized(alloc, value)?);
                    rules.push(PathRule {
                        line: number,
                        allow,
                        pattern,
                    })?;
                }
            }
            Line::Other => {}
        }
    }
    Ok(rules)
}

/// Whether some group names the agent.
fn has_group(text: &[u8], agent: &[u8]) -> bool
    ensures { result ≡ list_any (is_for (named agent.now)) (outline_of 1 (map line_of (lines text.now))).groups }
{
    for line in Lines(text) {
        if let Line::Agent(value) = parse(line)
            && is_named(agent, value)
        {
            return true;
        }
    }
    false
}

/// Whether a user-agent value names the agent, without regard to case.
fn is_named(agent: &[u8], value: &[u8]) -> bool
    ensures { result ≡ named agent.now value.now }
{
    let token = token(value);
    !token.is_empty() && token.eq_ignore_ascii_case(agent)
}

/// The product token of a user-agent value.
fn token(value: &[u8]) -> &[u8]
    ensures { result.now ≡ token_by value.now }
{
    match token_end(value) {
        Some(end) => &value[..end],
        None => value,
    }
}

/// The place of the first octet that product tokens don't have.
fn token_end(value: &[u8]) -> Option<usize>
    ensures { result ≡ position (λ c. not (token_octet c)) value.now }
{
    value.iter().position(|c| !is_token_octet(*c))
}

/// Whether product tokens have this octet.
fn is_token_octet(octet: u8) -> bool
    ensures { result ≡ token_octet octet }
{
    octet.is_ascii_alphabetic() || octet == b'-' || octet == b'_'
}
