//! What is asked of a store, against its settings and against what settings may be.

ghost use Rattle.std.specs.Prelude.{◌≡◌, ◌↔◌, ◌≤◌, IfSome, None};
ghost use Rattle.std.specs.Option.{option_map};
ghost use Rattle.irl_offer.specs.Settings.{AreValid};
ghost use Rattle.irl_head.specs.Head.{rule_number as number_of_rule};
ghost use Rattle.irl_head.specs.Asking.{Agrees, IsBadAsked, IsOther, asked_numbers as asked_numbers_of};

use crate::ranges::{SETTINGS, first_bad_number, kind_number, numbers_of, rule_number};
use irl_offer::{Asked, Rule, Settings};

/// The first setting that was asked for otherwise than it is kept: its number, as it is kept, and as it was asked.
pub fn first_other(asked: &Asked, kept: &Settings) -> Option<(u8, u64, u64)>
    ensures found { IfSome result (λ other. IsOther asked.now kept.now other.0 other.1 other.2) }
    ensures none { result ≡ None → Agrees asked.now kept.now }
{
    let wanted = asked_numbers(asked);
    let kept = numbers_of(kept);
    for i in 0..SETTINGS {
        if let Some(number) = wanted[i] {
            if number != kept[i] {
                return Some((i as u8 + 1, kept[i], number));
            }
        }
    }
    None
}

/// The first setting that is out of its range, by its number.
pub fn first_bad(settings: &Settings) -> Option<u8>
    ensures found { IfSome result (IsBadAsked settings.now) }
    ensures none { (result ≡ None) ↔ AreValid settings.now }
{
    first_bad_number(&numbers_of(settings))
}

// What is asked of each setting, setting 1 first.
fn asked_numbers(asked: &Asked) -> [Option<u64>; 11]
    ensures { result ≡ asked_numbers_of asked.now }
{
    [
        Some(kind_number(asked.kind)),
        asked_rule(asked.rule),
        wide(asked.buckets),
        wide(asked.array),
        wide(asked.trigger),
        wide(asked.block),
        asked.cap,
        wide(asked.queues),
        wide(asked.base),
        wide(asked.most),
        wide(asked.ranks),
    ]
}

// The number of a rule that is asked for.
fn asked_rule(rule: Option<Rule>) -> Option<u64>
    ensures { result ≡ option_map number_of_rule rule }
{
    match rule {
        Some(rule) => Some(rule_number(rule)),
        None => None,
    }
}

// The same number.
fn wide(number: Option<u32>) -> Option<u64>
    ensures { result ≡ number }
{
    match number {
        Some(number) => Some(u64::from(number)),
        None => None,
    }
}
