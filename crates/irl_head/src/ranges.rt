//! The settings as numbers, and the ranges that these lie in.

ghost use Rattle.std.specs.Prelude.{◌≡◌, ◌↔◌, ◌≤◌, IsTrue, IfSome, None};
ghost use Rattle.irl_offer.specs.Buckets.{is_bucket_count as is_bucket_count_of};
ghost use Rattle.irl_head.specs.Head.{IsInRange, setting_numbers, kind_number as number_of_kind, rule_number as number_of_rule};
ghost use Rattle.irl_head.specs.Numbers.{AreInRange, IsBadNumber};

use irl_offer::{Kind, Rule, Settings};

/// How many settings there are.
pub const SETTINGS: usize = 11;

/// The settings as numbers, setting 1 first.
pub fn numbers_of(settings: &Settings) -> [u64; 11]
    ensures { result ≡ setting_numbers settings.now }
{
    [
        kind_number(settings.kind),
        rule_number(settings.rule),
        u64::from(settings.buckets),
        u64::from(settings.array),
        u64::from(settings.trigger),
        u64::from(settings.block),
        settings.cap,
        u64::from(settings.queues),
        u64::from(settings.base),
        u64::from(settings.most),
        u64::from(settings.ranks),
    ]
}

/// The settings that numbers in their ranges are.
pub fn settings_of(numbers: &[u64; 11]) -> Settings
    requires { AreInRange numbers.now }
    ensures { setting_numbers result ≡ numbers.now }
{
    Settings {
        kind: kind_of(numbers[0]),
        rule: rule_of(numbers[1]),
        buckets: numbers[2] as u32,
        array: numbers[3] as u32,
        trigger: numbers[4] as u32,
        block: numbers[5] as u32,
        cap: numbers[6],
        queues: numbers[7] as u32,
        base: numbers[8] as u32,
        most: numbers[9] as u32,
        ranks: numbers[10] as u32,
    }
}

/// The first number that isn't in its range, by its place from 1.
pub fn first_bad_number(numbers: &[u64; 11]) -> Option<u8>
    ensures found { IfSome result (IsBadNumber numbers.now) }
    ensures none { result ≡ None → AreInRange numbers.now }
{
    for i in 0..SETTINGS {
        let n = i as u8 + 1;
        if !is_in_range(numbers[8], n, numbers[i]) {
            return Some(n);
        }
    }
    None
}

// Whether setting n may be this number, where the least budget is so much.
fn is_in_range(base: u64, n: u8, number: u64) -> bool
    ensures { IsTrue result ↔ IsInRange base n number }
{
    match n {
        1 => (1..=3).contains(&number),
        2 => number <= 2,
        3 => is_bucket_count(number),
        4 => (1..=8_192).contains(&number),
        5 => (1..=1_048_576).contains(&number),
        6 => (1..=65_536).contains(&number),
        7 => (1..=1_099_511_627_776).contains(&number),
        8 => (1..=64).contains(&number),
        9 => (1..=1_000_000).contains(&number),
        10 => (base..=1_000_000).contains(&number),
        11 => (1..=1_000_000).contains(&number),
        _ => true,
    }
}

// Whether this is a number of buckets: a power of two from 1 to 64.
fn is_bucket_count(buckets: u64) -> bool
    ensures { result ≡ is_bucket_count_of buckets }
{
    buckets == 1
        || buckets == 2
        || buckets == 4
        || buckets == 8
        || buckets == 16
        || buckets == 32
        || buckets == 64
}

/// The number that stands for a kind.
pub fn kind_number(kind: Kind) -> u64
    ensures { result ≡ number_of_kind kind }
{
    match kind {
        Kind::Lines => 1,
        Kind::Tuples => 2,
        Kind::Crawl => 3,
    }
}

// The kind that a number stands for.
fn kind_of(number: u64) -> Kind
    requires { (1 ≤ number) × (number ≤ 3) }
    ensures { number_of_kind result ≡ number }
{
    match number {
        1 => Kind::Lines,
        2 => Kind::Tuples,
        _ => Kind::Crawl,
    }
}

/// The number that stands for a rule.
pub fn rule_number(rule: Rule) -> u64
    ensures { result ≡ number_of_rule rule }
{
    match rule {
        Rule::Keep => 0,
        Rule::Replace => 1,
        Rule::Add => 2,
    }
}

// The rule that a number stands for.
fn rule_of(number: u64) -> Rule
    requires { number ≤ 2 }
    ensures { number_of_rule result ≡ number }
{
    match number {
        0 => Rule::Keep,
        1 => Rule::Replace,
        _ => Rule::Add,
    }
}
