ghost use Rattle.std.specs.Prelude.{◌≡◌, ◌↔◌, IsTrue};
ghost use Rattle.irl_offer.specs.Buckets.{is_bucket_count as is_bucket_count_of};

use crate::Rule;

/// What a store is for.
#[derive(Clone, Copy, Debug, PartialEq, Eq)]
pub enum Kind {
    /// Lines that are told apart by their text.
    Lines,
    /// Tuples of a key and a value.
    Tuples,
    /// A crawl.
    Crawl,
}

/// What a store was made with. It stays as it is.
#[derive(Clone, Copy, Debug, PartialEq, Eq)]
pub struct Settings {
    pub kind: Kind,
    /// How a key's values combine.
    pub rule: Rule,
    /// How many buckets the keys are spread over: a power of two from 1 to 64.
    pub buckets: u32,
    /// How many offers a bucket's array holds: 1 to 8,192.
    pub array: u32,
    /// At how many unjudged offers of a bucket a merge runs: 1 to 1,048,576.
    pub trigger: u32,
    /// How many entries of the cache are read at once: 1 to 65,536.
    pub block: u32,
    /// How many offers a bucket may be given: 1 to 1,099,511,627,776.
    pub cap: u64,
    /// How many queues a crawl begins with: 1 to 64.
    pub queues: u32,
    /// The budget of a domain that few others link to: 1 to 1,000,000 pages a pass.
    pub base: u32,
    /// The budget of the domain that most others link to: `base` to 1,000,000.
    pub most: u32,
    /// How many domains have more than `base`: 1 to 1,000,000.
    pub ranks: u32,
}

/// What is asked of a store: of one that is there, that it was made with these; of a new one, that it is. What isn't asked is as
/// it is, and in a new store the default.
#[derive(Clone, Copy, Debug, PartialEq, Eq)]
pub struct Asked {
    pub kind: Kind,
    pub rule: Option<Rule>,
    pub buckets: Option<u32>,
    pub array: Option<u32>,
    pub trigger: Option<u32>,
    pub block: Option<u32>,
    pub cap: Option<u64>,
    pub queues: Option<u32>,
    pub base: Option<u32>,
    pub most: Option<u32>,
    pub ranks: Option<u32>,
}

/// Whether this is a number of buckets: a power of two from 1 to 64.
fn is_bucket_count(buckets: u32) -> bool
    ensures { result ≡ is_bucket_count_of buckets }
{
    buckets == 1
        || buckets == 2
        || buckets == 4
        || buckets == 8
        || buckets == 16
        || buckets == 32
        || buckets == 64
}

impl Settings {
    ghost use Rattle.irl_offer.specs.Settings.{AreValid, AreValidBudgets, AreValidSizes, settings_of};

    /// The settings of a new store. The defaults are the rule `Keep`, 16 buckets, arrays of 1,024, a merge at 16,384, blocks of
    /// 4,096, a cap of 1,099,511,627,776, 2 queues, and budgets from 10 to 10,000 over 10,000 ranks.
    pub fn of_new_store(asked: &Asked) -> Settings
        ensures { result ≡ settings_of asked.now }
    {
        Settings {
            kind: asked.kind,
            rule: asked.rule.unwrap_or(Rule::Keep),
            buckets: asked.buckets.unwrap_or(16),
            array: asked.array.unwrap_or(1_024),
            trigger: asked.trigger.unwrap_or(16_384),
            block: asked.block.unwrap_or(4_096),
            cap: asked.cap.unwrap_or(1_099_511_627_776),
            queues: asked.queues.unwrap_or(2),
            base: asked.base.unwrap_or(10),
            most: asked.most.unwrap_or(10_000),
            ranks: asked.ranks.unwrap_or(10_000),
        }
    }

    /// Whether the sizes lie in their ranges.
    fn has_valid_sizes(&self) -> bool
        ensures { IsTrue result ↔ AreValidSizes self.now }
    {
        (1..=8_192).contains(&self.array)
            && (1..=1_048_576).contains(&self.trigger)
            && (1..=65_536).contains(&self.block)
            && (1..=1_099_511_627_776).contains(&self.cap)
    }

    /// Whether the queues and the budgets lie in their ranges.
    fn has_valid_budgets(&self) -> bool
        ensures { IsTrue result ↔ AreValidBudgets self.now }
    {
        (1..=64).contains(&self.queues)
            && (1..=1_000_000).contains(&self.base)
            && (self.base..=1_000_000).contains(&self.most)
            && (1..=1_000_000).contains(&self.ranks)
    }

    /// Whether each setting lies in its range.
    pub fn is_valid(&self) -> bool
        ensures { IsTrue result ↔ AreValid self.now }
    {
        is_bucket_count(self.buckets) && self.has_valid_sizes() && self.has_valid_budgets()
    }
}
