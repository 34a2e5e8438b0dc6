ghost use Rattle.std.specs.Prelude.{◌≡◌, ◌≤◌, ◌+◌, [], vec_capacity};
ghost use Rattle.irl_offer.specs.Buckets.{IsBucketCount};
ghost use Rattle.irl_lock.specs.Books.{buckets_of};

use crate::held::Held;
use crate::rule::Rule;
use crate::view::View;
use atomic_table::Table;
use irl_array::Array;
use irl_disk::Store;
use irl_yard::Yard;
use std::alloc::Global;
use std::snapshot::Snapshot;

pub type Board<S> = Table<Option<Held<S>>, View<S>, Snapshot<Yard<S>>, Rule, Global>;

/// An open store with an array in front of each bucket, which several passes use at the same time.
pub struct Shared<S: Store> {
    pub(crate) alloc: Global,
    pub(crate) table: Board<S>,
    pub(crate) buckets: u32,
    // Room for the arrays, when they come back.
    pub(crate) spare: Vec<Array>,
    ghost words: { table.shared.table_id.words ≡ (buckets + 1) + buckets },
    ghost slots: { table.shared.table_id.slots ≡ buckets + 1 },
    ghost valid: { IsBucketCount buckets },
    ghost buckets_are: { buckets ≡ buckets_of table.shared.key.value },
    ghost room: { (spare.items ≡ []) × (buckets ≤ vec_capacity spare) },
}
