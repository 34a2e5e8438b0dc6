ghost use Rattle.std.specs.Prelude.{◌≡◌, ◌<◌, ℕ, nat_eq, filter, map, length, All, IfOk};
ghost use Rattle.std.specs.List.Sorted.{IsNonDecreasingBy};
ghost use Rattle.irl_merge.specs.Queries.{bare_entry, numbered};

use irl_offer::{Entry, Op};
use std::alloc::{AllocError, Global};

/// What an entry asks of the set, with its place among the entries.
#[derive(Clone, Copy)]
pub struct Query {
    pub key: u64,
    pub place: usize,
    pub op: Op,
    pub value: u64,
}

/// What the entries ask, in the order of their keys, and for one key in the order of their places.
pub fn sorted(alloc: Global, entries: &[Entry]) -> Result<Vec<Query>, AllocError>
    ensures order { IfOk result (λ queries. IsNonDecreasingBy (λ q. q.key) queries.items) }
    ensures same { IfOk result (λ queries. (key : ℕ) → filter (λ q. nat_eq key q.key) queries.items
        ≡ filter (λ q. nat_eq key q.key) (numbered 0 (map bare_entry entries.now))) }
    ensures count { IfOk result (λ queries. length queries.items ≡ length entries.now) }
    ensures placed { IfOk result (λ queries. All (λ q. q.place < length queries.items) queries.items) }
{
    let mut queries = Vec::with_capacity(alloc, entries.len())?;
    for (place, entry) in entries.iter().enumerate() {
        queries.push(Query {
            key: entry.key,
            place,
            op: entry.op,
            value: entry.value,
        })?;
    }
    // This sort is stable: those of one key keep their order.
    queries.sort_by_key(|query| query.key)?;
    Ok(queries)
}
