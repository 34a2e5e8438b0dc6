ghost use Rattle.std.specs.Prelude.{◌≡◌, ◌<◌, List, Option, length, All, IfOk};
ghost use Rattle.irl_offer.specs.declared.offer.Verdict.{Verdict};
ghost use Rattle.irl_merge.specs.Queries.{AreTold};

use crate::query::Query;
use irl_offer::Verdict;
use std::alloc::{AllocError, Global};

/// The verdicts on what was asked, one on each, put in the order of the places.
pub fn in_original_order(
    alloc: Global,
    asked: &[Query],
    verdicts: &[Option<Verdict>],
) -> Result<Vec<Option<Verdict>>, AllocError>
    requires count { length verdicts.now ≡ length asked.now }
    requires placed { All (λ a. a.place < length asked.now) asked.now }
    ensures len { IfOk result (λ told. length told.items ≡ length asked.now) }
    // If there is a list that has each verdict at its place, this is one.
    ensures told { IfOk result (λ told. (right : List (Option Verdict)) →
        AreTold asked.now verdicts.now right → AreTold asked.now verdicts.now told.items) }
{
    let mut told = vec![in alloc; None; asked.len()]?;
    for (i, asked) in asked.iter().enumerate() {
        told[asked.place] = verdicts[i];
    }
    Ok(told)
}
