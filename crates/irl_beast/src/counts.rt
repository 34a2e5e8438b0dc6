ghost use Rattle.std.specs.Prelude.{◌≡◌, ◌+◌, ℕ, List, IfOk, OnOk, bytes_eq, if◌then◌else◌};
ghost use Rattle.irl_beast.specs.Counts.{count_in};

use std::alloc::{AllocError, Global};
use std::collections::BTreeMap;

/// How often a domain was counted before, and counts it once more.
pub fn counted(
    alloc: Global,
    counts: &mut BTreeMap<Vec<u8>, u64>,
    pld: &[u8],
) -> Result<u64, AllocError>
    ensures before { IfOk result (λ count. count ≡ count_in counts.old.entries pld.now) }
    ensures after { OnOk result ((q : List ℕ) → count_in counts.new.entries q
        ≡ count_in counts.old.entries q + (if bytes_eq q pld.now then 1 else 0)) }
{
    let count = counts.get(pld).copied().unwrap_or(0);
    let more = count.checked_add(1).ok_or(AllocError)?;
    let text = pld.to_vec(alloc)?;
    counts.insert(text, more)?;
    Ok(count)
}
