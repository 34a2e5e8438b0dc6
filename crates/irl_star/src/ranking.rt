ghost use Rattle.std.specs.Prelude.{◌≡◌, IfOk};
ghost use Rattle.std.specs.Prelude.{map as list_map};
ghost use Rattle.irl_star.specs.Ranks.{AreRanks, IsRanking, domain_of};

use std::alloc::{AllocError, Global};
use std::cmp::Reverse;
use std::collections::BTreeMap;

/// The domains with their degrees, the greatest degree first, and at one degree by text.
pub fn ranked<'a>(
    alloc: Global,
    degrees: &'a BTreeMap<Vec<u8>, u64>,
) -> Result<Vec<(Reverse<u64>, &'a [u8])>, AllocError>
    ensures { IfOk result (λ ranked. IsRanking degrees.now.entries ranked.items) }
{
    let mut ranked = Vec::with_capacity(alloc, degrees.len())?;
    for (pld, degree) in degrees {
        ranked.push((Reverse(*degree), pld.as_slice()))?;
    }
    ranked.sort()?;
    Ok(ranked)
}

/// The rank of each domain that ranks before `ranks`.
pub fn ranks_of(
    alloc: Global,
    ranked: &[(Reverse<u64>, &[u8])],
    ranks: u32,
) -> Result<BTreeMap<Vec<u8>, u32>, AllocError>
    ensures { IfOk result (λ rank_of. AreRanks (list_map domain_of ranked.now) ranks rank_of) }
{
    let mut rank_of = BTreeMap::new(alloc);
    let count = ranked.len().min(ranks as usize);
    for rank in 0..count {
        let text = ranked[rank].1.to_vec(alloc)?;
        rank_of.insert(text, rank as u32)?;
    }
    Ok(rank_of)
}
