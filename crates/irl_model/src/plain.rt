ghost use Rattle.std.specs.Prelude.{◌≡◌, ◌≤◌, ◌++◌, ℕ, length, take, drop, replicate, IfOk, OnOk};
ghost use Rattle.irl_offer.specs.Buckets.{IsBucketCount};
ghost use Rattle.irl_model.specs.Book.{judged as judged_of, judged_offers as judged_offers_of, stretch, uniques as uniques_of};
ghost use Rattle.irl_base.specs.Lists.{items_of};
ghost use Rattle.irl_model.specs.Plain.{whole_book};

use crate::KeySet;
use irl_offer::{Judged, Offer, Rule, Verdict, bucket_of};
use std::alloc::{AllocError, Global};

// Another offer of the same parts.
fn copied(alloc: Global, offer: &Offer) -> Result<Offer, AllocError>
    ensures { IfOk result (λ copy. copy ≡ offer.now) }
{
    Ok(Offer {
        op: offer.op,
        key: offer.key,
        value: offer.value,
        from: offer.from,
        aux: offer.aux.copy(alloc)?,
    })
}

// Puts copies of a list's offers from one number to another behind the others.
fn push_part(
    alloc: Global,
    offers: &mut Vec<Offer>,
    list: &[Offer],
    from: u64,
    to: u64,
) -> Result<(), AllocError>
    ensures { OnOk result (offers.new.items ≡ offers.old.items ++ drop from (take to list.now)) }
{
    let end = to.min(list.len() as u64);
    let start = from.min(end);
    for offer in &list[start as usize..end as usize] {
        offers.push(copied(alloc, offer)?)?;
    }
    Ok(())
}

// Puts copies of the offers from one cut to another behind the others, bucket 0 first.
fn push_stretch(
    alloc: Global,
    offers: &mut Vec<Offer>,
    lists: &[Vec<Offer>],
    from: &[u64],
    to: &[u64],
) -> Result<(), AllocError>
    ensures { OnOk result ((buckets : ℕ) → length lists.now ≤ buckets → offers.new.items
        ≡ offers.old.items ++ stretch (replicate buckets 0) from.now to.now (items_of lists.now)) }
{
    let count = lists.len().min(from.len()).min(to.len());
    for b in 0..count {
        push_part(alloc, offers, &lists[b], from[b], to[b])?;
    }
    Ok(())
}

/// Copies of the offers that are judged of a book that has these lists and these cuts, and has dropped none, in the order in
/// which its merges judged them.
pub fn judged_offers(
    alloc: Global,
    buckets: u32,
    lists: &[Vec<Offer>],
    cuts: &[Vec<u64>],
) -> Result<Vec<Offer>, AllocError>
    ensures { (rule : Rule) → IfOk result (λ offers.
        offers.items ≡ judged_offers_of (whole_book buckets rule (items_of lists.now) (items_of cuts.now))) }
{
    let lists = &lists[..lists.len().min(buckets as usize)];
    let mut offers = Vec::new(alloc);
    let mut from = vec![in alloc; 0; buckets as usize]?;
    for cut in cuts {
        push_stretch(alloc, &mut offers, lists, &from, cut)?;
        from = cut.to_vec(alloc)?;
    }
    Ok(offers)
}

/// What is judged of a book that has these lists and these cuts, and has dropped none: each offer with its verdict, in the
/// order in which its merges judged them.
pub fn judged(
    alloc: Global,
    buckets: u32,
    rule: Rule,
    lists: &[Vec<Offer>],
    cuts: &[Vec<u64>],
) -> Result<Vec<Judged>, AllocError>
    requires { IsBucketCount buckets }
    ensures { IfOk result (λ judged.
        judged.items ≡ judged_of (whole_book buckets rule (items_of lists.now) (items_of cuts.now))) }
{
    let mut seen = KeySet::new(alloc);
    let mut judged = Vec::new(alloc);
    for offer in judged_offers(alloc, buckets, lists, cuts)? {
        let bucket = bucket_of(offer.key, buckets);
        let verdict = seen.ask(rule, &offer)?;
        judged.push(Judged {
            bucket,
            offer,
            verdict,
        })?;
    }
    Ok(judged)
}

/// Of those the ones that were judged Unique, each with its number: its place in that order.
pub fn uniques(
    alloc: Global,
    buckets: u32,
    rule: Rule,
    lists: &[Vec<Offer>],
    cuts: &[Vec<u64>],
) -> Result<Vec<(u64, Offer)>, AllocError>
    requires { IsBucketCount buckets }
    ensures { IfOk result (λ uniques.
        uniques.items ≡ uniques_of (whole_book buckets rule (items_of lists.now) (items_of cuts.now))) }
{
    let mut uniques = Vec::new(alloc);
    let judged = judged(alloc, buckets, rule, lists, cuts)?;
    for (number, Judged { offer, verdict, .. }) in judged.into_iter().enumerate() {
        if matches!(verdict, Some(Verdict::Unique)) {
            uniques.push((number as u64, offer))?;
        }
    }
    Ok(uniques)
}
