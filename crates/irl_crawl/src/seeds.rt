ghost use Rattle.std.specs.Prelude.{◌≡◌, ◌≤◌, ℕ, List, Some, length, IfOk, IsErrOf, OnOk};
ghost use Rattle.std.specs.List.{AllByRecursion};
ghost use Rattle.irl_base.specs.Limits.{max_text};
ghost use Rattle.irl_base.specs.declared.fault.Fault.TheVariants.{Failed as FailedFault};
ghost use Rattle.irl_offer.specs.Offering.{IsTakenBy};
ghost use Rattle.irl_key.specs.Links.{IsCanonicalText};
ghost use Rattle.irl_answer.specs.Found.{IsTaken, offer_from};
ghost use Rattle.irl_fetch.specs.Telling.{TakesPages};
ghost use Rattle.irl_yard.specs.Passing.{suffixes_in};
ghost use Rattle.irl_desk.specs.Serving.{serving_of};
ghost use Rattle.irl_crawl.specs.Batches.{Batches, just};
ghost use Rattle.irl_crawl.specs.Judging.{Judges, OnlyJudges};
ghost use Rattle.irl_crawl.specs.Leading.{IsOpen, IsSent, KeepsFront, Leads};
ghost use Rattle.irl_crawl.specs.Offering.{OnlySeeds, Seeds};
ghost use Rattle.irl_crawl.specs.Refusing.{RefusesAsFound};
ghost use Rattle.irl_crawl.specs.Seeding.{OffersSeeds};

use irl_desk::{Desk, serves_same};
use irl_disk::Store;
use irl_key::{Web, key_of};
use irl_offer::{Fault, Offer, Offers, Op, Text};
use irl_yard::Yard;
use std::alloc::{AllocError, Global};
use std::sync::Wait;

/// Offers the seeds, and judges them and what was left unjudged; then the pairs are sent.
pub fn seed<R: Wait, S: Store>(
    rt: &R,
    alloc: Global,
    yard: Yard<S>,
    seeds: &[Web],
) -> (Result<(), Fault>, Yard<S>)
    requires open { IsOpen yard.parts }
    requires short { AllByRecursion (λ text. length text ≤ max_text) seeds.now }
    ensures leads { (suffixes : List ℕ) → suffixes_in yard.parts.rest ≡ Some suffixes →
        Leads (IsErrOf result.0 Fault.Failed) (OnlySeeds suffixes yard.parts.urls.settings seeds.now)
        (Seeds result.0 suffixes yard.parts.urls.settings seeds.now) yard.parts result.1.parts
        (S.told yard.store) (S.told result.1.store) }
    ensures refused { RefusesAsFound result.0 result.1.parts (S.told result.1.store) }
    ensures keeps { OnOk result.0 (KeepsFront yard.parts result.1.parts × IsSent result.1.parts) }
    ensures batches { Batches (IsErrOf result.0 Fault.Failed) (just 1 1) (just 1 1) yard.parts result.1.parts
        (S.told yard.store) (S.told result.1.store) }
{
    let _is_sound = yard.is_sound();
    let mut desk = match Desk::open(alloc, yard) {
        Ok(desk) => desk,
        Err(yard) => return (Err(Fault::Memory), yard),
    };
    let offered = offer_seeds(rt, alloc, &mut desk, seeds);
    let (closed, yard) = desk.close();
    let mut yard = yard;
    if let Err(fault) = closed {
        return (Err(fault), yard);
    }
    if let Err(fault) = offered {
        return (Err(fault), yard);
    }
    let judged = judge(&mut yard);
    (judged, yard)
}

/// Judges what is unjudged, and sends the pairs of what was judged.
pub fn judge<S: Store>(yard: &mut Yard<S>) -> Result<(), Fault>
    requires open { IsOpen yard.old.parts }
    ensures leads { (suffixes : List ℕ) → suffixes_in yard.old.parts.rest ≡ Some suffixes →
        Leads (IsErrOf result Fault.Failed) (OnlyJudges suffixes yard.old.parts.urls.settings)
        (Judges result suffixes yard.old.parts.urls.settings) yard.old.parts yard.new.parts
        (S.told yard.old.store) (S.told yard.new.store) }
    ensures refused { RefusesAsFound result yard.new.parts (S.told yard.new.store) }
    ensures keeps { OnOk result (KeepsFront yard.old.parts yard.new.parts × IsSent yard.new.parts) }
    ensures batches { Batches (IsErrOf result Fault.Failed) (just 0 1) (just 0 1) yard.old.parts yard.new.parts
        (S.told yard.old.store) (S.told yard.new.store) }
{
    let _is_sound = yard.is_sound();
    yard.merge_rest()?;
    yard.send_pairs()
}

// Offers the seeds, in order. A fault is want of memory, or the last one of the desk.
fn offer_seeds<R: Wait, S: Store>(
    rt: &R,
    alloc: Global,
    desk: &mut Desk<S>,
    seeds: &[Web],
) -> Result<(), Fault>
    requires takes { TakesPages (IsTakenBy IsCanonicalText desk.old.intake.yard.parts.urls.settings.kind) }
    requires short { AllByRecursion (λ text. length text ≤ max_text) seeds.now }
    ensures { OffersSeeds S.told result seeds.now (serving_of desk.old) (serving_of desk.new) }
{
    serves_same(desk);
    for web in seeds {
        if let Err((fault, _)) = desk.offer(rt, offer_of(alloc, web)?) {
            return Err(fault);
        }
    }
    Ok(())
}

// The offer of a seed.
fn offer_of(alloc: Global, web: &Web) -> Result<Offer, AllocError>
    requires { length web.now ≤ max_text }
    ensures is { IfOk result (λ offer. offer ≡ offer_from 0 web.now) }
    ensures taken { IfOk result IsTaken }
{
    let text = web.text();
    Ok(Offer {
        op: Op::Both,
        key: key_of(text),
        value: 0,
        from: 0,
        aux: Text::from_bytes(alloc, text)?,
    })
}
