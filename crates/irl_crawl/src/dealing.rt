ghost use Rattle.std.specs.Prelude.{◌≡◌, ◌≤◌, [], ◌∷◌, length, IfOk, OnOk};
ghost use Rattle.std.specs.List.{All};
ghost use Rattle.irl_yard.specs.Holding.{IsSound};
ghost use Rattle.irl_fetch.specs.Telling.{GoesOn, fetcher};
ghost use Rattle.irl_crawl.specs.Dealing.{AddsNotes, Deals, HaveTaken, ServesOn, SomeHaveTaken};
ghost use Rattle.irl_crawl.specs.Workers.{AllGoOn, made_by, schedules};

use crate::crew::keep;
use crate::hosts::Hosts;
use irl_disk::Store;
use irl_key::Work;
use irl_offer::{Fault, Note};
use irl_polite::Front;
use irl_record::Fetch;
use irl_yard::Yard;
use std::alloc::{AllocError, Global};

/// The items and notes of one worker in a turn.
#[derive(Drop)]
pub struct Share {
    pub items: Vec<Work>,
    pub notes: Vec<Note>,
}

/// A share for each worker, without anything.
pub fn no_shares(alloc: Global, workers: usize) -> Result<Vec<Share>, AllocError>
    ensures count { IfOk result (λ shares. length shares.items ≡ workers) }
    ensures empty { IfOk result (λ shares. All (λ s. (s.items.items ≡ []) × (s.notes.items ≡ [])) shares.items) }
{
    let mut shares = Vec::with_capacity(alloc, workers)?;
    for _ in 0..workers {
        let share = Share {
            items: Vec::new(alloc),
            notes: Vec::new(alloc),
        };
        keep(&mut shares, share)?;
    }
    Ok(shares)
}

/// Deals items out among the workers, each to that which serves its host, with the last note on the host where it is in
/// use. The state stays. After a refusal the shares may have some of it.
pub fn deal_all<S: Store, F: Fetch>(
    alloc: Global,
    yard: &mut Yard<S>,
    fetchers: &mut [F],
    hosts: &mut Hosts,
    shares: &mut [Share],
    works: Vec<Work>,
) -> Result<(), Fault>
    requires sound { IsSound yard.old.parts }
    requires some { 1 ≤ length fetchers.old }
    requires count { length shares.old ≡ length fetchers.old }
    ensures deals { Deals result works.items yard.old.parts yard.new.parts
        (S.told yard.old.store) (S.told yard.new.store) shares.old shares.new }
    ensures serves { ServesOn result (length fetchers.old) hosts.old hosts.new shares.old shares.new }
    ensures fetchers { AllGoOn F.asked F.gives F.faults F.last F.aim fetchers.old fetchers.new }
    ensures made { made_by F.asked fetchers.new ≡ made_by F.asked fetchers.old }
{
    for work in works {
        deal(alloc, yard, fetchers, hosts, shares, work)?;
    }
    Ok(())
}

// One item.
fn deal<S: Store, F: Fetch>(
    alloc: Global,
    yard: &mut Yard<S>,
    fetchers: &mut [F],
    hosts: &mut Hosts,
    shares: &mut [Share],
    work: Work,
) -> Result<(), Fault>
    requires sound { IsSound yard.old.parts }
    requires some { 1 ≤ length fetchers.old }
    requires count { length shares.old ≡ length fetchers.old }
    ensures deals { Deals result (work ∷ []) yard.old.parts yard.new.parts
        (S.told yard.old.store) (S.told yard.new.store) shares.old shares.new }
    ensures serves { ServesOn result (length fetchers.old) hosts.old hosts.new shares.old shares.new }
    ensures fetchers { AllGoOn F.asked F.gives F.faults F.last F.aim fetchers.old fetchers.new }
    ensures made { made_by F.asked fetchers.new ≡ made_by F.asked fetchers.old }
{
    let host = work.web.host();
    let met = hosts.name(host)?;
    let worker = met.number % fetchers.len();
    let fetch = &mut fetchers[worker];
    let share = &mut shares[worker];
    read_note(alloc, yard, fetch, host, met.again, &mut share.notes)?;
    keep(&mut share.items, work)?;
    Ok(())
}

// Puts the last note on a host behind others, where it is in use and wasn't asked for before.
fn read_note<S: Store, F: Fetch>(
    alloc: Global,
    yard: &mut Yard<S>,
    fetch: &mut F,
    host: &[u8],
    again: bool,
    notes: &mut Vec<Note>,
) -> Result<(), Fault>
    requires { IsSound yard.old.parts }
    ensures adds { AddsNotes result yard.old.parts yard.new.parts
        (S.told yard.old.store) (S.told yard.new.store) notes.old.items notes.new.items }
    ensures goes_on { GoesOn (fetcher F.asked F.gives F.faults F.last F.aim fetch.old)
        (fetcher F.asked F.gives F.faults F.last F.aim fetch.new) }
    ensures asked { F.asked fetch.new ≡ F.asked fetch.old }
{
    if again {
        return Ok(());
    }
    let now = fetch.now();
    let Some(note) = yard.robots(alloc, host, now)? else {
        return Ok(());
    };
    keep(notes, note)?;
    Ok(())
}

/// Loads each front with its share.
pub fn hand_out(fronts: &mut [Front], shares: Vec<Share>) -> Result<(), AllocError>
    requires count { length shares.items ≡ length fronts.old }
    requires none { All (λ s. s.items ≡ []) (schedules fronts.old) }
    ensures ok { OnOk result (HaveTaken shares.items (schedules fronts.old) (schedules fronts.new)) }
    // After want of memory some are loaded, and the others are as they were.
    ensures some { SomeHaveTaken (schedules fronts.old) (schedules fronts.new) }
{
    for (worker, share) in shares.into_iter().enumerate() {
        let Share { items, notes } = share;
        fronts[worker].load(items, notes)?;
    }
    Ok(())
}
