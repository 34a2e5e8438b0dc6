ghost use Rattle.std.specs.Prelude.{◌≡◌, ◌≤◌, ◌+◌, ℕ, [], length, vec_capacity, Some, IfErr, IfOk};
ghost use Rattle.std.specs.List.{AllByRecursion};
ghost use Rattle.irl_offer.specs.Settings.{AreValid};
ghost use Rattle.irl_schedule.specs.Arrays.{AreArrays, waiting_at};
ghost use Rattle.irl_yard.specs.Holding.{IsSound};
ghost use Rattle.irl_lock.specs.Books.{all_parts, buckets_of};
ghost use Rattle.irl_lock.specs.Laying.{AreSlots, AreWords, HasStore, IsBin, IsStand, IsStoreOf};
ghost use Rattle.irl_lock.specs.Rule.{first_view};
ghost use Rattle.irl_lock.specs.declared.held.Held.TheVariants.{InBin as InBinHeld, InYard as InYardHeld};
ghost use Rattle.irl_lock.specs.Sharing.{IsFreshPass, opening_of, parts_in_all};

use crate::held::{Bin, Held, Stand};
use crate::pass::Pass;
use crate::rule::{Parts, Token};
use crate::shared::{Board, Shared};
use atomic_table::{Refused, Table};
use irl_array::Array;
use irl_disk::Store;
use irl_offer::Settings;
use irl_schedule::arrays_of;
use irl_yard::Yard;
use std::alloc::{AllocError, Global};
use std::snapshot::Snapshot;

/// All the memory that sharing a store takes but for the table's own.
pub struct Rooms<S: Store> {
    pub arrays: Vec<Array>,
    pub spare: Vec<Array>,
    pub words: Vec<u64>,
    pub slots: Vec<Option<Held<S>>>,
}

/// It is taken.
pub fn rooms_for<S: Store>(alloc: Global, settings: &Settings) -> Result<Rooms<S>, AllocError>
    requires { AreValid settings.now }
    ensures arrays { IfOk result (λ rooms. AreArrays settings.now rooms.arrays.items) }
    ensures empty { IfOk result (λ rooms. (b : ℕ) → waiting_at rooms.arrays.items b ≡ []) }
    ensures spare { IfOk result (λ rooms. (rooms.spare.items ≡ [])
        × (settings.now.buckets ≤ vec_capacity rooms.spare)) }
    ensures words { IfOk result (λ rooms. (rooms.words.items ≡ [])
        × ((settings.now.buckets + 1) + settings.now.buckets ≤ vec_capacity rooms.words)) }
    ensures slots { IfOk result (λ rooms. (rooms.slots.items ≡ [])
        × (settings.now.buckets + 1 ≤ vec_capacity rooms.slots)) }
{
    let buckets = settings.buckets as usize;
    let slots = Vec::with_capacity(alloc, buckets + 1)?;
    match plain_rooms(alloc, settings) {
        Ok((arrays, spare, words)) => Ok(Rooms {
            arrays,
            spare,
            words,
            slots,
        }),
        Err(refused) => {
            slots.destroy_empty();
            Err(refused)
        }
    }
}

/// Lays an open store and its arrays out in a table. Want of memory hands the store back.
pub fn lay<S: Store>(
    alloc: Global,
    yard: Yard<S>,
    arrays: Vec<Array>,
    words: Vec<u64>,
    slots: Vec<Option<Held<S>>>,
) -> Result<(Board<S>, Token<S>), Yard<S>>
    requires sound { IsSound yard.parts }
    requires arrays { AreArrays yard.parts.urls.settings arrays.items }
    requires empty { (b : ℕ) → waiting_at arrays.items b ≡ [] }
    requires words { (words.items ≡ []) × ((buckets_of yard + 1) + buckets_of yard ≤ vec_capacity words) }
    requires slots { (slots.items ≡ []) × (buckets_of yard + 1 ≤ vec_capacity slots) }
    ensures key { IfOk result (λ made. made.0.shared.key.value ≡ yard) }
    ensures words { IfOk result (λ made. made.0.shared.table_id.words ≡ (buckets_of yard + 1) + buckets_of yard) }
    ensures slots { IfOk result (λ made. made.0.shared.table_id.slots ≡ buckets_of yard + 1) }
    ensures seat { IfOk result (λ made. (made.1.table_id ≡ made.0.shared.table_id)
        × (made.1.me ≡ (first_view yard, []))) }
    ensures back { IfErr result (λ back. back ≡ yard) }
{
    let _is_sound = yard.is_sound();
    let key = Snapshot::of(&yard);
    let words = word_values(&yard, words);
    let slots = slot_values(yard, arrays, slots);
    match Table::new(alloc, &words, slots, &key) {
        Ok(made) => Ok(made),
        Err(Refused { slots }) => Err(yard_in(slots)),
    }
}

/// Gives one part of a seat's to each of so many passes but the last, which keeps the others.
pub fn deal<S: Store>(shared: &Shared<S>, token: Token<S>, passes: &mut Vec<Pass<S>>, workers: u32)
    requires seat { (token.table_id ≡ shared.now.table.shared.table_id)
        × (token.me ≡ (first_view (opening_of shared.now), [])) }
    requires workers { (1 ≤ workers) × (workers ≤ all_parts) }
    requires room { (passes.old.items ≡ []) × (workers ≤ vec_capacity passes.old) }
    ensures count { length passes.new.items ≡ workers }
    ensures fresh { AllByRecursion (IsFreshPass shared.now) passes.new.items }
    ensures parts { parts_in_all passes.new.items ≡ all_parts }
{
    let mut token = token;
    for number in 1..workers {
        let part = shared.table.shared.split_seat::<Parts>(&mut token);
        passes.push_reserved(Pass {
            token: part,
            number: u64::from(number),
            last: None,
        });
    }
    passes.push_reserved(Pass {
        token,
        number: 0,
        last: None,
    });
}

// The memory whose values may be dropped.
fn plain_rooms(
    alloc: Global,
    settings: &Settings,
) -> Result<(Vec<Array>, Vec<Array>, Vec<u64>), AllocError>
    requires { AreValid settings.now }
    ensures arrays { IfOk result (λ rooms. AreArrays settings.now rooms.0.items) }
    ensures empty { IfOk result (λ rooms. (b : ℕ) → waiting_at rooms.0.items b ≡ []) }
    ensures spare { IfOk result (λ rooms. (rooms.1.items ≡ []) × (settings.now.buckets ≤ vec_capacity rooms.1)) }
    ensures words { IfOk result (λ rooms. (rooms.2.items ≡ [])
        × ((settings.now.buckets + 1) + settings.now.buckets ≤ vec_capacity rooms.2)) }
{
    let buckets = settings.buckets as usize;
    let arrays = arrays_of(alloc, settings)?;
    let spare = Vec::with_capacity(alloc, buckets)?;
    let words = Vec::with_capacity(alloc, buckets + 1 + buckets)?;
    Ok((arrays, spare, words))
}

// The words of a table with no turn held, where nothing waits.
fn word_values<S: Store>(yard: &Yard<S>, words: Vec<u64>) -> Vec<u64>
    requires { (words.items ≡ []) × ((buckets_of yard.now + 1) + buckets_of yard.now ≤ vec_capacity words) }
    ensures { AreWords yard.now result.items }
{
    let _is_sound = yard.is_sound();
    let buckets = yard.settings().buckets;
    let mut words = words;
    for _ in 0..buckets + 1 {
        words.push_reserved(0);
    }
    for b in 0..buckets {
        words.push_reserved(yard.durable(b));
    }
    words
}

// The slots of a table, with the arrays and the store.
fn slot_values<S: Store>(
    yard: Yard<S>,
    arrays: Vec<Array>,
    slots: Vec<Option<Held<S>>>,
) -> Vec<Option<Held<S>>>
    requires arrays { AreArrays yard.parts.urls.settings arrays.items }
    requires slots { (slots.items ≡ []) × (buckets_of yard + 1 ≤ vec_capacity slots) }
    ensures { AreSlots yard arrays.items result.items }
{
    let buckets = yard.settings().buckets;
    let mut left = arrays.into_iter();
    let mut slots = slots;
    for b in 0..buckets {
        let first = yard.durable(b);
        let Some(array) = left.next() else {
            unreachable!()
        };
        slots.push_reserved(Some(Held::InBin(Bin { first, array })));
    }
    slots.push_reserved(Some(Held::InYard(Stand { yard, last: None })));
    slots
}

// The store among the slots, which are dropped.
fn yard_in<S: Store>(slots: Vec<Option<Held<S>>>) -> Yard<S>
    requires { HasStore slots.items }
    ensures { IsStoreOf slots.items result }
{
    let mut slots = slots;
    let Some(last) = slots.pop() else {
        unreachable!()
    };
    while let Some(slot) = slots.pop() {
        let _bin = bin_in(slot);
    }
    slots.destroy_empty();
    let Stand { yard, last: _ } = stand_in(last);
    yard
}

/// The bin in a slot.
pub fn bin_in<S: Store>(slot: Option<Held<S>>) -> Bin
    requires { IsBin slot }
    ensures { slot ≡ Some (Held.InBin result) }
{
    let Some(held) = slot else { unreachable!() };
    let Held::InBin(bin) = held else {
        unreachable!()
    };
    bin
}

/// The store in a slot.
pub fn stand_in<S: Store>(slot: Option<Held<S>>) -> Stand<S>
    requires { IsStand slot }
    ensures { slot ≡ Some (Held.InYard result) }
{
    let Some(held) = slot else { unreachable!() };
    let Held::InYard(stand) = held else {
        unreachable!()
    };
    stand
}
