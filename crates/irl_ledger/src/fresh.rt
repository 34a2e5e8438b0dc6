//! The URLs that a pass is to read first.

ghost use Rattle.std.specs.Prelude.{◌≡◌, ◌++◌, ◌+◌, ◌-◌, ◌*◌, ◌^◌, ◌<◌, ◌≤◌, ◌∷◌, [], ℕ, List, length, true, is_some, unwrap_or, take, drop, IfOk, IsErrOf, Some, slice_get};
ghost use Rattle.std.specs.Option.{ForSome};
ghost use Rattle.irl_offer.specs.declared.receipt.Judged.{Judged as JudgedOffer};
ghost use Rattle.irl_key.specs.Links.{IsCanonicalText};
ghost use Rattle.irl_model.specs.Book.{gone, judged as judged_of};
ghost use Rattle.irl_events.specs.Legal.{are_rising};
ghost use Rattle.irl_beast.specs.Passes.{item_numbers};
ghost use Rattle.irl_beast.specs.declared.item.Item.{Item as ItemValue};
ghost use Rattle.irl_bay.specs.Holding.{IsLong};
ghost use Rattle.irl_bay.specs.JudgedParts.{as_judged};
ghost use Rattle.irl_head.specs.StoreFiles.{urls_base};
ghost use Rattle.irl_layout.specs.BayFiles.{file_of};
ghost use Rattle.irl_layout.specs.declared.files.BayFile.TheVariants.{Judged as JudgedFile};
ghost use Rattle.irl_ledger.specs.Crawling.{domain_of};
ghost use Rattle.irl_ledger.specs.Passing.{fresh_of, items_from};
ghost use Rattle.irl_ledger.specs.Reading.{ReadsUrls};

use crate::Ledger;
use crate::domains::domain_of_url;
use irl_bay::{Bay, JudgedPart, JudgedRef};
use irl_disk::Store;
use irl_frontier::Item;
use irl_head::URLS_BASE;
use irl_layout::BayFile;
use irl_offer::{Fault, Verdict};
use irl_pld::Suffixes;
use std::alloc::{AllocError, Global};

// How many judged offers are read in one piece.
const PIECE: u32 = 4096;

impl Ledger {
    /// The URLs that no pass has read and that the last sent pairs cover, in order of number, each with its domain. What is
    /// judged from the last pass on is read once, in pieces. A refusal ends nothing.
    pub fn fresh<S: Store>(&self, store: &mut S, urls: &Bay) -> Result<Vec<Item>, Fault>
        requires begun { is_some self.now.suffixes ≡ true }
        requires sent { self.now.frontier.progress.sent ≤ urls.now.last.judged }
        requires sound { urls.now.is_sound ≡ true }
        requires base { urls.now.base ≡ urls_base }
        requires long { ForSome (S.told store.old).files (λ files. IsLong urls.now files) }
        // Whatever the files stand for, a pass may read them.
        ensures rising { IfOk result (λ items. are_rising self.now.frontier.progress.read
            self.now.frontier.progress.sent (item_numbers items.items) ≡ true) }
        ensures reads { ReadsUrls result (λ items book. items.items ≡ fresh_of
            (domain_of (unwrap_or self.now.suffixes [])) book self.now.frontier.progress.read
            self.now.frontier.progress.sent) urls.now (S.told store.old) (S.told store.new) }
    {
        match &self.suffixes {
            Some(suffixes) => {
                let (from, to) = (self.frontier.read(), self.frontier.sent());
                read_items(self.alloc, store, urls, suffixes, from, to)
            }
            None => unreachable!(),
        }
    }
}

// The unique ones of the judged offers from one place on and before another, each with its domain.
fn read_items<S: Store>(
    alloc: Global,
    store: &mut S,
    urls: &Bay,
    suffixes: &Suffixes,
    from: u64,
    to: u64,
) -> Result<Vec<Item>, Fault>
    requires within { to ≤ urls.now.last.judged }
    requires sound { urls.now.is_sound ≡ true }
    requires base { urls.now.base ≡ urls_base }
    requires long { ForSome (S.told store.old).files (λ files. IsLong urls.now files) }
    ensures rising { IfOk result (λ items. are_rising from to (item_numbers items.items) ≡ true) }
    ensures reads { ReadsUrls result (λ items book. items.items ≡ items_from (domain_of suffixes.now) from
        (take (to - from) (drop (from - gone book) (judged_of book))))
        urls.now (S.told store.old) (S.told store.new) }
{
    let _is_drum = urls.is_sound();
    let mut items = Vec::new(alloc);
    let mut at = from;
    while at < to {
        at = add_piece(alloc, store, urls, suffixes, at, to, &mut items)?;
    }
    Ok(items)
}

// Reads one piece of them, from a place on, and puts its unique ones behind the items. Tells where it ends.
fn add_piece<S: Store>(
    alloc: Global,
    store: &mut S,
    urls: &Bay,
    suffixes: &Suffixes,
    from: u64,
    to: u64,
    items: &mut Vec<Item>,
) -> Result<u64, Fault>
    requires some { from < to }
    requires within { to ≤ urls.now.last.judged }
    requires sound { urls.now.is_sound ≡ true }
    requires base { urls.now.base ≡ urls_base }
    requires long { ForSome (S.told store.old).files (λ files. IsLong urls.now files) }
    ensures end { IfOk result (λ end. (from < end) × (end ≤ to)) }
    ensures rising { IfOk result (λ end. (more : List ItemValue) × (items.new.items ≡ items.old.items ++ more)
        × (are_rising from end (item_numbers more) ≡ true)) }
    ensures reads { ReadsUrls result (λ end book. items.new.items ≡ items.old.items ++ items_from
        (domain_of suffixes.now) from (take (end - from) (drop (from - gone book) (judged_of book))))
        urls.now (S.told store.old) (S.told store.new) }
{
    let _is_drum = urls.is_sound();
    let most = (to - from).min(u64::from(PIECE)) as u32;
    let part = urls.judged_from(store, from, most)?;
    add_part(alloc, &part, suffixes, from, items)?;
    Ok(from + part.len() as u64)
}

// Puts the unique ones of a part behind the items, where the first of the part has this number.
fn add_part(
    alloc: Global,
    part: &JudgedPart,
    suffixes: &Suffixes,
    from: u64,
    items: &mut Vec<Item>,
) -> Result<(), Fault>
    requires { 48 * (from + length part.now) < 2 ^ 64 }
    ensures items { IfOk result (λ _. items.new.items ≡ items.old.items ++ items_from (domain_of suffixes.now)
        from part.now) }
    ensures damaged { (f at : ℕ) → IsErrOf result (Fault.Damaged f at) → (f ≡ file_of urls_base 0 JudgedFile)
        × ((k : ℕ) × (one : JudgedOffer) × (slice_get part.now k ≡ Some one) × (at ≡ 48 * (from + k))
        × (IsCanonicalText one.offer.aux → ⊥)) }
    ensures full { (n : ℕ) → IsErrOf result (Fault.Full n) → ⊥ }
    ensures failed { IsErrOf result Fault.Failed → ⊥ }
{
    for k in 0..part.len() {
        let one = part.get(k);
        add_one(alloc, &one, suffixes, from + k as u64, items)?;
    }
    Ok(())
}

// Puts a judged offer with this number behind the items, where it is unique.
fn add_one(
    alloc: Global,
    one: &JudgedRef,
    suffixes: &Suffixes,
    number: u64,
    items: &mut Vec<Item>,
) -> Result<(), Fault>
    requires { 48 * number < 2 ^ 64 }
    ensures items { IfOk result (λ _. items.new.items ≡ items.old.items ++ items_from (domain_of suffixes.now) number
        (as_judged one.now ∷ [])) }
    ensures damaged { (f at : ℕ) → IsErrOf result (Fault.Damaged f at) → (f ≡ file_of urls_base 0 JudgedFile)
        × (at ≡ 48 * number) × (IsCanonicalText one.now.aux.now → ⊥) }
    ensures full { (n : ℕ) → IsErrOf result (Fault.Full n) → ⊥ }
    ensures failed { IsErrOf result Fault.Failed → ⊥ }
{
    if let Some(Verdict::Unique) = one.verdict {
        match domain_of_url(alloc, suffixes, one.aux)? {
            Some(pld) => put(items, Item { number, pld })?,
            None => {
                let file = BayFile::Judged.number(URLS_BASE);
                return Err(Fault::Damaged(file, 48 * number));
            }
        }
    }
    Ok(())
}

// Puts an item behind others.
fn put(items: &mut Vec<Item>, item: Item) -> Result<(), AllocError>
    ensures { IfOk result (λ _. items.new.items ≡ items.old.items ++ (item ∷ [])) }
{
    items.push(item)?;
    Ok(())
}
