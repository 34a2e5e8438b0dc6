ghost use Rattle.std.specs.Prelude.{◌≡◌, ◌≤◌, ℕ, Bool, List, not, nat_eq, map, filter, length, IfOk};
ghost use Rattle.std.specs.List.{AllByRecursion, list_all};
ghost use Rattle.std.specs.FinMap.{empty};
ghost use Rattle.irl_offer.specs.declared.offer.Op.TheVariants.{Both};
ghost use Rattle.irl_offer.specs.declared.offer.Rule.{Rule};
ghost use Rattle.irl_offer.specs.Tuple.{Tuple};
ghost use Rattle.irl_base.specs.Limits.{max_text};
ghost use Rattle.irl_model.specs.Book.{Book, judged_offers, uniques};
ghost use Rattle.irl_base.specs.Lists.{items_of};
ghost use Rattle.irl_model.specs.Plain.{whole_book};
ghost use Rattle.irl_events.specs.Links.{AreAlike, firsts_by_key, linked, degree as degree_of, pair_offer as pair_offer_of, pair_offers as pair_offers_of, pairs as pairs_of};

use irl_model::judged_offers;
use irl_offer::{Offer, Op, Text};
use std::alloc::{AllocError, Global};

/// Who tells the pay-level domains of URLs, and the keys of texts.
pub trait Domains {
    /// The domain of each URL, by its text.
    ghost domain_of: { Self → List ℕ → List ℕ };

    /// The key of each text.
    ghost key_of: { Self → List ℕ → ℕ };

    /// The pay-level domain of a URL.
    fn domain(&self, alloc: Global, url: &[u8]) -> Result<Text, AllocError>
        ensures { IfOk result (λ domain. domain ≡ domain_of self.now url.now) };

    /// The key of a text. It takes no memory.
    fn key(&self, text: &[u8]) -> u64
        ensures { result ≡ key_of self.now text.now };

    /// A domain is no longer than its URL.
    ghost is_within: { (domains : Self) (url : List ℕ) → length (domain_of domains url) ≤ length url };
}

// The offer of a pair of domains, the first by its key.
fn pair_offer<D: Domains>(
    alloc: Global,
    domains: &D,
    source: u64,
    target: Text,
) -> Result<Offer, AllocError>
    requires { length target ≤ max_text }
    ensures { IfOk result (λ offer. offer ≡ pair_offer_of (D.key_of domains.now) source target) }
{
    let mut bytes = source.to_be_bytes().to_vec(alloc)?;
    bytes.extend_from_slice(target.bytes())?;
    Ok(Offer {
        op: Op::Both,
        key: domains.key(&bytes),
        value: 0,
        from: 0,
        aux: target,
    })
}

/// The pairs of those of some judged offers that link two domains, in order. An offer with `from` 0 is no link, and one to the
/// domain that it comes from is none.
pub fn pair_offers<D: Domains>(
    alloc: Global,
    domains: &D,
    judged: &[Offer],
) -> Result<Vec<Offer>, AllocError>
    ensures { IfOk result (λ pairs.
        pairs.items ≡ pair_offers_of (D.domain_of domains.now) (D.key_of domains.now) judged.now) }
{
    let mut pairs = Vec::new(alloc);
    for offer in judged {
        let target = domains.domain(alloc, offer.aux.bytes())?;
        if offer.from != 0 && offer.from != domains.key(target.bytes()) {
            pairs.push(pair_offer(alloc, domains, offer.from, target)?)?;
        }
    }
    Ok(pairs)
}

/// The pairs of what the first so many cuts judged, of a book that has these lists and these cuts, and has dropped none.
pub fn pairs<D: Domains>(
    alloc: Global,
    domains: &D,
    buckets: u32,
    lists: &[Vec<Offer>],
    cuts: &[Vec<u64>],
    count: usize,
) -> Result<Vec<Offer>, AllocError>
    ensures { (rule : Rule) → IfOk result (λ pairs.
        pairs.items ≡ pairs_of (D.domain_of domains.now) (D.key_of domains.now)
        (whole_book buckets rule (items_of lists.now) (items_of cuts.now)) count) }
{
    let cuts = &cuts[..count.min(cuts.len())];
    let judged = judged_offers(alloc, buckets, lists, cuts)?;
    pair_offers(alloc, domains, &judged)
}

// Whether no earlier pair has this key.
fn is_new(earlier: &[Offer], key: u64) -> bool
    ensures { result ≡ list_all (λ pair. not (nat_eq key pair.key)) earlier.now }
{
    earlier.iter().all(|pair| key != pair.key)
}

/// The in-degree of a domain by some pairs: how many domains link to it. A pair that is there twice counts once. It takes no
/// memory.
pub fn degree(pairs: &[Offer], domain: &[u8]) -> u64
    ensures { result ≡ degree_of pairs.now domain.now }
{
    let mut count = 0;
    for place in 0..pairs.len() {
        let pair = &pairs[place];
        if is_new(&pairs[..place], pair.key) && domain == pair.aux.bytes() {
            count += 1;
        }
    }
    count
}

/// Where all offers check and enter, as pairs do, the unique ones are the first of each key: the in-degree of a domain is the
/// number of unique pairs that lead to it.
pub fn first_offers_are_unique()
    ensures { (book : Book) → book.base ≡ empty → AllByRecursion (λ offer. offer.op ≡ Both) (judged_offers book) →
        map (λ p. p.1) (uniques book) ≡ firsts_by_key (judged_offers book) }
{}

/// The in-degrees by some pairs are those by others where the same text is the first for each key. Where no key stands twice, as
/// among unique pairs, whichever of them are taken, each of them counts.
pub fn first_texts_give_the_degrees()
    ensures alike { (xs ys : List Tuple) → AreAlike xs ys → (domain : List ℕ)
        → degree_of xs domain ≡ degree_of ys domain }
    ensures unique { (taken : ℕ × Tuple → Bool) (book : Book) →
        linked (map (λ p. p.1) (filter taken (uniques book))) ≡ map (λ p. p.1.aux) (filter taken (uniques book)) }
{}
