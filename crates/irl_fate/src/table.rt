ghost use Rattle.std.specs.Prelude.{◌≡◌, ◌+◌, ◌≤◌, ◌++◌, [], ℕ, length, nat_eq, if◌then◌else◌, IfOk, IfErr, false, vec_len, vec_capacity};
ghost use Rattle.irl_events.specs.Events.{has_number, numbers_of};
ghost use Rattle.irl_fate.specs.Kept.{fate_in, is_front, numbers_in, AreSorted, HasEntry, IsAt};

use crate::Fate;
use irl_offer::Place;

// Where a number stands among entries that rise by number.
fn place_of(entries: &[(u64, Fate)], number: u64) -> Result<usize, usize>
    requires { AreSorted (numbers_in entries.now) }
    ensures found { IfOk result (λ at. IsAt entries.now number at) }
    ensures absent { IfErr result (λ _. has_number (numbers_in entries.now) number ≡ false) }
{
    entries.binary_search_by_key(&number, |&(key, _)| key)
}

/// The fate of a number: one without an entry is fresh. It takes no memory.
pub fn fate_at(entries: &[(u64, Fate)], number: u64) -> Fate
    requires { AreSorted (numbers_in entries.now) }
    ensures { result ≡ fate_in entries.now number }
{
    match place_of(entries, number) {
        Ok(at) => entries[at].1,
        Err(_) => Fate::Fresh,
    }
}

/// Whether a number is in the front. It takes no memory.
pub fn is_in_front(entries: &[(u64, Fate)], number: u64) -> bool
    requires { AreSorted (numbers_in entries.now) }
    ensures { result ≡ is_front (fate_in entries.now number) }
{
    matches!(fate_at(entries, number), Fate::Front)
}

/// Gives a number that has an entry another fate. It takes no memory.
pub fn relabel(entries: &mut [(u64, Fate)], number: u64, fate: Fate)
    requires sorted { AreSorted (numbers_in entries.old) }
    requires entry { HasEntry entries.old number }
    ensures fate { (q : ℕ) → fate_in entries.new q
        ≡ (if nat_eq number q then fate else fate_in entries.old q) }
    ensures numbers { numbers_in entries.new ≡ numbers_in entries.old }
{
    if let Ok(at) = place_of(entries, number) {
        entries[at] = (number, fate);
    }
}

/// Makes an entry for each number of places, which is fresh as before, behind the others. There is room for all of them.
pub fn enter(entries: &mut Vec<(u64, Fate)>, places: &[Place])
    requires { vec_len entries.old + length places.now ≤ vec_capacity entries.old }
    ensures fates { (q : ℕ) → fate_in entries.new.items q ≡ fate_in entries.old.items q }
    ensures numbers { numbers_in entries.new.items ≡ numbers_in entries.old.items ++ numbers_of places.now }
    ensures len { vec_len entries.new ≡ vec_len entries.old + length places.now }
{
    for place in places {
        entries.push_reserved((place.number, Fate::Fresh));
    }
}
