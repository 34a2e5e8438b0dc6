ghost use Rattle.std.specs.Prelude.{◌≡◌, ◌≤◌, ◌<◌, ◌+◌, ◌^◌, ◌∷◌, None, Some};
ghost use Rattle.atomic_table.specs.Table.{rest};
ghost use Rattle.irl_lock.specs.Books.{buckets_of};
ghost use Rattle.irl_lock.specs.Plays.{FitsSeat, IsBehind, with_turns};
ghost use Rattle.irl_lock.specs.Seats.{IsOn};

use crate::held::Held;
use crate::rule::{Claim, Release, Token, Turns};
use irl_disk::Store;
use std::sync::Wait;
use std::thread;

/// Waits for a turn, and takes what stands behind it.
pub fn claim<R: Wait, S: Store>(
    rt: &R,
    turns: &Turns<S>,
    token: &mut Token<S>,
    t: usize,
    number: u64,
) -> Held<S>
    requires own { IsOn turns.now.table_id turns.now.key.value token.old.table_id token.old.me.0 }
    requires within { t ≤ buckets_of turns.now.key.value }
    requires number { number + 1 < 2 ^ 64 }
    ensures own { IsOn turns.now.table_id turns.now.key.value token.new.table_id token.new.me.0 }
    ensures holds { token.new.me ≡ (
      with_turns ((t, result) ∷ token.old.me.0.turns) token.old.me.0,
      (t, None) ∷ token.old.me.1,
    ) }
    ensures behind { IsBehind turns.now.key.value t result }
    ensures fits { FitsSeat result token.old.me.0 }
{
    for _ in rt.forever() {
        let found = turns.compare_exchange::<Claim>(token, t, 0, number + 1);
        if found == 0 {
            let taken = turns.exchange(token, t, None);
            let Some(held) = taken else { unreachable!() };
            return held;
        }
        thread::yield_now();
    }
    unreachable!()
}

/// Gives the turn back that was claimed last, with what stands behind it.
pub fn release<S: Store>(turns: &Turns<S>, token: &mut Token<S>, t: usize, held: Held<S>)
    requires own { IsOn turns.now.table_id turns.now.key.value token.old.table_id token.old.me.0 }
    requires within { t ≤ buckets_of turns.now.key.value }
    requires turn { token.old.me.0.turns ≡ (t, held) ∷ rest token.old.me.0.turns }
    requires out { token.old.me.1 ≡ (t, None) ∷ rest token.old.me.1 }
    ensures own { IsOn turns.now.table_id turns.now.key.value token.new.table_id token.new.me.0 }
    ensures released { token.new.me ≡ (with_turns (rest token.old.me.0.turns) token.old.me.0, rest token.old.me.1) }
{
    let empty = turns.exchange(token, t, Some(held));
    let None = empty else { unreachable!() };
    give_back(turns, token, t);
}

/// Gives the turn back that was claimed last, where what stands behind it lies in its slot.
pub fn give_back<S: Store>(turns: &Turns<S>, token: &mut Token<S>, t: usize)
    requires own { IsOn turns.now.table_id turns.now.key.value token.old.table_id token.old.me.0 }
    requires within { t ≤ buckets_of turns.now.key.value }
    requires held { (held : _) × (token.old.me.0.turns ≡ (t, held) ∷ rest token.old.me.0.turns)
        × (token.old.me.1 ≡ (t, Some held) ∷ rest token.old.me.1) }
    ensures own { IsOn turns.now.table_id turns.now.key.value token.new.table_id token.new.me.0 }
    ensures released { token.new.me ≡ (with_turns (rest token.old.me.0.turns) token.old.me.0, rest token.old.me.1) }
{
    turns.store::<Release>(token, t, 0);
}
