ghost use Rattle.std.specs.Prelude.{◌≡◌, [], map};
ghost use Rattle.std.specs.List.{AllByRecursion};
ghost use Rattle.irl_lock.specs.Books.{all_parts};
ghost use Rattle.irl_lock.specs.Seats.{IsOn};
ghost use Rattle.irl_lock.specs.Sharing.{IsFree, IsOf, Leaves, mine_of, opening_of, parts_in_all};
ghost use Rattle.irl_lock.specs.Books.{shares_of};

use crate::held::Stand;
use crate::opening::{bin_in, stand_in};
use crate::pass::Pass;
use crate::rule::{Parts, Token};
use crate::shared::Shared;
use irl_array::Array;
use irl_disk::Store;

/// One seat in place of all passes. It knows what each of them did, in their order.
pub fn join<S: Store>(shared: &Shared<S>, passes: Vec<Pass<S>>) -> Token<S>
    requires own { AllByRecursion (IsOf shared.now) passes.items }
    requires free { AllByRecursion IsFree passes.items }
    requires all { parts_in_all passes.items ≡ all_parts }
    ensures own { IsOn shared.now.table.shared.table_id (opening_of shared.now) result.table_id result.me.0 }
    ensures free { (result.me.0.turns ≡ []) × (result.me.1 ≡ []) }
    ensures parts { result.me.0.known.parts ≡ all_parts }
    ensures shares { shares_of result.me.0.known ≡ map mine_of passes.items }
{
    let mut left = passes.into_iter();
    let Some(first) = left.next() else {
        unreachable!()
    };
    let mut token = first.token;
    while let Some(pass) = left.next() {
        shared
            .table
            .shared
            .join_seat::<Parts>(&mut token, pass.token);
    }
    token
}

/// Ends the table: the store and its arrays come back.
pub fn take_out<S: Store>(shared: Shared<S>, token: Token<S>) -> (Vec<Array>, Stand<S>)
    requires own { IsOn shared.table.shared.table_id (opening_of shared) token.table_id token.me.0 }
    requires free { token.me.0.turns ≡ [] }
    requires all { token.me.0.known.parts ≡ all_parts }
    ensures { Leaves (opening_of shared) token.me.0.known result.0.items result.1 }
{
    let Shared {
        alloc: _,
        table,
        buckets,
        spare,
    } = shared;
    let mut arrays = spare;
    let mut closed = table.close_with(token);
    for b in 0..buckets as usize {
        let bin = bin_in(closed.take(b));
        arrays.push_reserved(bin.array);
    }
    let stand = stand_in(closed.take(buckets as usize));
    closed.free();
    (arrays, stand)
}
