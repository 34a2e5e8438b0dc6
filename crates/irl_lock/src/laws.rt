ghost use Rattle.std.specs.Prelude.{List, Result, Ok, map};
ghost use Rattle.std.specs.Option.{ForSome};
ghost use Rattle.irl_base.specs.declared.fault.Fault.{Fault as FaultValue};
ghost use Rattle.irl_model.specs.Book.{Book};
ghost use Rattle.irl_bay.specs.Holding.{Holds};
ghost use Rattle.irl_desk.specs.Closing.{HandsBack, ended};
ghost use Rattle.irl_lock.specs.Books.{buckets_of, fresh_of};
ghost use Rattle.irl_lock.specs.Sharing.{Closes, answer_of, entries_in, yard_of};
ghost use Rattle.irl_lock.specs.Spread.{IsSpread};

use crate::pass::Pass;
use irl_disk::Store;
use irl_offer::Fault;
use irl_yard::Yard;

/// What passes did comes to what one desk hands back to which all their offers were handed in.
pub fn what_passes_hand_back<S: Store>(_store: &S)
    ensures { (result : Result (Yard S S.Store) (FaultValue × Yard S S.Store)) (opening : Yard S S.Store)
        (passes : List (Pass S S.Store)) → (closes : Closes result opening passes) →
        HandsBack S.told (answer_of result) closes.news (fresh_of opening)
        (ended closes.mid (answer_of result) (yard_of result).store (yard_of result).parts closes.closing.arrays) }
{}

/// Closed with Ok, each list of the store that comes back has the offers of all passes, each at its receipt's number.
/// The numbers of one pass rise, and none is given twice.
pub fn passes_spread<S: Store>(_store: &S)
    ensures { (back opening : Yard S S.Store) (passes : List (Pass S S.Store)) → Closes (Ok back) opening passes →
        ForSome (S.told opening.store).files (λ _. (x : Book) →
        Holds (S.told opening.store).images opening.parts.urls x →
        (y : Book) × Holds (S.told back.store).images back.parts.urls y
        × IsSpread (buckets_of opening) (map entries_in passes) x y) }
{}
