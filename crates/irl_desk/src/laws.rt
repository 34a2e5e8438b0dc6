ghost use Rattle.std.specs.Prelude.{◌≡◌, ◌++◌, [], List, Result};
ghost use Rattle.irl_base.specs.declared.fault.Fault.{Fault as FaultValue};
ghost use Rattle.irl_offer.specs.Offering.{Entered};
ghost use Rattle.irl_desk.specs.Closing.{Closes, HandsBack, ended};
ghost use Rattle.irl_desk.specs.Serving.{serving_of, Follows, IsFresh, Serves, Serving};

use crate::desk::Desk;
use irl_disk::Store;

/// Where nothing is done, nothing is entered.
pub fn serves_same<S: Store>(desk: &Desk<S>)
    ensures { Serves S.told [] (serving_of desk.now) (serving_of desk.now) }
{
    let _is_sound = desk.intake.is_sound();
}

/// What is entered in two stretches of time is entered in both together.
pub fn serves_both<S: Store>(_store: &S)
    ensures { (first second : List Entered) (old mid new : Serving S) → Serves S.told first old mid →
        Serves S.told second mid new → Serves S.told (first ++ second) old new }
{}

/// Who is handed a desk as `Offers`, and entered these, served them.
pub fn serves_entered<S: Store>(desk: &Desk<S>)
    ensures { (news : List Entered) (new : Serving S) → Follows S.told (serving_of desk.now) new →
        new.entries ≡ (serving_of desk.now).entries ++ news → Serves S.told news (serving_of desk.now) new }
{
    serves_same(desk);
}

/// What a desk did, from the yard that it was made of to the one that comes back.
pub fn what_a_desk_hands_back<S: Store>(_store: &S)
    ensures { (entries : List Entered) (result : Result Unit FaultValue) (old mid new : Serving S) → IsFresh old →
        Serves S.told entries old mid → (closes : Closes S.told result mid new.store new.parts) →
        new ≡ ended mid result new.store new.parts closes.arrays →
        HandsBack S.told result entries old new }
{}
