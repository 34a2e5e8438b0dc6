ghost use Rattle.std.specs.Prelude.{◌≡◌, ◌+◌, ◌++◌, ℕ, List, [], true, None};
ghost use Rattle.std.specs.List.{list_all};
ghost use Rattle.irl_offer.specs.Purses.{Budget};
ghost use Rattle.irl_events.specs.Events.{Progress, Pass as PassEvent, numbers_of, after_event};
ghost use Rattle.irl_events.specs.Legal.{are_read, are_rising, broken, is_slot_within};
ghost use Rattle.irl_events.specs.Queues.{Waiting};
ghost use Rattle.irl_beast.specs.Places.{place};
ghost use Rattle.irl_beast.specs.Passes.{item_numbers, numbered, passed, read_by};
ghost use Rattle.irl_beast.specs.declared.item.Item.{Item};

/// A law: a pass breaks no rule of a crawl that has begun, whose front is empty and whose numbers wait as the items do, where the
/// numbers of the fresh items rise, from the number of the last pass on and below that of the sent offers. After it the
/// numbers wait as the items do again. The places have the numbers of what is read, in order, and each slot is the front, the
/// last list, or a queue in use behind the one that is read.
pub fn a_pass_is_legal()
    ensures numbers { (p j : ℕ) (budget : Budget) (items : List Item) →
        numbers_of (place p j budget items) ≡ item_numbers items }
    ensures slots { (p j : ℕ) (budget : Budget) (items : List Item) →
        list_all (λ at. is_slot_within (p + 2) j at.slot) (place p j budget items) ≡ true }
    ensures read { (queue fresh : List Item) (from to : ℕ) → are_rising from to (item_numbers fresh) ≡ true →
        are_read (item_numbers queue) from to (item_numbers (queue ++ fresh)) ≡ true }
    ensures legal { (x : Progress) (waiting : Waiting Item) (budget : Budget) (fresh : List Item) → x.begun ≡ true →
        x.front ≡ [] → x.waiting ≡ numbered waiting → are_rising x.read x.sent (item_numbers fresh) ≡ true →
        broken x (PassEvent x.sent) (place waiting.passes waiting.queues budget (read_by waiting fresh)) ≡ None }
    ensures waiting { (x : Progress) (waiting : Waiting Item) (budget : Budget) (fresh : List Item) (judged : ℕ) →
        x.waiting ≡ numbered waiting →
        (after_event x (PassEvent judged) (place waiting.passes waiting.queues budget (read_by waiting fresh))).waiting
        ≡ numbered (passed budget waiting fresh) }
{}
