ghost use Rattle.std.specs.Prelude.{◌≡◌, ◌≤◌, ◌+◌, ◌^◌, [], length, vec_capacity};
ghost use Rattle.std.specs.List.{AllByRecursion};
ghost use Rattle.irl_offer.specs.declared.settings.Kind.TheVariants.{Lines as LinesKind};
ghost use Rattle.irl_lock.specs.Books.{all_parts};
ghost use Rattle.irl_lock.specs.Seated.{free_prop, own_prop};
ghost use Rattle.irl_lock.specs.Sharing.{IsFree, IsFreshPass, IsOf, opening_of, parts_in, parts_in_all};

use irl_disk::Store;
use irl_lock::{Pass, Shared};
use irl_offer::{Fault, Kind, Offer, Op, Receipt, Text};
use irl_yard::Yard;
use std::alloc::Global;
use std::sync::Wait;

// A store of lines that two passes share.
pub(crate) struct Crew<S: Store> {
    pub(crate) shared: Shared<S>,
    pub(crate) first: Pass<S>,
    pub(crate) second: Pass<S>,
    // Where the passes lay, and lie again when it is closed.
    pub(crate) room: Vec<Pass<S>>,
    ghost lines: { (opening_of shared).parts.urls.settings.kind ≡ LinesKind },
    ghost first_own: { IsOf shared first } by { own_prop first-code first shared },
    ghost first_free: { IsFree first } by { free_prop first-code first },
    ghost second_own: { IsOf shared second } by { own_prop second-code second shared },
    ghost second_free: { IsFree second } by { free_prop second-code second },
    ghost parts: { parts_in first + parts_in second ≡ all_parts },
    ghost room_is: { (length room.items ≡ 0) × (2 ≤ vec_capacity room) },
}

impl<S: Store + Drop> Crew<S> {
    // Two passes of a store of lines.
    pub(crate) fn of(alloc: Global, yard: Yard<S>) -> Result<Crew<S>, Fault> {
        if !yard.is_sound() {
            return Err(Fault::Failed);
        }
        match yard.settings().kind {
            Kind::Lines => {}
            Kind::Tuples | Kind::Crawl => return Err(Fault::Failed),
        }
        match Shared::new(alloc, yard, 2) {
            Ok((shared, passes)) => Ok(two_of(shared, passes)),
            Err((fault, _)) => Err(fault),
        }
    }

    // Hands in an offer of one of the passes, which is told apart by its key.
    pub(crate) fn offer<R: Wait>(
        &mut self,
        rt: &R,
        alloc: Global,
        by_second: bool,
        key: u64,
    ) -> Result<Receipt, Fault> {
        if by_second {
            offer(rt, alloc, &self.shared, &mut self.second, key)
        } else {
            offer(rt, alloc, &self.shared, &mut self.first, key)
        }
    }

    // What closing it answers, and the store that comes back.
    pub(crate) fn close(self) -> (Result<(), Fault>, Yard<S>) {
        let Crew {
            shared,
            first,
            second,
            room,
        } = self;
        let mut passes = room;
        passes.push_reserved(first);
        passes.push_reserved(second);
        match shared.close(passes) {
            Ok(yard) => (Ok(()), yard),
            Err((fault, yard)) => (Err(fault), yard),
        }
    }
}

fn two_of<S: Store>(shared: Shared<S>, passes: Vec<Pass<S>>) -> Crew<S>
    requires lines { (opening_of shared).parts.urls.settings.kind ≡ Kind.Lines }
    requires two { length passes.items ≡ 2 }
    requires fresh { AllByRecursion (IsFreshPass shared) passes.items }
    requires parts { parts_in_all passes.items ≡ all_parts }
{
    let mut room = passes;
    let Some(second) = room.pop() else {
        unreachable!()
    };
    let Some(first) = room.pop() else {
        unreachable!()
    };
    Crew {
        shared,
        first,
        second,
        room,
    }
}

// Hands in an offer of a pass, with no text.
pub(crate) fn offer<R: Wait, S: Store>(
    rt: &R,
    alloc: Global,
    shared: &Shared<S>,
    pass: &mut Pass<S>,
    key: u64,
) -> Result<Receipt, Fault>
    requires lines { (opening_of shared.now).parts.urls.settings.kind ≡ Kind.Lines }
    requires own { IsOf shared.now pass.old }
    requires free { IsFree pass.old }
    ensures own { IsOf shared.now pass.new }
    ensures free { IsFree pass.new }
    ensures parts { parts_in pass.new ≡ parts_in pass.old }
{
    let offer = Offer {
        op: Op::Both,
        key,
        value: 0,
        from: 0,
        aux: Text::from_vec(Vec::new(alloc)),
    };
    match pass.offer(rt, shared, offer) {
        Ok(receipt) => Ok(receipt),
        Err((fault, _)) => Err(fault),
    }
}
