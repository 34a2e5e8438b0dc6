ghost use Rattle.std.specs.Prelude.{◌≡◌, ◌<◌, ◌≤◌, ◌+◌, List, IfOk, OnOk, OnErr};
ghost use Rattle.irl_offer.specs.Purses.{Budget};
ghost use Rattle.irl_events.specs.Queues.{none_waiting, queue_of, last_of, round_ended};
ghost use Rattle.irl_beast.specs.declared.item.Item.{Item as ItemValue};
ghost use Rattle.irl_beast.specs.Places.{place};
ghost use Rattle.irl_beast.specs.Passes.{read_by, passed};
ghost use Rattle.irl_beast.specs.Plans.{IsPlanOf, planned};

use crate::lists::{LAST, LISTS, lengths_without};
use crate::placing::placed;
use crate::{Item, Plan};
use irl_base::lists::{empty_lists, replace_at, take_out};
use irl_offer::{Place, Purse};
use std::alloc::{AllocError, Global};
use std::marker::Model;

/// The queues of a crawl and the list behind them. Contracts see it as a `Waiting`.
#[derive(Drop)]
pub struct Beast {
    alloc: Global,
    // The queues, from 1, of which there may be 64, and the last list behind them.
    lists: Vec<Vec<Item>>,
    queues: u32,
    passes: u32,
}

impl Model for Beast {
    ghost use Rattle.std.specs.Prelude.{◌≡◌, ◌≤◌, ◌<◌, vec_len};
    ghost use Rattle.irl_base.specs.Lists.{items_of};
    ghost use Rattle.irl_events.specs.Queues.{Waiting};
    ghost use Rattle.irl_beast.specs.declared.item.Item.{Item};

    ghost Value = { Waiting Item };

    ghost view = { λ b. record { lists = items_of b.lists.items; queues = b.queues; passes = b.passes } };

    ghost invariant = { λ b. (vec_len b.lists ≡ 65) × (b.queues ≤ 64) × (b.passes < b.queues) };
}

impl Beast {
    /// So many queues, all empty, at the first pass of a round.
    pub fn new(alloc: Global, queues: u32) -> Result<Beast, AllocError>
        requires least { 1 ≤ queues }
        requires most { queues ≤ 64 }
        ensures { IfOk result (λ beast. beast ≡ none_waiting queues) }
    {
        let lists = empty_lists(alloc, LISTS)?;
        Ok(Beast {
            alloc,
            lists,
            queues,
            passes: 0,
        })
    }

    /// A pass: reads the next queue and then the fresh items, and puts each in its place by the budget of its domain. The places
    /// come in the order of reading. After want of memory the beast is as before, and the fresh items are dropped.
    pub fn pass<B: Purse>(&mut self, fresh: Vec<Item>, purse: &B) -> Result<Vec<Place>, AllocError>
        ensures places { IfOk result (λ places. places.items
            ≡ place self.old.passes self.old.queues (B.budgets purse.now) (read_by self.old fresh.items)) }
        ensures ok { OnOk result (self.new ≡ passed (B.budgets purse.now) self.old fresh.items) }
        ensures err { OnErr result (self.new ≡ self.old) }
    {
        let plan = self.plan(&fresh, purse)?;
        Ok(self.commit(plan))
    }

    /// What a pass would do that reads these fresh items behind the next queue: its places, and all the memory that it takes.
    pub fn plan<B: Purse>(&self, fresh: &[Item], purse: &B) -> Result<Plan, AllocError>
        ensures { IfOk result (λ plan. plan ≡ planned (B.budgets purse.now) self.now fresh.now) }
    {
        let queue = self.queue(self.passes + 1);
        let placed = placed(self.alloc, queue, fresh, self.passes, self.queues, purse)?;
        let lengths = lengths_without(self.alloc, &self.lists, self.passes as usize)?;
        Plan::new(self.alloc, placed.places, lengths, placed.more)
    }

    /// Does the pass that was planned of what waits, and hands its places back. It takes no memory, and can't fail.
    pub fn commit(&mut self, plan: Plan) -> Vec<Place>
        requires { IsPlanOf self.old plan }
        ensures places { result.items ≡ plan.places }
        ensures passed { (budget : Budget) (fresh : List ItemValue) → plan ≡ planned budget self.old fresh →
            self.new ≡ passed budget self.old fresh }
    {
        take_out(self.alloc, &mut self.lists, self.passes as usize);
        let places = plan.put(&mut self.lists);
        self.end_pass();
        places
    }

    // A pass more, and the end of the round where it was the last one.
    fn end_pass(&mut self)
        ensures { self.new ≡ round_ended self.old.lists self.old.queues (self.old.passes + 1) }
    {
        let passes = self.passes + 1;
        if passes < self.queues {
            self.passes = passes;
            return;
        }
        let last = take_out(self.alloc, &mut self.lists, LAST);
        if !last.is_empty() {
            self.queues = (2 * self.queues).min(64);
        }
        replace_at(&mut self.lists, 0, last);
        self.passes = 0;
    }

    /// What waits in a queue, from 1, in order. It takes no memory.
    pub fn queue(&self, i: u32) -> &[Item]
        requires least { 1 ≤ i }
        requires most { i ≤ self.now.queues }
        ensures { result.now ≡ queue_of self.now i }
    {
        &self.lists[i as usize - 1]
    }

    /// What waits behind all queues, in order. It takes no memory.
    pub fn last(&self) -> &[Item]
        ensures { result.now ≡ last_of self.now }
    {
        &self.lists[LAST]
    }

    /// How many queues there are: 1 to 64.
    pub fn queues(&self) -> u32
        ensures value { result ≡ self.now.queues }
        ensures most { result ≤ 64 }
        ensures round { self.now.passes < result }
    {
        let _passes = self.passes;
        self.queues
    }

    /// How many passes of this round are done, fewer than there are queues.
    pub fn passes(&self) -> u32
        ensures value { result ≡ self.now.passes }
        ensures round { result < self.now.queues }
    {
        self.passes
    }
}
