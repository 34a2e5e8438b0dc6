ghost use Rattle.std.specs.Prelude.{◌≡◌, ◌↔◌, ◌<◌, ℕ, List, false, [], length, true, Some, OnOk, OnErr, IfSome, IfNone, IsSome};
ghost use Rattle.irl_key.specs.Web.{IsHost};
ghost use Rattle.irl_polite.specs.Schedule.{empty_of, raised};
ghost use Rattle.irl_polite.specs.Answers.{AllAwaited, IsNextDue};
ghost use Rattle.irl_polite.specs.History.{Steps, Load, Take, RobotsDone};
ghost use Rattle.irl_polite.specs.Inside.{schedule, Says, SaysNothing, answer_of, due_by};

use crate::hosts::{Host, advance, ask, find, hand_in};
use crate::job::Job;
use crate::known::Known;
use crate::loading::{commit, prepare};
use crate::slots::{Slot, taken};
use crate::turns::{first, push, remove_first, replace_first};
use irl_key::Work;
use irl_offer::{Note, Text};
use irl_robots::{HostState, Leave};
use std::alloc::{AllocError, Global};
use std::cmp::Reverse;
use std::collections::{BTreeMap, BinaryHeap};
use std::marker::Model;

/// Pages to fetch and what is known of their hosts. Contracts see its `schedule`.
#[derive(Drop)]
pub struct Front {
    alloc: Global,
    agent: Text,
    delay: u64,
    moment: u64,
    // The places of hosts, by their names.
    names: BTreeMap<Vec<u8>, usize>,
    hosts: Vec<Host>,
    // The items of the last load.
    slots: Vec<Slot>,
    left: u64,
    // The dues of the hosts that have items left and aren't awaited, with the places of their first items. There is
    // room for all hosts with items.
    turns: BinaryHeap<Reverse<(u64, usize)>>,
}

impl Model for Front {
    ghost use Rattle.std.specs.BinaryHeap.{heap_items, heap_capacity};
    ghost use Rattle.irl_polite.specs.Inside.{Held, place_of, IsSound};

    ghost Value = { Held };

    ghost view = { λ f. record {
      agent = f.agent;
      delay = f.delay;
      moment = f.moment;
      names = f.names.entries;
      hosts = f.hosts.items;
      slots = f.slots.items;
    } };

    ghost invariant = { λ f. IsSound (place_of f.names.entries) f.hosts.items f.slots.items f.left (heap_items f.turns)
        (heap_capacity f.turns) };
}

impl Front {
    /// A front without items, whose moment is 0. Two fetches of one host start at least so many milliseconds apart, and
    /// robots files are read for the agent of this product token. It takes no memory.
    pub fn new(alloc: Global, delay: u64, agent: Text) -> Front
        ensures { schedule result ≡ empty_of delay agent }
    {
        Front {
            alloc,
            agent,
            delay,
            moment: 0,
            names: BTreeMap::new(alloc),
            hosts: Vec::new(alloc),
            slots: Vec::new(alloc),
            left: 0,
            turns: BinaryHeap::new(alloc),
        }
    }

    /// The product token for which notes are read.
    pub fn agent(&self) -> &[u8]
        ensures { result.now ≡ (schedule self.now).agent }
    {
        self.agent.bytes()
    }

    /// How many items are left.
    pub fn left(&self) -> u64
        ensures { result ≡ length (schedule self.now).items }
    {
        self.left
    }

    /// Takes items to fetch, in the order of their turns, and notes on hosts, of which the last one for a host counts. What
    /// `take` and `robots_done` need is taken here. After want of memory the front is as before, and items and notes are
    /// dropped.
    pub fn load(&mut self, items: Vec<Work>, notes: Vec<Note>) -> Result<(), AllocError>
        requires { (schedule self.old).items ≡ [] }
        ensures ok { OnOk result (Steps (schedule self.old) (Load items.items notes.items) (schedule self.new)) }
        ensures err { OnErr result (schedule self.new ≡ schedule self.old) }

        // No robots file is awaited then.
        ensures ready { (name : List ℕ) → (schedule self.new).awaited name ≡ false }
    {
        let (mut slots, read) = prepare(
            self.alloc,
            &mut self.names,
            &mut self.hosts,
            &mut self.turns,
            items,
            notes,
            self.agent.bytes(),
        )?;
        commit(&mut self.hosts, &mut self.turns, &mut slots, read);
        self.left = slots.len() as u64;
        self.slots = slots;
        Ok(())
    }

    /// What is to be done at this moment in milliseconds, or at the greatest that was handed in. It takes no memory.
    pub fn take(&mut self, now: u64) -> Job
        ensures step { Steps (schedule self.old) (Take now result) (schedule self.new) }

        // When there is nothing to do yet, or nothing at all.
        ensures waits { (till : ℕ) → (result ≡ Job.WaitTill till)
            ↔ (IsNextDue (raised (schedule self.old) now) till × ((raised (schedule self.old) now).moment < till)) }
        ensures idle { (result ≡ Job.Idle) ↔ AllAwaited (schedule self.old) }

        // A robots file is asked for by the name of a link's host.
        ensures given { (name : List ℕ) → result ≡ Job.Robots name → IsHost name }
    {
        self.moment = self.moment.max(now);
        let Some((due, at)) = first(&self.turns) else {
            return Job::Idle;
        };
        if self.moment < due {
            return Job::WaitTill(due);
        }
        let place = self.slots[at].host;
        let next = self.slots[at].next;
        let leave = says(&self.hosts[place], &self.slots[at], self.moment);
        let later = self.moment.saturating_add(self.delay);
        let Some(leave) = leave else {
            remove_first(&mut self.turns);
            return Job::Robots(ask(&mut self.hosts, self.alloc, place, later));
        };
        let due = due_after(leave, later, due);
        replace_first(&mut self.turns, due, next);
        advance(&mut self.hosts, place, due, next);
        self.left -= 1;
        answer(taken(&mut self.slots, at), leave)
    }

    /// Hands in what the robots file of a host said at a moment in milliseconds, with the text that `Job::Robots` gave. It
    /// takes no memory.
    pub fn robots_done(&mut self, host: Text, state: HostState, when: u64)
        requires { (schedule self.old).awaited host ≡ true }
        ensures { Steps (schedule self.old) (RobotsDone host state when) (schedule self.new) }
    {
        let place = find(&self.names, host.bytes()).unwrap();
        let known = Known { state, when };
        let (due, first) = hand_in(&mut self.hosts, place, host, known);
        push(&mut self.turns, due, first.unwrap());
    }
}

// What a note on a host that is in use at the moment says of an item that is left; nothing where none is in use.
fn says(host: &Host, slot: &Slot, moment: u64) -> Option<Leave>
    requires { IsSome slot.now.work }
    ensures some { IfSome result (λ leave. (work : Work) → slot.now.work ≡ Some work
        → Says host.now moment work leave) }
    ensures none { IfNone result (SaysNothing host.now moment) }
{
    let (Some(work), Some(known)) = (&slot.work, &host.known) else {
        return None;
    };
    if !known.is_in_use(moment) {
        return None;
    }
    Some(known.state.leave(work.web.target()))
}

// When a host is due after an answer to one of its items.
fn due_after(leave: Leave, later: u64, due: u64) -> u64
    ensures { result ≡ due_by leave later due }
{
    match leave {
        Leave::Allowed => later,
        _ => due,
    }
}

// The answer to an item.
fn answer(work: Work, leave: Leave) -> Job
    ensures { result ≡ answer_of work leave }
{
    match leave {
        Leave::Allowed => Job::Page(work),
        Leave::Denied(line) => Job::Denied(work, line),
        Leave::Shut => Job::ShutOut(work),
    }
}
