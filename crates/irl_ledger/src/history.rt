//! What the log of a crawl shows by itself.

ghost use Rattle.std.specs.Prelude.{◌≡◌, ◌&&◌, ◌||◌, ◌++◌, nat_lt, length, map, IfOk, OnOk};
ghost use Rattle.irl_events.specs.Seen.{seen};
ghost use Rattle.irl_events.specs.Legal.{are_distinct, none_fell, one_rose};
ghost use Rattle.irl_ledger.specs.Broken.{RefusesAlone, TakesAlone, blank_history, keeps_alone, kept_of};
ghost use Rattle.irl_ledger.specs.Broken.{outline_after, settled_numbers};
ghost use Rattle.irl_ledger.specs.Noting.{noted};

use crate::notes::Notes;
use irl_events::{Event, Numbers, Settled};
use irl_fate::{a_front_rose, no_front_fell, numbers_differ};
use irl_log::VisitEvents;
use irl_offer::Outcome;
use std::alloc::{AllocError, Global};
use std::marker::Model;

/// What was read of a crawl's log: how far it brings the crawl, its events but for the notes, each with the place of its
/// record, and the place of each host's last note. It takes the events in order, up to the first that breaks a rule which the log shows by itself. Contracts see it
/// as a `LogHistory`.
#[derive(Drop)]
pub struct History {
    alloc: Global,
    begun: bool,
    // The numbers of the last Pairs.
    cuts: u64,
    sent: u64,
    pairs: u64,
    // Those of the last Settle.
    fronts: Vec<u64>,
    events: Vec<(u64, Event)>,
    notes: Notes,
}

impl Model for History {
    ghost use Rattle.std.specs.Coded.{codes, coded_ℕ, coded_list};
    ghost use Rattle.std.specs.Cmp.Lexicographic.{slice_cmp};
    ghost use Rattle.std.specs.FinMap as finmap;
    ghost use Rattle.std.specs.Ordering.{nat_cmp};
    ghost use Rattle.std.specs.Prelude.{map};
    ghost use Rattle.irl_events.specs.Seen.{seen};
    ghost use Rattle.irl_ledger.specs.Broken.{LogHistory};

    ghost Value = { LogHistory };

    ghost coded = { Prim.hlevel (codes, finmap.code {R = slice_cmp nat_cmp} (coded_list coded_ℕ) coded_ℕ) };

    ghost view = { λ h. record {
      outline = record { begun = h.begun; cuts = h.cuts; sent = h.sent; pairs = h.pairs; fronts = h.fronts.items };
      events = map (λ p. (p.0, seen p.1)) h.events.items;
      notes = h.notes;
    } };
}

impl History {
    /// Of a log over so many buckets, before its first event.
    pub fn blank(alloc: Global, buckets: u32) -> Result<History, AllocError>
        ensures { IfOk result (λ history. history ≡ blank_history buckets) }
    {
        Ok(History {
            alloc,
            begun: false,
            cuts: 0,
            sent: 0,
            pairs: 0,
            fronts: vec![in alloc; 0; buckets as usize]?,
            events: Vec::new(alloc),
            notes: Notes::new(alloc),
        })
    }

    // Its events but for the notes, each with its place, and the places of the notes.
    pub(crate) fn into_parts(self) -> (Vec<(u64, Event)>, Notes)
        ensures events { map (λ p. (p.0, seen p.1)) result.0.items ≡ self.events }
        ensures notes { result.1 ≡ self.notes }
    {
        let History { events, notes, .. } = self;
        (events, notes)
    }

    // Whether an event keeps what the log shows by itself.
    fn allows(&self, event: &Event) -> Result<bool, AllocError>
        ensures { IfOk result (λ allows. allows ≡ keeps_alone self.now.outline (seen event.now)) }
    {
        match event {
            Event::Begin(_) => Ok(!self.begun),
            Event::Pairs {
                cuts,
                judged,
                pairs,
            } => Ok(
                self.begun && self.cuts <= *cuts && self.sent <= *judged && self.pairs <= *pairs,
            ),
            Event::Pass { judged } => Ok(self.begun && *judged == self.sent),
            Event::Robots(_) => Ok(self.begun),
            Event::Settle { fronts, done } => {
                let settles = settles_alone(
                    self.alloc,
                    &self.fronts,
                    fronts.items(),
                    done.items(),
                )?;
                Ok(self.begun && settles)
            }
        }
    }

    // One more event.
    fn keep(&mut self, at: u64, event: Event) -> Result<(), AllocError>
        ensures outline { OnOk result (self.new.outline ≡ outline_after self.old.outline (seen event)) }
        ensures events { OnOk result (self.new.events ≡ self.old.events ++ kept_of at (seen event)) }
        ensures notes { OnOk result (self.new.notes ≡ noted at (seen event) self.old.notes) }
    {
        self.notes.take(at, &event)?;
        match &event {
            Event::Pairs {
                cuts,
                judged,
                pairs,
            } => {
                (self.cuts, self.sent, self.pairs) = (*cuts, *judged, *pairs);
            }
            Event::Settle { fronts, .. } => self.fronts = fronts.items().to_vec(self.alloc)?,
            _ => {}
        }
        self.begun = true;
        match event {
            Event::Robots(_) => {}
            event => self.events.push((at, event))?,
        }
        Ok(())
    }
}

impl VisitEvents for History {
    ghost takes = { TakesAlone };

    ghost refuses = { RefusesAlone };

    fn take(&mut self, at: u64, event: Event) -> Result<bool, AllocError> {
        if !self.allows(&event)? {
            return Ok(false);
        }
        self.keep(at, event)?;
        Ok(true)
    }
}

// Whether a Settle has an outcome or a front that rose, no number twice, and no front that fell.
fn settles_alone(
    alloc: Global,
    old: &[u64],
    fronts: &[u64],
    done: &[(u64, Outcome)],
) -> Result<bool, AllocError>
    ensures { IfOk result (λ settles. settles ≡ ((nat_lt 0 (length done.now) || one_rose old.now fronts.now)
        && are_distinct (settled_numbers done.now) && none_fell old.now fronts.now)) }
{
    if old.len() != fronts.len() {
        return Ok(false);
    }
    if done.is_empty() && !a_front_rose(old, fronts) {
        return Ok(false);
    }
    if !numbers_differ(alloc, done)? {
        return Ok(false);
    }
    Ok(no_front_fell(old, fronts))
}
