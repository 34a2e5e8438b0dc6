ghost use Rattle.std.specs.Prelude.{◌≡◌, ◌<◌, All, Some, length, map, slice_get};
ghost use Rattle.irl_events.specs.Seen.{seen};
ghost use Rattle.irl_journal.specs.Format.{IsPayload};
ghost use Rattle.irl_log.specs.Spelling.{log_records};

use crate::codec::{payload_length, put_payload};
use irl_events::Event;
use irl_journal::{Frame, Payloads};

// The payloads of the records of some events, in order: each event has one.
#[derive(Drop)]
pub struct EventPayloads<'a> {
    pub events: &'a [Event],
    pub ghost fit: { All IsPayload (log_records (map seen events.now)) },
}

impl Payloads for EventPayloads<'_> {
    ghost payloads = { λ p. log_records (map seen p.events.now) };

    fn count(&self) -> usize {
        self.events.len()
    }

    fn length(&self, i: usize) -> u32 {
        payload_length(event(self.events, i))
    }

    fn put(&self, i: usize, frame: &mut Frame) {
        put_payload(event(self.events, i), frame);
    }
}

// The event there.
fn event(events: &[Event], i: usize) -> &Event
    requires { i < length events.now }
    ensures { slice_get events.now i ≡ Some result.now }
{
    &events[i]
}
