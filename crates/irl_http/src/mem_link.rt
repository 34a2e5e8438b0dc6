ghost use Rattle.std.specs.Prelude.{◌≡◌, ◌+◌, ◌<◌, ◌≤◌, ◌↔◌, ◌⊎◌, [], ◌∷◌, ◌++◌, min, max, length, take, drop, true, false};
ghost use Rattle.std.specs.Prelude.{Some, None, IsErr, IsTrue, IsFalse, IfOk, OnOk, OnErr, IfSome, IfNone, Contains};
ghost use Rattle.std.specs.Prelude.{vec_len, vec_capacity, is_ok, is_some, slice_get, option_map, if◌then◌else◌};
ghost use Rattle.std.specs.Io.{ReadsAtMost};
ghost use Rattle.std.specs.Io.KnownBytes.{Appends, Keeps, ReadConsumes};
ghost use Rattle.std.proofs.Common.{ap};
ghost use Rattle.irl_base.specs.Faults.{HasCause, counted};
ghost use Rattle.irl_io.specs.Written.{AppendsPrefix};
ghost use Rattle.irl_http.specs.declared.link.Connection.{Connection};
ghost use Rattle.irl_http.specs.Links.{Connects, StaySame, WritesOnLast, WritesPart, written_on_last};
ghost use Rattle.irl_http.specs.Memory.{Linking, as_made, left_of, left_at_read_of, written_of, at_within, HasRoom, IsSameCurrent, OnlyMoment};

use crate::link::{Connection, Link};
use irl_io::{Clock, Failed, JumpClock};
use irl_offer::Text;
use std::alloc::Global;
use std::marker::Model;

/// The connection that is read and written.
#[derive(Drop)]
pub(crate) struct Current {
    port: u16,
    gives: Text,
    written: Vec<u8>,
    at: usize,
    read_at: usize,
}

/// A link in memory, some of whose calls fail. It is a clock as well, which jumps.
#[derive(Drop)]
pub struct MemLink {
    alloc: Global,
    // The next one last.
    ahead: Vec<Text>,
    past: Vec<Connection>,
    current: Option<Current>,
    failing: Vec<u64>,
    calls: u64,
    faults: u64,
    clock: JumpClock,
}

impl Model for MemLink {
    ghost use Rattle.std.specs.Prelude.{◌++◌, reverse, is_some};
    ghost use Rattle.irl_http.specs.Memory.{Linking, as_made, left_of, left_at_read_of, written_of, at_within, HasRoom};

    ghost Value = { Linking };

    ghost view = { λ s. record {
      ahead = reverse s.ahead.items;
      made = s.past.items ++ as_made s.current;
      connected = is_some s.current;
      left = left_of s.current;
      left_at_read = left_at_read_of s.current;
      written = written_of s.current;
      calls = s.calls;
      failing = s.failing.items;
      faults = s.faults;
      moment = s.clock;
    } };

    ghost invariant = { λ s. at_within s.current × HasRoom s.ahead s.past s.current };
}

impl MemLink {
    /// A link whose peers give these connections in order. The calls of `connect`, `read` and `write` whose numbers
    /// stand in `failing`, counted together from 0, fail, and so do one that finds no memory, a connect past the last
    /// connection, and a read or write without one.
    pub fn new(alloc: Global, connections: Vec<Text>, failing: Vec<u64>) -> MemLink
        ensures { result ≡ record {
          ahead = connections.items;
          made = [];
          connected = false;
          left = [];
          left_at_read = [];
          written = [];
          calls = 0;
          failing = failing.items;
          faults = 0;
          moment = 0;
        } }
    {
        let mut ahead = connections;
        ahead.reverse();
        MemLink {
            alloc,
            ahead,
            past: Vec::new(alloc),
            current: None,
            failing,
            calls: 0,
            faults: 0,
            clock: JumpClock::new(),
        }
    }

    /// What was written on the connection of this number, counted from 0; none only where it wasn't made.
    pub fn written(&self, i: u64) -> Option<&[u8]>
        ensures { option_map (λ bytes. bytes.now) result
            ≡ option_map (λ (c : Connection). c.written) (slice_get self.now.made i) }
    {
        let i = usize::try_from(i).ok()?;
        if let Some(connection) = self.past.get(i) {
            return Some(connection.written.bytes());
        }
        match &self.current {
            Some(current) if i == self.past.len() => Some(&current.written),
            _ => None,
        }
    }
}

impl MemLink {
    /// Counts a call, and says whether it is one that fails.
    fn fails(&mut self) -> bool
        ensures fails { IsTrue result ↔ Contains self.old.failing self.old.calls }
        ensures new { self.new ≡ record self.old { calls = counted self.old.calls } }
    {
        let call = self.calls;
        self.calls = self.calls.saturating_add(1);
        self.failing.contains(&call)
    }

    /// Counts a fault.
    fn fault(&mut self) -> Failed
        ensures later { self.old.faults ≤ self.new.faults }
        ensures new { self.new ≡ record self.old { faults = counted self.old.faults } }
    {
        self.faults = self.faults.saturating_add(1);
        Failed
    }
}

impl Link for MemLink {
    ghost left = { λ s. Some s.left };

    ghost left_at_read = { λ s. Some s.left_at_read };

    ghost written = { λ s. Some s.written };

    ghost connections = { λ s. Some s.made };

    ghost faults = { λ s. s.faults };

    ghost clock_is_apart = { λ x y same. (
      ap (λ (s : Linking). Some s.made) same,
      ap (λ (s : Linking). s.faults) same,
      ap (λ (s : Linking). Some s.left) same,
      ap (λ (s : Linking). Some s.left_at_read) same,
      ap (λ (s : Linking). Some s.written) same,
    ) };

    fn connect(&mut self, port: u16) -> Result<(), Failed>
        ensures ok { OnOk result
            (Connects port (Some self.old.made) (Some self.new.made) (Some self.new.left) (Some self.new.written)) }
        ensures err { OnErr result (StaySame (Some self.old.made) (Some self.new.made)) }
        ensures cause { HasCause (IsErr result) self.old.faults self.new.faults }

        // It gives the next connection. A connect that fails changes nothing but the counts.
        ensures next { OnOk result (self.old.ahead ≡ self.new.left ∷ self.new.ahead) }
        ensures connected { OnOk result (self.new.connected ≡ true) }
        ensures listed { Contains self.old.failing self.old.calls → IsErr result }
        // The first takes room for all: a later one fails only where it is listed, and past the last connection.
        ensures fails { self.old.connected ≡ true → IsErr result →
            Contains self.old.failing self.old.calls ⊎ (self.old.ahead ≡ []) }
        ensures rest { OnOk result ((self.new.failing ≡ self.old.failing) × (self.new.moment ≡ self.old.moment)
            × (self.new.calls ≡ counted self.old.calls) × (self.new.faults ≡ self.old.faults)) }
        ensures same { OnErr result (self.new
            ≡ record self.old { calls = counted self.old.calls; faults = counted self.old.faults }) }
    {
        if self.fails() {
            return Err(self.fault());
        }
        match next_connection(
            self.alloc,
            port,
            &mut self.ahead,
            &mut self.past,
            &mut self.current,
        ) {
            Ok(()) => Ok(()),
            Err(Failed) => Err(self.fault()),
        }
    }

    fn read(&mut self, into: &mut [u8]) -> Result<usize, Failed>
        ensures bound { ReadsAtMost result into.new }
        ensures bytes { ReadConsumes (Some self.old.left) (Some self.new.left) result into.new }
        ensures last { Some self.new.left_at_read ≡ Some self.old.left }
        ensures written { Keeps (Some self.old.written) (Some self.new.written) }
        ensures connections { StaySame (Some self.old.made) (Some self.new.made) }
        ensures cause { HasCause (IsErr result) self.old.faults self.new.faults }

        // It gives all that there is room for, unless the call is listed or there is no connection.
        ensures count { IfOk result (λ n. n ≡ min (length into.new) (length self.old.left)) }
        ensures fails { IsErr result ↔ (Contains self.old.failing self.old.calls ⊎ (self.old.connected ≡ false)) }
        ensures rest { self.new ≡ record self.old {
          left = self.new.left;
          left_at_read = self.old.left;
          calls = counted self.old.calls;
          faults = (if is_ok result then self.old.faults else counted self.old.faults);
        } }
    {
        if self.fails() {
            mark_read(&mut self.current);
            return Err(self.fault());
        }
        match read_current(&mut self.current, into) {
            Some(count) => Ok(count),
            None => Err(self.fault()),
        }
    }

    fn write(&mut self, bytes: &[u8]) -> Result<(), Failed>
        ensures ok { OnOk result (Appends (Some self.old.written) (Some self.new.written) bytes.now) }
        ensures err { OnErr result (AppendsPrefix (Some self.old.written) (Some self.new.written) bytes.now) }
        ensures connection { OnOk result (WritesOnLast bytes.now (Some self.old.made) (Some self.new.made)) }
        ensures partly { OnErr result (WritesPart bytes.now (Some self.old.made) (Some self.new.made)) }
        ensures left { Keeps (Some self.old.left) (Some self.new.left) }
        ensures cause { HasCause (IsErr result) self.old.faults self.new.faults }

        // A write that fails changes nothing but the counts.
        ensures listed { Contains self.old.failing self.old.calls → IsErr result }
        ensures none { self.old.connected ≡ false → IsErr result }
        ensures rest { OnOk result (self.new ≡ record self.old {
          made = self.new.made;
          written = self.new.written;
          calls = counted self.old.calls;
        }) }
        ensures same { OnErr result (self.new
            ≡ record self.old { calls = counted self.old.calls; faults = counted self.old.faults }) }
    {
        if self.fails() {
            return Err(self.fault());
        }
        if write_current(&mut self.current, bytes) {
            return Ok(());
        }
        Err(self.fault())
    }
}

impl Clock for MemLink {
    ghost last = { λ s. s.moment };

    ghost apart = { OnlyMoment };

    fn now(&mut self) -> u64
        ensures value { result ≡ self.old.moment }
        ensures same { self.new ≡ self.old }
    {
        self.clock.now()
    }

    fn wait_till(&mut self, moment: u64)
        ensures { self.new ≡ record self.old { moment = max self.old.moment moment } }
    {
        self.clock.wait_till(moment);
    }
}

/// Takes the next connection in place of the current one, which becomes a past one. Where it fails nothing has changed.
fn next_connection(
    alloc: Global,
    port: u16,
    ahead: &mut Vec<Text>,
    past: &mut Vec<Connection>,
    current: &mut Option<Current>,
) -> Result<(), Failed>
    requires { HasRoom ahead.old past.old current.old }
    ensures next { OnOk result (ahead.old.items ≡ ahead.new.items ++ left_of current.new ∷ []) }
    ensures past { OnOk result (past.new.items ≡ past.old.items ++ as_made current.old) }
    ensures made { OnOk result
        (as_made current.new ≡ record { port = port; gives = left_of current.new; written = [] } ∷ []) }
    ensures some { OnOk result (is_some current.new ≡ true) }
    ensures written { OnOk result (written_of current.new ≡ []) }
    ensures within { at_within current.old → at_within current.new }
    ensures room { HasRoom ahead.new past.new current.new }
    ensures fails { OnErr result (is_some current.old ≡ true → ahead.old.items ≡ []) }
    ensures same { OnErr result ((ahead.new.items ≡ ahead.old.items) × (past.new.items ≡ past.old.items)
        × (current.new ≡ current.old)) }
{
    if current.is_none() && past.reserve(ahead.len()).is_err() {
        return Err(Failed);
    }
    let Some(gives) = ahead.pop() else {
        return Err(Failed);
    };
    retire(past, current);
    *current = Some(Current {
        port,
        gives,
        written: Vec::new(alloc),
        at: 0,
        read_at: 0,
    });
    Ok(())
}

/// Makes the current connection a past one, if there is one.
fn retire(past: &mut Vec<Connection>, current: &mut Option<Current>)
    requires { is_some current.old ≡ true → vec_len past.old < vec_capacity past.old }
    ensures past { past.new.items ≡ past.old.items ++ as_made current.old }
    ensures len { vec_len past.new ≤ vec_len past.old + 1 }
    ensures none { is_some current.old ≡ false → vec_len past.new ≡ vec_len past.old }
    ensures capacity { vec_capacity past.new ≡ vec_capacity past.old }
{
    if let Some(old) = current.take() {
        past.push_reserved(Connection {
            port: old.port,
            gives: old.gives,
            written: Text::from_vec(old.written),
        });
    }
}

/// Notes that the connection is read where it is.
fn mark_read(current: &mut Option<Current>)
    requires { at_within current.old }
    ensures within { at_within current.new }
    ensures last { left_at_read_of current.new ≡ left_of current.old }
    ensures left { left_of current.new ≡ left_of current.old }
    ensures same { (as_made current.new ≡ as_made current.old) × (written_of current.new ≡ written_of current.old)
        × (is_some current.new ≡ is_some current.old) }
{
    if let Some(c) = current {
        c.read_at = c.at;
    }
}

/// Reads what the connection gives, where there is one.
fn read_current(current: &mut Option<Current>, into: &mut [u8]) -> Option<usize>
    requires { at_within current.old }
    ensures within { at_within current.new }
    ensures count { IfSome result (λ n. n ≡ min (length into.old) (length (left_of current.old))) }
    ensures bytes { IfSome result (λ n. take n into.new ≡ take n (left_of current.old)) }
    ensures left { IfSome result (λ n. left_of current.new ≡ drop n (left_of current.old)) }
    ensures last { left_at_read_of current.new ≡ left_of current.old }
    ensures some { is_some result ≡ is_some current.old }
    ensures none { IfNone result (left_of current.new ≡ left_of current.old) }
    ensures same { (as_made current.new ≡ as_made current.old) × (written_of current.new ≡ written_of current.old)
        × (is_some current.new ≡ is_some current.old) }
{
    let Some(c) = current else {
        return None;
    };
    c.read_at = c.at;
    let count = copy_some(&c.gives.bytes()[c.at..], into);
    c.at += count;
    Some(count)
}

/// Writes on the connection, and says whether there was one and memory for it.
fn write_current(current: &mut Option<Current>, bytes: &[u8]) -> bool
    ensures written { IsTrue result → written_of current.new ≡ written_of current.old ++ bytes.now }
    ensures made { IsTrue result → as_made current.new ≡ written_on_last bytes.now (as_made current.old) }
    ensures some { IsTrue result → (is_some current.old ≡ true) × (is_some current.new ≡ true) }
    ensures left { IsTrue result → (left_of current.new ≡ left_of current.old)
        × (left_at_read_of current.new ≡ left_at_read_of current.old) }
    ensures within { at_within current.old → at_within current.new }
    ensures same { IsFalse result → IsSameCurrent current.old current.new }
{
    let Some(old) = current.take() else {
        return false;
    };
    let Current {
        port,
        gives,
        mut written,
        at,
        read_at,
    } = old;
    let result = written.extend_from_slice(bytes);
    *current = Some(Current {
        port,
        gives,
        written,
        at,
        read_at,
    });
    result.is_ok()
}

/// Copies as many bytes as there are and as there is room for, and says how many.
fn copy_some(from: &[u8], into: &mut [u8]) -> usize
    ensures count { result ≡ min (length into.old) (length from.now) }
    ensures bytes { take result into.new ≡ take result from.now }
{
    let count = into.len().min(from.len());
    into[..count].copy_from_slice(&from[..count]);
    count
}
