ghost use Rattle.std.specs.Prelude.{◌≡◌, [], Some, IsErr, OnOk, OnErr, Contains, is_ok, if◌then◌else◌};
ghost use Rattle.std.specs.Io.KnownBytes.{Appends};
ghost use Rattle.irl_base.specs.Faults.{HasCause, counted};
ghost use Rattle.irl_io.specs.Written.{AppendsPrefix};

use crate::sink::Sink;
use crate::source::Failed;
use std::alloc::Global;
use std::marker::Model;

/// A sink into memory, some of whose calls fail.
#[derive(Drop)]
pub struct MemSink {
    bytes: Vec<u8>,
    failing: Vec<u64>,
    calls: u64,
    faults: u64,
}

impl Model for MemSink {
    ghost use Rattle.irl_io.specs.Memory.{Writing};

    ghost Value = { Writing };

    ghost view = { λ s. record {
      written = s.bytes.items;
      calls = s.calls;
      failing = s.failing.items;
      faults = s.faults;
    } };
}

impl MemSink {
    /// An empty sink. The calls whose numbers stand in `failing`, counted from 0, fail, and so does one that finds no
    /// memory.
    pub fn new(alloc: Global, failing: Vec<u64>) -> MemSink
        ensures { result ≡ record { written = []; calls = 0; failing = failing.items; faults = 0 } }
    {
        MemSink {
            bytes: Vec::new(alloc),
            failing,
            calls: 0,
            faults: 0,
        }
    }

    /// The bytes written so far.
    pub fn bytes(&self) -> &[u8]
        ensures { result.now ≡ self.now.written }
    {
        &self.bytes
    }
}

impl Sink for MemSink {
    ghost written = { λ s. Some s.written };

    ghost faults = { λ s. s.faults };

    fn write(&mut self, bytes: &[u8]) -> Result<(), Failed>
        ensures ok { OnOk result (Appends (Some self.old.written) (Some self.new.written) bytes.now) }
        ensures err { OnErr result (AppendsPrefix (Some self.old.written) (Some self.new.written) bytes.now) }
        ensures cause { HasCause (IsErr result) self.old.faults self.new.faults }

        // It fails at the calls that are listed, and then writes nothing.
        ensures listed { Contains self.old.failing self.old.calls → IsErr result }
        ensures nothing { OnErr result (self.new.written ≡ self.old.written) }
        ensures calls { self.new.calls ≡ counted self.old.calls }
        ensures failing { self.new.failing ≡ self.old.failing }
        ensures faults { self.new.faults ≡ (if is_ok result then self.old.faults else counted self.old.faults) }
    {
        let call = self.calls;
        self.calls = self.calls.saturating_add(1);
        if !self.failing.contains(&call) && self.bytes.extend_from_slice(bytes).is_ok() {
            return Ok(());
        }
        self.faults = self.faults.saturating_add(1);
        Err(Failed)
    }
}
