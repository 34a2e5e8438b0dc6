ghost use Rattle.std.specs.Prelude.{◌≡◌, Some};

use irl_io::{Failed, MemSource, Source};
use std::alloc::Global;
use std::marker::Model;

/// A source over bytes in memory that never fails. Contracts see the bytes that it will still give.
#[derive(Drop)]
pub(crate) struct SureSource {
    source: MemSource,
}

impl Model for SureSource {
    ghost use Rattle.std.specs.Prelude.{ℕ, List};

    ghost Value = { List ℕ };

    ghost use Rattle.std.specs.Prelude.{◌≡◌, []};

    ghost view = { λ s. s.source.left };

    ghost invariant = { λ s. s.source.failing ≡ [] };
}

impl SureSource {
    /// A source of these bytes. It takes no memory.
    pub(crate) fn new(alloc: Global, bytes: Vec<u8>) -> SureSource
        ensures { result ≡ bytes.items }
    {
        SureSource {
            source: MemSource::new(bytes, Vec::new(alloc)),
        }
    }
}

impl Source for SureSource {
    ghost left = { λ bytes. Some bytes };

    ghost faults = { λ _. 0 };

    fn read(&mut self, into: &mut [u8]) -> Result<usize, Failed> {
        self.source.read(into)
    }
}
