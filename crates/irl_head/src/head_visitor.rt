ghost use Rattle.irl_head.specs.Finding.{Finds};

use crate::head::decode;
use irl_journal::Visit;
use irl_offer::Settings;
use std::alloc::AllocError;

/// Where the gate behind the head's record stands.
const SECOND: u64 = 105;

/// Takes the records of the head's journal: the first is read, and a second makes the store of another make.
#[derive(Drop)]
pub struct HeadVisitor {
    /// What was found, after the first record: settings, or the place of what makes the store of another make.
    pub found: Option<Result<Settings, u64>>,
}

impl Visit for HeadVisitor {
    ghost takes = { λ old _ payload new. Finds old.found payload new.found };

    ghost refuses = { λ _ _ _ _. ⊥ };

    fn take(&mut self, _at: u64, payload: &[u8]) -> Result<bool, AllocError> {
        let found = match self.found {
            None => decode(payload),
            Some(Ok(_)) => Err(SECOND),
            Some(Err(at)) => Err(at),
        };
        self.found = Some(found);
        Ok(true)
    }
}
