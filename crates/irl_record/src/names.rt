ghost use Rattle.std.specs.Prelude.{◌≡◌, ◌≤◌, [], None, length, IfOk, OnOk};
ghost use Rattle.irl_pld.specs.Names.{bad_line};
ghost use Rattle.irl_record.specs.Limits.{max_suffixes};
ghost use Rattle.irl_record.specs.Names.{with_name, joined};

use irl_offer::Text;
use irl_pld::is_name;
use std::alloc::{AllocError, Global};
use std::collections::BTreeSet;
use std::marker::Model;

/// The greatest length of a suffix text, in bytes.
const MAX_SUFFIXES: usize = 4_194_304;

/// The suffixes of a tape. Contracts see them as their text: names joined by line feeds.
#[derive(Drop)]
pub struct Names {
    text: Text,
    names: BTreeSet<Vec<u8>>,
}

impl Model for Names {
    ghost use Rattle.std.specs.Prelude.{ℕ, List};

    ghost Value = { List ℕ };

    ghost use Rattle.irl_record.specs.Names.{AreShortNamesOf};

    ghost view = { λ n. n.text };

    ghost invariant = { λ n. AreShortNamesOf n.names n.text };
}

impl Names {
    /// No suffixes. It takes no memory.
    pub fn new(alloc: Global) -> Names
        ensures { result ≡ [] }
    {
        Names {
            text: Text::from_vec(Vec::new(alloc)),
            names: BTreeSet::new(alloc),
        }
    }

    /// The text.
    pub fn text(&self) -> &Text
        ensures value { result.now ≡ self.now }
        ensures good { bad_line result.now ≡ None }
        ensures short { length result.now ≤ max_suffixes }
    {
        let _names = &self.names;
        &self.text
    }

    /// These suffixes and one more name, unless it is no name or there were enough of them.
    pub fn add(self, alloc: Global, name: &[u8]) -> Result<Option<Names>, AllocError>
        ensures { IfOk result (λ names. names ≡ with_name self name.now) }
    {
        if !is_name(name) {
            return Ok(None);
        }
        if self.names.contains(name) {
            return Ok(Some(self));
        }
        let Names { text, mut names } = self;
        let text = join(text.into_vec(), name)?;
        if text.len() > MAX_SUFFIXES {
            return Ok(None);
        }
        names.insert(name.to_vec(alloc)?)?;
        let text = Text::from_vec(text);
        Ok(Some(Names { text, names }))
    }
}

/// Joins a name to a suffix text.
fn join(mut text: Vec<u8>, name: &[u8]) -> Result<Vec<u8>, AllocError>
    ensures { IfOk result (λ longer. longer.items ≡ joined text.items name.now) }
{
    if !text.is_empty() {
        text.push(b'\n')?;
    }
    text.extend_from_slice(name)?;
    Ok(text)
}
