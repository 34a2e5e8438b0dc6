ghost use Rattle.std.specs.Prelude.{◌≡◌, ◌≤◌, [], None, Err, ℕ, List, length, IfOk, MatchResult};
ghost use Rattle.irl_pld.specs.Domains.{pld_of, domain_of, one_more, tails, bare as without_port_and_dot};
ghost use Rattle.irl_pld.specs.Longest.{EndsIn, IsDomain};
ghost use Rattle.irl_pld.specs.Names.{bad_line, is_listed};
ghost use Rattle.irl_pld.specs.Sets.{AreNamesOf};
ghost use Rattle.irl_pld.specs.Faults.{IsCause};

use crate::hosts::{after_dot, bare, is_address};
use crate::names::{is_name, lines};
use irl_offer::Text;
use std::alloc::{AllocError, AllocFailed, Global};
use std::collections::BTreeSet;
use std::marker::Model;

/// Why a suffix text is refused.
#[derive(Clone, Copy, Debug, PartialEq, Eq)]
pub enum SuffixFault {
    /// The first line that is no name, counted from 1.
    BadLine(u64),
    /// The allocator had no memory.
    Memory,
}

impl From<AllocError> for SuffixFault {
    ghost use Rattle.std.specs.Prelude.{◌≡◌};
    ghost use Rattle.irl_pld.specs.declared.suffixes.SuffixFault.TheVariants.{Memory};

    ghost from_gives = { λ _ e. e ≡ Memory };

    fn from(_: AllocError) -> SuffixFault {
        SuffixFault::Memory
    }
}

impl<T: Drop> From<AllocFailed<T>> for SuffixFault {
    ghost use Rattle.std.specs.Prelude.{◌≡◌};
    ghost use Rattle.irl_pld.specs.declared.suffixes.SuffixFault.TheVariants.{Memory};

    ghost from_gives = { λ _ e. e ≡ Memory };

    fn from(_: AllocFailed<T>) -> SuffixFault {
        SuffixFault::Memory
    }
}

/// A list of public suffixes. Contracts see it as its text, a list of bytes: names joined by line feeds, each of
/// them labels of lower-case letters, digits and `-` joined by dots, 253 bytes at most.
#[derive(Drop)]
pub struct Suffixes {
    text: Text,
    names: BTreeSet<Vec<u8>>,
}

impl Model for Suffixes {
    ghost use Rattle.std.specs.Prelude.{ℕ, List};
    ghost use Rattle.irl_pld.specs.Sets.{AreNamesOf};

    ghost Value = { List ℕ };

    ghost view = { λ s. s.text };

    ghost invariant = { λ s. AreNamesOf s.names s.text };
}

impl Suffixes {
    /// Reads a suffix text. A name that comes again counts once.
    pub fn read(alloc: Global, text: &[u8]) -> Result<Suffixes, SuffixFault>
        ensures value { IfOk result (λ suffixes. suffixes ≡ text.now) }
        ensures cause { MatchResult result (λ _. bad_line text.now ≡ None) (IsCause text.now) }
    {
        let names = read_names(alloc, text)?;
        let text = Text::from_bytes(alloc, text)?;
        Ok(Suffixes { text, names })
    }

    /// The text that was read. It takes no memory.
    pub fn text(&self) -> &[u8]
        ensures value { result.now ≡ self.now }
        ensures good { bad_line result.now ≡ None }
    {
        let _names = &self.names;
        self.text.bytes()
    }

    /// The same suffixes once more.
    pub fn copy(&self, alloc: Global) -> Result<Suffixes, AllocError>
        ensures { IfOk result (λ suffixes. suffixes ≡ self.now) }
    {
        let names = self.names.clone()?;
        let text = self.text.copy(alloc)?;
        Ok(Suffixes { text, names })
    }

    /// The pay-level domain of a host, which may have a port: the longest suffix and one label more, or two labels
    /// where no suffix fits. An address, a suffix and a single label are their own domain. The host ends in its domain,
    /// but for a port and one dot at its end. It takes no memory.
    #[tactic(auto, unfolding(crate::specs::Domains::pld_of))]
    pub fn pld<'a>(&self, host: &'a [u8]) -> &'a [u8]
        ensures value { result.now ≡ pld_of self.now host.now }
        ensures domain { IsDomain self.now (without_port_and_dot host.now) result.now }
        ensures ends { EndsIn (without_port_and_dot host.now) result.now }
        ensures within { length result.now ≤ length host.now }
        ensures empty { result.now ≡ [] → without_port_and_dot host.now ≡ [] }
    {
        self.domain(bare(host))
    }

    fn domain<'a>(&self, host: &'a [u8]) -> &'a [u8]
        ensures { result.now ≡ domain_of (is_listed self.now) host.now }
    {
        if is_address(host) || self.lists(host) {
            return host;
        }
        self.registered(host)
    }

    // The longest suffix and one label more, or two labels.
    fn registered<'a>(&self, host: &'a [u8]) -> &'a [u8]
        ensures { result.now ≡ one_more (is_listed self.now) host.now (tails host.now) }
    {
        let mut whole = host;
        let Some(mut tail) = after_dot(host) else {
            return host;
        };
        'tails: while let Some(next) = after_dot(tail) {
            if self.lists(tail) {
                return whole;
            }
            whole = tail;
            tail = next;
        }
        whole
    }

    fn lists(&self, name: &[u8]) -> bool
        ensures { result ≡ is_listed self.now name.now }
    {
        self.names.contains(name)
    }
}

// The names of a suffix text.
fn read_names(alloc: Global, text: &[u8]) -> Result<BTreeSet<Vec<u8>>, SuffixFault>
    ensures names { IfOk result (λ names. AreNamesOf names text.now) }
    ensures cause { MatchResult result (λ _. bad_line text.now ≡ None) (IsCause text.now) }
{
    let mut names = BTreeSet::new(alloc);
    let mut number = 0;
    for line in lines(text) {
        number += 1;
        if !is_name(line) {
            return Err(SuffixFault::BadLine(number));
        }
        names.insert(line.to_vec(alloc)?)?;
    }
    Ok(names)
}
