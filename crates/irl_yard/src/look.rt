//! Looking at a store, which makes none.

ghost use Rattle.std.specs.Prelude.{◌≡◌, None, IfOk, IfErr, IfSome};
ghost use Rattle.irl_yard.specs.Looking.{LooksAs, LooksBlank, LooksMade, LookRefused};

use crate::enter::adopt_made;
use crate::parts::Parts;
use crate::yard::Yard;
use irl_disk::Store;
use irl_head::{OpenFault, find_head, has_others};
use std::alloc::Global;

/// What a look finds of a store.
#[derive(Drop)]
pub enum Looked<S: Store> {
    /// It wasn't made yet.
    Blank(S),
    /// It was made, and is open.
    Made(Yard<S>),
}

impl<S: Store> Yard<S> {
    /// Opens a store with the settings that it has, of whatever kind, where it was made; it makes none.
    pub fn look(alloc: Global, store: S) -> Result<Looked<S>, (OpenFault, S)>
        ensures found { IfOk result (LooksAs (S.told store)) }
        ensures refused { IfErr result (λ e. LookRefused e.0 (S.told store) (S.told e.1)) }
    {
        let mut store = store;
        match parts_of(alloc, &mut store) {
            Ok(Some(parts)) => Ok(Looked::Made(Yard { store, parts })),
            Ok(None) => Ok(Looked::Blank(store)),
            Err(fault) => Err((fault, store)),
        }
    }
}

// Opens the parts of a store that was made; none where it wasn't made yet.
fn parts_of<S: Store>(alloc: Global, store: &mut S) -> Result<Option<Parts>, OpenFault>
    ensures blank { IfOk result (λ found. found ≡ None → LooksBlank (S.told store.old) (S.told store.new)) }
    ensures made { IfOk result (λ found. IfSome found (λ parts.
        LooksMade parts (S.told store.old) (S.told store.new))) }
    ensures refused { IfErr result (λ fault. LookRefused fault (S.told store.old) (S.told store.new)) }
{
    match find_head(alloc, store)? {
        Some(settings) => Ok(Some(adopt_made(alloc, store, &settings)?)),
        None => {
            if has_others(store)? {
                return Err(OpenFault::NotOurs(0));
            }
            Ok(None)
        }
    }
}
