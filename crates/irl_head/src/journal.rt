//! The head's journal: looked for, and written.

ghost use Rattle.std.specs.Prelude.{◌≡◌, ◌<◌, ◌≤◌, ℕ, List, [], ◌∷◌, true, false, length, IfOk, IsErr};
ghost use Rattle.std.specs.Option.{ForSome};
ghost use Rattle.irl_base.specs.Faults.{HasCause};
ghost use Rattle.irl_disk.specs.Images.{LeavesSame};
ghost use Rattle.irl_journal.specs.Format.{StandsFor};
ghost use Rattle.irl_head.specs.Finding.{FindsHead, fault_in_head, found_in_head};
ghost use Rattle.irl_head.specs.Head.{head_bytes};
ghost use Rattle.irl_head.specs.StoreFiles.{head_file, IsOtherFile};
ghost use Rattle.irl_head.specs.Writing.{WritesHead};

use crate::files::{FILES, HEAD};
use crate::head::{HEAD_LEN, encode};
use crate::head_visitor::HeadVisitor;
use crate::open_fault::OpenFault;
use irl_disk::{Failed, Store};
use irl_journal::{Frame, Journal, JournalFault};
use irl_offer::Settings;
use std::alloc::{AllocError, Global};

/// The settings of the head, or none where it has no record. A file of at most one byte isn't touched.
pub fn find_head<S: Store>(alloc: Global, store: &mut S) -> Result<Option<Settings>, OpenFault>
    ensures { FindsHead result (S.told store.old) (S.told store.new) }
{
    if store.length(HEAD)? <= 1 {
        return Ok(None);
    }
    let mut visitor = HeadVisitor { found: None };
    if let Err(fault) = Journal::visit(alloc, store, HEAD, &mut visitor) {
        return Err(head_fault(visitor.found, fault));
    }
    head_found(visitor.found)
}

// What a head's journal that was read whole says.
fn head_found(found: Option<Result<Settings, u64>>) -> Result<Option<Settings>, OpenFault>
    ensures { result ≡ found_in_head found }
{
    match found {
        Some(Ok(settings)) => Ok(Some(settings)),
        Some(Err(at)) => Err(OpenFault::NotOurs(at)),
        None => Ok(None),
    }
}

// What a head's journal was refused with, after what was found in it.
fn head_fault(found: Option<Result<Settings, u64>>, fault: JournalFault) -> OpenFault
    ensures { result ≡ fault_in_head found fault }
{
    match fault {
        JournalFault::Failed => OpenFault::Failed,
        JournalFault::Memory => OpenFault::Memory,
        JournalFault::Damaged(at) => match found {
            Some(Err(at)) => OpenFault::NotOurs(at),
            Some(Ok(_)) => OpenFault::NotOurs(at),
            None => OpenFault::Damaged(HEAD, at),
        },
    }
}

/// Whether a file behind the head has more than one byte.
pub fn has_others<S: Store>(store: &mut S) -> Result<bool, Failed>
    ensures others { IfOk result (λ has. has ≡ true → ForSome (S.told store.old).files (λ files.
        (f : ℕ) × IsOtherFile f × (1 < length (files f)))) }
    ensures none { IfOk result (λ has. has ≡ false → ForSome (S.told store.old).files (λ files.
        (f : ℕ) → IsOtherFile f → length (files f) ≤ 1)) }
    ensures same { (S.told store.new).files ≡ (S.told store.old).files }
    ensures stops { LeavesSame (S.told store.old) (S.told store.new) }
    ensures taken { (S.told store.new).taken ≡ (S.told store.old).taken }
    ensures cause { HasCause (IsErr result) (S.told store.old).faults (S.told store.new).faults }
{
    for f in 1..FILES {
        if store.length(f)? > 1 {
            return Ok(true);
        }
    }
    Ok(false)
}

/// The record of a head that is to be written.
pub fn head_frame(alloc: Global, settings: &Settings) -> Result<Frame, AllocError>
    ensures { IfOk result (λ frame. frame.bytes ≡ head_bytes settings.now) }
{
    let mut frame = Frame::with_room(alloc, HEAD_LEN as u32)?;
    frame.put(&encode(settings));
    Ok(frame)
}

/// Appends the head's record to its journal, which has none.
pub fn write_head<S: Store>(
    alloc: Global,
    store: &mut S,
    frame: &mut Frame,
) -> Result<(), OpenFault>
    requires blank { ForSome (S.told store.old).files (λ files. StandsFor (files head_file) []) }
    ensures { WritesHead frame.old.bytes result (S.told store.old) (S.told store.new) }
{
    let mut visitor = HeadVisitor { found: None };
    let mut head = match Journal::visit(alloc, store, HEAD, &mut visitor) {
        Ok(head) => head,
        Err(fault) => return Err(head_fault(None, fault)),
    };
    head.append(store, frame)?;
    Ok(())
}
