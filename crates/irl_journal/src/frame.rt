ghost use Rattle.std.specs.Prelude.{◌≡◌, ◌++◌, ◌+◌, ◌≤◌, [], ◌∷◌, length, take, drop, vec_len, IfOk};
ghost use Rattle.irl_journal.specs.Format.{body_text};

use crate::format::{CLOSED, HEAD, MAX_PAYLOAD};
use std::alloc::{AllocError, Global};
use std::marker::Model;

/// A payload that is being put together, with room for what stands round it in the file. Contracts see it as a `Draft`.
#[derive(Drop)]
pub struct Frame {
    // The length, the payload, and the next gate; the room of the rest isn't read.
    buffer: Vec<u8>,
    len: usize,
}

impl Model for Frame {
    ghost use Rattle.std.specs.Prelude.{◌≡◌, ◌≤◌, ◌+◌, ◌-◌, ◌++◌, [], ◌∷◌, vec_len, take, drop};
    ghost use Rattle.irl_journal.specs.Appending.{Draft};
    ghost use Rattle.irl_journal.specs.Format.{body_text};

    ghost Value = { Draft };

    ghost view = { λ f. record { room = vec_len f.buffer - 5; bytes = take f.len (drop 4 f.buffer.items) } };

    ghost invariant = { λ f. (f.len + 5 ≤ vec_len f.buffer) × (vec_len f.buffer ≤ 16777221)
        × (take (f.len + 5) f.buffer.items ≡ body_text (take f.len (drop 4 f.buffer.items)) ++ 0 ∷ []) };
}

impl Frame {
    /// An empty payload with room for this many bytes.
    pub fn with_room(alloc: Global, room: u32) -> Result<Frame, AllocError>
        requires { room ≤ MAX_PAYLOAD }
        ensures { IfOk result (λ frame. frame ≡ record { room = room; bytes = [] }) }
    {
        let buffer = vec![in alloc; 0; room as usize + HEAD + 1]?;
        Ok(Frame { buffer, len: 0 })
    }

    /// Empties the payload. It takes no memory.
    pub fn clear(&mut self)
        ensures { self.new ≡ record { room = self.old.room; bytes = [] } }
    {
        self.len = 0;
        close(&mut self.buffer, 0);
    }

    /// Puts bytes at the payload's end. It takes no memory.
    pub fn put(&mut self, bytes: &[u8])
        requires { length self.old.bytes + length bytes.now ≤ self.old.room }
        ensures { self.new ≡ record { room = self.old.room; bytes = self.old.bytes ++ bytes.now } }
    {
        let at = HEAD + self.len;
        self.buffer[at..at + bytes.len()].copy_from_slice(bytes);
        self.len += bytes.len();
        close(&mut self.buffer, self.len);
    }

    // The record's bytes between its gate and the next: the length and the payload.
    pub(crate) fn body(&self) -> &[u8]
        ensures bytes { result.now ≡ body_text self.now.bytes }
        ensures limit { length self.now.bytes ≤ MAX_PAYLOAD }
    {
        &self.buffer[..HEAD + self.len]
    }

    /// The record's bytes behind its gate: the length, the payload, and the next gate, closed.
    pub(crate) fn closed_record(&self) -> &[u8]
        ensures bytes { result.now ≡ body_text self.now.bytes ++ 0 ∷ [] }
        ensures limit { length self.now.bytes ≤ MAX_PAYLOAD }
    {
        &self.buffer[..HEAD + self.len + 1]
    }
}

// Writes the length of a payload of this many bytes in front of it, and the closed gate behind it.
fn close(buffer: &mut [u8], len: usize)
    requires room { len + 5 ≤ length buffer.old }
    requires limit { len ≤ MAX_PAYLOAD }
    ensures long { length buffer.new ≡ length buffer.old }
    ensures record_ { take (len + 5) buffer.new ≡ body_text (take len (drop 4 buffer.old)) ++ 0 ∷ [] }
    ensures payload { take len (drop 4 buffer.new) ≡ take len (drop 4 buffer.old) }
{
    buffer[..HEAD].copy_from_slice(&(len as u32).to_le_bytes());
    buffer[HEAD + len] = CLOSED;
}
