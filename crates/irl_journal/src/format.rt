ghost use Rattle.std.specs.Prelude.{◌≡◌, ◌≢◌, ◌⊎◌, ◌≤◌, ◌++◌, [], ◌∷◌, List, ℕ, length as len};
ghost use Rattle.std.specs.Prelude.{true, false, IfSome, IfNone};
ghost use Rattle.std.specs.Int.{w32, to_le_bytes};
ghost use Rattle.irl_journal.specs.Format.{open_gate, max_payload, body_text, IsPayload, HasNoRecord};

/// The greatest length of a payload, in bytes.
pub const MAX_PAYLOAD: u32 = 16_777_216;

/// How many bytes the length takes in front of a payload.
pub const HEAD: usize = 4;

/// A gate whose record counts.
pub const OPEN: u8 = 0xA5;

/// A gate whose record doesn't.
pub const CLOSED: u8 = 0;

/// The longest record, with its gate and the next.
pub const LONGEST: usize = MAX_PAYLOAD as usize + HEAD + 2;

// Whether the bytes begin with a closed gate.
pub fn begins_closed(bytes: &[u8]) -> bool
    ensures closed { result ≡ true → (gate : ℕ) × (rest : List ℕ) × (bytes.now ≡ gate ∷ rest) × (gate ≢ open_gate) }
    ensures open { result ≡ false → (bytes.now ≡ []) ⊎ ((rest : List ℕ) × (bytes.now ≡ open_gate ∷ rest)) }
{
    match bytes {
        [gate, ..] => *gate != OPEN,
        [] => false,
    }
}

// The payload of the record at the front, and the bytes from the next gate on, where the record is open and whole.
pub fn split_record(bytes: &[u8]) -> Option<(&[u8], &[u8])>
    ensures found { IfSome result (λ p. IsPayload p.0.now × (bytes.now ≡ open_gate ∷ body_text p.0.now ++ p.1.now)
        × (1 ≤ len p.1.now)) }
    ensures none { IfNone result (HasNoRecord bytes.now) }
{
    let [OPEN, a, b, c, d, rest @ ..] = bytes else {
        return None;
    };
    let length = u32::from_le_bytes([*a, *b, *c, *d]);
    if length > MAX_PAYLOAD || rest.len() <= length as usize {
        return None;
    }
    Some(rest.split_at(length as usize))
}

// The length of a payload, where these five bytes are an open gate and a length that a payload may have.
pub fn payload_length(front: &[u8]) -> Option<u32>
    requires { len front.now ≡ 5 }
    ensures found { IfSome result (λ n. (n ≤ MAX_PAYLOAD) × (front.now ≡ open_gate ∷ to_le_bytes w32 n)) }
    ensures none { IfNone result ((n : ℕ) → n ≤ max_payload → front.now ≡ open_gate ∷ to_le_bytes w32 n → ⊥) }
{
    let [OPEN, a, b, c, d] = front else {
        return None;
    };
    let length = u32::from_le_bytes([*a, *b, *c, *d]);
    if length > MAX_PAYLOAD {
        return None;
    }
    Some(length)
}
