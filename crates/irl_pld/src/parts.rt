ghost use Rattle.std.specs.Prelude.{◌≡◌, ◌+◌, ◌∷◌, length, option_copied, IfSome};
ghost use Rattle.std.specs.Iterator.{YieldsFirstRef, item_count};
ghost use Rattle.irl_pld.specs.Cut.{cut as cut_at, split as parts_of, parts_left};

// The bytes before the first separator, and what follows it where there is one.
pub fn cut(bytes: &[u8], separator: u8) -> (&[u8], Option<&[u8]>)
    ensures front { result.0.now ≡ (cut_at separator bytes.now).0 }
    ensures rest { option_copied result.1 ≡ (cut_at separator bytes.now).1 }
    ensures parts { parts_of separator bytes.now ≡ result.0.now ∷ parts_left separator (option_copied result.1) }
    ensures lengths { IfSome result.1 (λ rest. length result.0.now + 1 + length rest.now ≡ length bytes.now) }
{
    match bytes.iter().position(|b| *b == separator) {
        Some(i) => (&bytes[..i], Some(&bytes[i + 1..])),
        None => (bytes, None),
    }
}

// The parts of a text between separators.
#[derive(Drop)]
pub struct Parts<'a> {
    pub left: Option<&'a [u8]>,
    pub separator: u8,
}

// The parts of these bytes, one more than there are separators.
pub fn split(bytes: &[u8], separator: u8) -> Parts<'_>
    ensures { parts_left result.separator (option_copied result.left) ≡ parts_of separator bytes.now }
{
    Parts {
        left: Some(bytes),
        separator,
    }
}

impl<'a> Iterator for Parts<'a> {
    type Item = &'a [u8];

    ghost next_gives = { YieldsFirstRef (λ s. parts_left s.separator (option_copied s.left)) };

    ghost remaining = { item_count (λ s. parts_left s.separator (option_copied s.left)) };

    fn next(&mut self) -> Option<&'a [u8]> {
        let (part, more) = cut(self.left?, self.separator);
        self.left = more;
        Some(part)
    }
}
