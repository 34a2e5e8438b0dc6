ghost use Rattle.std.specs.Prelude.{◌≡◌, option_copied};
ghost use Rattle.std.specs.List.{list_all};
ghost use Rattle.irl_pld.specs.Names as spec;
ghost use Rattle.irl_pld.specs.Cut.{split as parts_of, parts_left};

use crate::parts::{Parts, split};

// The most bytes of a name.
const MOST: usize = 253;

/// Whether the line is a suffix name: labels of lower-case letters, digits and `-`, joined by dots, 253 bytes at most in all.
pub fn is_name(line: &[u8]) -> bool
    ensures { result ≡ spec.is_name line.now }
{
    line.len() <= MOST && has_labels(line)
}

fn has_labels(name: &[u8]) -> bool
    ensures { result ≡ list_all spec.is_label (parts_of 46 name.now) }
{
    for label in split(name, b'.') {
        if !is_label(label) {
            return false;
        }
    }
    true
}

// Whether this is a label: lower-case letters, digits and `-`, one or more.
fn is_label(label: &[u8]) -> bool
    ensures { result ≡ spec.is_label label.now }
{
    !label.is_empty() && label.iter().all(|b| is_name_byte(*b))
}

fn is_name_byte(b: u8) -> bool
    ensures { result ≡ spec.is_name_byte b }
{
    b == b'-' || b.is_ascii_digit() || b.is_ascii_lowercase()
}

// The lines of a suffix text.
pub fn lines(text: &[u8]) -> Parts<'_>
    ensures { parts_left result.separator (option_copied result.left) ≡ spec.lines_of text.now }
{
    if text.is_empty() {
        Parts {
            left: None,
            separator: b'\n',
        }
    } else {
        split(text, b'\n')
    }
}
