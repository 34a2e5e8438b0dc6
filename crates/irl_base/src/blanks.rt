ghost use Rattle.std.specs.Prelude.{◌≡◌};
ghost use Rattle.irl_base.specs.Blanks.{is_blank as blank, trim as trimmed, trim_end as trimmed_end, trim_start as trimmed_start};

/// The bytes without the optional white space at both ends.
pub fn trim(bytes: &[u8]) -> &[u8]
    ensures { result.now ≡ trimmed bytes.now }
{
    trim_end(trim_start(bytes))
}

/// The bytes without the optional white space at their front.
pub fn trim_start(bytes: &[u8]) -> &[u8]
    ensures { result.now ≡ trimmed_start bytes.now }
{
    let mut rest = bytes;
    while let Some((first, others)) = rest.split_first() {
        if !is_blank(*first) {
            return rest;
        }
        rest = others;
    }
    rest
}

/// The bytes without the optional white space at their end.
pub fn trim_end(bytes: &[u8]) -> &[u8]
    ensures { result.now ≡ trimmed_end bytes.now }
{
    let mut rest = bytes;
    while let Some((last, others)) = rest.split_last() {
        if !is_blank(*last) {
            return rest;
        }
        rest = others;
    }
    rest
}

/// Whether a byte is optional white space: a space or a tab.
pub fn is_blank(byte: u8) -> bool
    ensures { result ≡ blank byte }
{
    byte == b' ' || byte == b'\t'
}
