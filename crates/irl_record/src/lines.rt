ghost use Rattle.std.specs.Prelude.{◌≡◌, true};
ghost use Rattle.irl_record.specs.Forms.{form, form_of, record_of, page_of, kind_of, is_status as has_status, is_skipped as skipped, status_of};
ghost use Rattle.irl_record.specs.Parts.{within, within_of};

/// What a line outside a page says.
#[derive(Clone, Copy)]
pub enum Line<'a> {
    /// Nothing.
    Skipped,
    /// A public suffix.
    Suffix(&'a [u8]),
    /// The URL of a seed.
    Seed(&'a [u8]),
    /// The first line of a page.
    Page(Head<'a>),
    /// The URL of a page that no reply comes from.
    Lost(&'a [u8]),
    /// Nothing that a tape may say.
    Other,
}

/// What the first line of a page says.
#[derive(Clone, Copy)]
pub struct Head<'a> {
    pub status: u16,
    pub html: bool,
    pub url: &'a [u8],
}

/// What a line inside a page says.
#[derive(Clone, Copy)]
pub enum Part<'a> {
    /// The value of the Location field.
    Location(&'a [u8]),
    /// Bytes of the body, and a line feed.
    Whole(&'a [u8]),
    /// Bytes of the body.
    Piece(&'a [u8]),
    /// The end of the page.
    End,
    /// Nothing that a page may say.
    Other,
}

/// Reads a line outside a page.
#[tactic(auto, unfolding(crate::specs::Forms::form_of))]
pub fn line_of(text: &[u8]) -> Line<'_>
    ensures { form result ≡ form_of text.now }
{
    if is_skipped(text) {
        Line::Skipped
    } else if text.starts_with(b"suffix ") {
        Line::Suffix(&text[7..])
    } else if text.starts_with(b"seed ") {
        Line::Seed(&text[5..])
    } else {
        record(text)
    }
}

/// Reads a line that begins a record.
fn record(text: &[u8]) -> Line<'_>
    ensures { form result ≡ record_of text.now }
{
    if text.starts_with(b"page ") {
        page(&text[5..])
    } else if text.starts_with(b"lost ") {
        Line::Lost(&text[5..])
    } else {
        Line::Other
    }
}

/// Whether the line is empty or a comment.
fn is_skipped(text: &[u8]) -> bool
    ensures { result ≡ skipped text.now }
{
    text.is_empty() || text.starts_with(b"#")
}

/// Reads what stands behind the word of a page.
fn page(text: &[u8]) -> Line<'_>
    ensures { form result ≡ page_of text.now }
{
    if !is_status(text) {
        return Line::Other;
    }
    kind(status(text), &text[3..])
}

/// Whether the text begins with three digits, the first of them not 0.
fn is_status(text: &[u8]) -> bool
    ensures { result ≡ has_status text.now }
{
    text.len() >= 3
        && text[0].is_ascii_digit()
        && text[1].is_ascii_digit()
        && text[2].is_ascii_digit()
        && text[0] != b'0'
}

/// The number of the three digits that the text begins with.
fn status(text: &[u8]) -> u16
    requires { has_status text.now ≡ true }
    ensures { result ≡ status_of text.now }
{
    100 * u16::from(text[0] - b'0') + 10 * u16::from(text[1] - b'0') + u16::from(text[2] - b'0')
}

/// Reads what stands behind the status of a page.
fn kind(status: u16, text: &[u8]) -> Line<'_>
    ensures { form result ≡ kind_of status text.now }
{
    if text.starts_with(b" html ") {
        Line::Page(Head {
            status,
            html: true,
            url: &text[6..],
        })
    } else if text.starts_with(b" other ") {
        Line::Page(Head {
            status,
            html: false,
            url: &text[7..],
        })
    } else {
        Line::Other
    }
}

/// Reads a line inside a page.
#[tactic(auto, unfolding(crate::specs::Parts::within_of))]
pub fn part_of(text: &[u8]) -> Part<'_>
    ensures { within result ≡ within_of text.now }
{
    if text.starts_with(b"|") {
        Part::Whole(&text[1..])
    } else if text.starts_with(b"+") {
        Part::Piece(&text[1..])
    } else if text.starts_with(b"to ") {
        Part::Location(&text[3..])
    } else if text == b"end".as_slice() {
        Part::End
    } else {
        Part::Other
    }
}
