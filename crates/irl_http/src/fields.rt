ghost use Rattle.std.specs.Prelude.{◌≡◌, ◌≤◌, ◌==◌, true, All, map, length, IfOk};
ghost use Rattle.std.specs.List.{list_any, list_all, position, before_first};
ghost use Rattle.std.specs.Char.{is_ascii_digit};
ghost use Rattle.std.specs.Str.Parse.{digits_value};
ghost use Rattle.httparse.specs.Spans.{IsWithin, IsHeaderWithin, span_bytes, header_bytes};
ghost use Rattle.irl_http.specs.Fields.{is_named, values as values_by, transfer_of, claim_of, is_html as html_by, length_value as value_by, is_coding as coding_by, is_html_type as html_type_by, media_type as media_by, has_body as body_by, body_plan as plan_of_body, plan_by, location_of, html_of, first_of};

use httparse::spans::{HeaderSpan, Span};
use irl_base::trim;
use irl_offer::Text;
use std::alloc::{AllocError, Global};

/// The most digits of a length.
const MOST_DIGITS: usize = 18;

/// The transfer coding that a head names.
#[derive(Clone, Copy, Debug, PartialEq, Eq)]
pub(crate) enum Transfer {
    /// None.
    Plain,
    /// `chunked` alone.
    Chunked,
    /// Any other.
    Other,
}

/// The length that a head claims for its body.
#[derive(Clone, Copy, Debug, PartialEq, Eq)]
pub(crate) enum Claim {
    /// None.
    Unclaimed,
    /// This many bytes.
    Length(u64),
    /// What is no length, or several lengths.
    Invalid,
}

/// How the body behind a head is read.
#[derive(Clone, Copy, Debug, PartialEq, Eq)]
pub(crate) enum Plan {
    /// There is none.
    Empty,
    /// It has a coding that isn't read.
    Coded,
    /// Its claimed length is none.
    BadLength,
    /// In chunks.
    Chunked,
    /// This many bytes.
    Sized(u64),
    /// All bytes until the connection ends.
    UntilClose,
}

/// What a head says.
#[derive(Drop)]
pub(crate) struct Head {
    pub status: u16,
    /// The value of the first Location field.
    pub location: Option<Text>,
    /// Whether the body is an HTML page.
    pub html: bool,
    /// How the body is read.
    pub plan: Plan,
}

/// What the head of a status with these fields says. The spans are of `bytes`.
pub(crate) fn head_of(
    alloc: Global,
    status: u16,
    bytes: &[u8],
    headers: &[HeaderSpan],
) -> Result<Head, AllocError>
    requires { All (IsHeaderWithin (length bytes.now)) headers.now }
    ensures status { IfOk result (λ head. head.status ≡ status) }
    ensures location { IfOk result (λ head. head.location ≡ location_of (map (header_bytes bytes.now) headers.now)) }
    ensures html { IfOk result (λ head. head.html ≡ html_of (map (header_bytes bytes.now) headers.now)) }
    ensures plan { IfOk result (λ head. head.plan ≡ plan_by status (map (header_bytes bytes.now) headers.now)) }
{
    let locations = values(alloc, bytes, headers, b"location")?;
    let types = values(alloc, bytes, headers, b"content-type")?;
    Ok(Head {
        status,
        location: first_text(alloc, bytes, &locations)?,
        html: is_html(bytes, &types),
        plan: body_plan(alloc, status, bytes, headers)?,
    })
}

/// How the body behind these fields is read.
fn body_plan(
    alloc: Global,
    status: u16,
    bytes: &[u8],
    headers: &[HeaderSpan],
) -> Result<Plan, AllocError>
    requires { All (IsHeaderWithin (length bytes.now)) headers.now }
    ensures { IfOk result (λ plan. plan ≡ plan_by status (map (header_bytes bytes.now) headers.now)) }
{
    if !has_body(status) {
        return Ok(Plan::Empty);
    }
    let transfers = values(alloc, bytes, headers, b"transfer-encoding")?;
    let lengths = values(alloc, bytes, headers, b"content-length")?;
    let codings = values(alloc, bytes, headers, b"content-encoding")?;
    let transfer = transfer_named(bytes, &transfers);
    let claim = claimed(bytes, &lengths);
    Ok(joined(transfer, claim, is_coded(bytes, &codings)))
}

/// The plan that the codings and the claimed length come to.
fn joined(transfer: Transfer, claim: Claim, coded: bool) -> Plan
    ensures { result ≡ plan_of_body transfer claim coded }
{
    match (transfer, claim) {
        (Transfer::Other, _) => Plan::Coded,
        (Transfer::Plain, Claim::Invalid) => Plan::BadLength,
        _ if coded => Plan::Coded,
        (Transfer::Chunked, _) => Plan::Chunked,
        (Transfer::Plain, Claim::Length(n)) => Plan::Sized(n),
        (Transfer::Plain, Claim::Unclaimed) => Plan::UntilClose,
    }
}

/// Whether the body of this status is read.
fn has_body(status: u16) -> bool
    ensures { result ≡ body_by status }
{
    status >= 200 && status <= 299 && status != 204
}

/// The values of the fields of a name, in order.
fn values(
    alloc: Global,
    bytes: &[u8],
    headers: &[HeaderSpan],
    name: &[u8],
) -> Result<Vec<Span>, AllocError>
    requires { All (IsHeaderWithin (length bytes.now)) headers.now }
    ensures values { IfOk result (λ spans. map (span_bytes bytes.now) spans.items
        ≡ values_by name.now (map (header_bytes bytes.now) headers.now)) }
    ensures within { IfOk result (λ spans. All (IsWithin (length bytes.now)) spans.items) }
{
    let mut spans = Vec::new(alloc);
    for header in headers {
        if has_name(bytes, header, name) {
            spans.push(header.value)?;
        }
    }
    Ok(spans)
}

/// Whether a field has a name.
fn has_name(bytes: &[u8], header: &HeaderSpan, name: &[u8]) -> bool
    requires { IsHeaderWithin (length bytes.now) header.now }
    ensures { result ≡ is_named name.now (header_bytes bytes.now header.now) }
{
    header.name.of(bytes).eq_ignore_ascii_case(name)
}

/// A copy of the first of some values.
fn first_text(alloc: Global, bytes: &[u8], spans: &[Span]) -> Result<Option<Text>, AllocError>
    requires { All (IsWithin (length bytes.now)) spans.now }
    ensures { IfOk result (λ text. text ≡ first_of (map (span_bytes bytes.now) spans.now)) }
{
    match spans.first() {
        Some(span) => Ok(Some(Text::from_bytes(alloc, span.of(bytes))?)),
        None => Ok(None),
    }
}

/// Whether the first Content-Type, where there is one, is that of an HTML page.
fn is_html(bytes: &[u8], spans: &[Span]) -> bool
    requires { All (IsWithin (length bytes.now)) spans.now }
    ensures { result ≡ html_by (first_of (map (span_bytes bytes.now) spans.now)) }
{
    match spans.first() {
        Some(span) => is_html_type(span.of(bytes)),
        None => true,
    }
}

/// Whether a Content-Type is that of an HTML page.
fn is_html_type(value: &[u8]) -> bool
    ensures { result ≡ html_type_by value.now }
{
    let media = media_type(value);
    media.eq_ignore_ascii_case(b"text/html") || media.eq_ignore_ascii_case(b"application/xhtml+xml")
}

/// The media type of a Content-Type, without its parameters.
fn media_type(value: &[u8]) -> &[u8]
    ensures { result.now ≡ media_by value.now }
{
    trim(before_semicolon(value))
}

/// The bytes before the first semicolon, or all where there is none.
fn before_semicolon(value: &[u8]) -> &[u8]
    ensures { result.now ≡ before_first (λ b. b == 59) value.now }
{
    match semicolon(value) {
        Some(end) => &value[..end],
        None => value,
    }
}

/// The place of the first semicolon.
fn semicolon(value: &[u8]) -> Option<usize>
    ensures { result ≡ position (λ b. b == 59) value.now }
{
    value.iter().position(|b| *b == b';')
}

/// The transfer coding that these values name.
fn transfer_named(bytes: &[u8], spans: &[Span]) -> Transfer
    requires { All (IsWithin (length bytes.now)) spans.now }
    ensures { result ≡ transfer_of (map (span_bytes bytes.now) spans.now) }
{
    match spans {
        [] => Transfer::Plain,
        [span] => {
            if span.of(bytes).eq_ignore_ascii_case(b"chunked") {
                Transfer::Chunked
            } else {
                Transfer::Other
            }
        }
        _ => Transfer::Other,
    }
}

/// The length that these values claim.
fn claimed(bytes: &[u8], spans: &[Span]) -> Claim
    requires { All (IsWithin (length bytes.now)) spans.now }
    ensures { result ≡ claim_of (map (span_bytes bytes.now) spans.now) }
{
    let [first, others @ ..] = spans else {
        return Claim::Unclaimed;
    };
    let Some(n) = length_value(first.of(bytes)) else {
        return Claim::Invalid;
    };
    for span in others {
        if length_value(span.of(bytes)) != Some(n) {
            return Claim::Invalid;
        }
    }
    Claim::Length(n)
}

/// The number that a Content-Length gives.
fn length_value(value: &[u8]) -> Option<u64>
    ensures { result ≡ value_by value.now }
{
    if value.is_empty() || value.len() > MOST_DIGITS || !are_digits(value) {
        return None;
    }
    Some(number(value))
}

/// Whether all bytes are digits.
fn are_digits(value: &[u8]) -> bool
    ensures { result ≡ list_all is_ascii_digit value.now }
{
    value.iter().all(|b| b.is_ascii_digit())
}

/// The number that digits write.
fn number(value: &[u8]) -> u64
    requires digits { list_all is_ascii_digit value.now ≡ true }
    requires short { length value.now ≤ 18 }
    ensures { result ≡ digits_value 10 value.now }
{
    let mut n = 0;
    for b in value {
        n = n * 10 + (*b - b'0') as u64;
    }
    n
}

/// Whether one of these values is a content coding that isn't read.
fn is_coded(bytes: &[u8], spans: &[Span]) -> bool
    requires { All (IsWithin (length bytes.now)) spans.now }
    ensures { result ≡ list_any coding_by (map (span_bytes bytes.now) spans.now) }
{
    for span in spans {
        if is_coding(span.of(bytes)) {
            return true;
        }
    }
    false
}

/// Whether a value is a content coding that isn't read.
fn is_coding(value: &[u8]) -> bool
    ensures { result ≡ coding_by value.now }
{
    !value.is_empty() && !value.eq_ignore_ascii_case(b"identity")
}
