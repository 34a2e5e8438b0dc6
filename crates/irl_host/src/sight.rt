ghost use Rattle.std.specs.Prelude.{◌≡◌, ◌+◌, ◌≤◌, length, option_copied, IfSome};
ghost use Rattle.url.specs.Input.{rsplit_once};
ghost use Rattle.irl_base.specs.Limits.{max_text};
ghost use Rattle.irl_key.specs.Links.{IsCanonicalText};
ghost use Rattle.irl_key.specs.Web.{host_of};
ghost use Rattle.irl_host.specs.Sight as spec;

use irl_base::MAX_TEXT;

/// The host of a URL's text that is plainly canonical, seen without parsing it: `http://`, a host of lower-case letters,
/// digits, `-` and `.` whose last label begins with a letter, `/`, and bytes that no path and no query escapes, with no
/// segment that begins with `.` or `%`. None of any other text, canonical or not. It takes no memory.
pub fn host_at_sight(text: &[u8]) -> Option<&[u8]>
    ensures seen { option_copied result ≡ spec.sight_of text.now }
    ensures canonical { IfSome result (λ _. IsCanonicalText text.now) }
    ensures value { IfSome result (λ host. host.now ≡ host_of text.now) }
    ensures short { IfSome result (λ host. length host.now + 8 ≤ max_text) }
{
    if text.len() > MAX_TEXT {
        return None;
    }
    host_in_front(text.strip_prefix(b"http://")?)
}

// The host in front of a slash and a plain target.
fn host_in_front(rest: &[u8]) -> Option<&[u8]>
    ensures { option_copied result ≡ spec.host_in_front rest.now }
{
    let slash = rest.iter().position(|b| *b == b'/')?;
    let host = &rest[..slash];
    if is_plain_host(host) && is_plain_target(&rest[slash + 1..]) {
        Some(host)
    } else {
        None
    }
}

fn is_plain_host(host: &[u8]) -> bool
    ensures { result ≡ spec.is_plain_host host.now }
{
    is_named(host) && host.iter().all(|b| is_host_byte(*b))
}

// Whether a letter begins the last label.
fn is_named(host: &[u8]) -> bool
    ensures { result ≡ spec.is_named host.now }
{
    last_label(host)
        .first()
        .is_some_and(|b| b.is_ascii_lowercase())
}

// What follows the last dot, or the whole host.
fn last_label(host: &[u8]) -> &[u8]
    ensures { result.now ≡ (rsplit_once 46 host.now).1 }
{
    match host.iter().rposition(|b| *b == b'.') {
        Some(dot) => &host[dot + 1..],
        None => host,
    }
}

fn is_host_byte(b: u8) -> bool
    ensures { result ≡ spec.is_host_byte b }
{
    b.is_ascii_lowercase() || b.is_ascii_digit() || b == b'-' || b == b'.'
}

// Whether all that follows the slash in front of a target is plain.
fn is_plain_target(target: &[u8]) -> bool
    ensures { result ≡ spec.is_plain_behind 47 target.now }
{
    let mut before = b'/';
    for b in target {
        if !is_target_byte(*b) || !may_follow(before, *b) {
            return false;
        }
        before = *b;
    }
    true
}

fn is_target_byte(b: u8) -> bool
    ensures { result ≡ spec.is_target_byte b }
{
    b.is_ascii_alphanumeric() || is_mark(b)
}

// One of `!$%&()*+,-./:;=?@_~`.
fn is_mark(b: u8) -> bool
    ensures { result ≡ spec.is_mark b }
{
    matches!(b, b'!' | b'$'..=b'&' | b'('..=b'/' | b':' | b';' | b'=' | b'?' | b'@' | b'_' | b'~')
}

// Whether a byte can stand behind another: no segment begins with `.` or `%`.
fn may_follow(before: u8, b: u8) -> bool
    ensures { result ≡ spec.may_follow before b }
{
    before != b'/' || b != b'.' && b != b'%'
}
