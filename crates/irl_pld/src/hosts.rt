ghost use Rattle.std.specs.Prelude.{◌≡◌, ◌<◌, length, option_copied, IfSome};
ghost use Rattle.irl_pld.specs.Domains as spec;

use crate::parts::cut;

// The host without a port and without one dot at its end.
pub fn bare(host: &[u8]) -> &[u8]
    ensures { result.now ≡ spec.bare host.now }
{
    without_last_dot(without_port(host))
}

fn without_port(host: &[u8]) -> &[u8]
    ensures { result.now ≡ spec.without_port host.now }
{
    if host.first() != Some(&b'[') {
        return cut(host, b':').0;
    }
    let (address, port) = cut(host, b']');
    if port.is_some() {
        &host[..address.len() + 1]
    } else {
        host
    }
}

fn without_last_dot(host: &[u8]) -> &[u8]
    ensures { result.now ≡ spec.without_last_dot host.now }
{
    if host.last() == Some(&b'.') {
        &host[..host.len() - 1]
    } else {
        host
    }
}

// Whether the host is an address, which has no domain above it.
pub fn is_address(host: &[u8]) -> bool
    ensures { result ≡ spec.is_address host.now }
{
    host.first() == Some(&b'[') || is_number(last_label(host))
}

fn is_number(label: &[u8]) -> bool
    ensures { result ≡ spec.is_number label.now }
{
    !label.is_empty() && label.iter().all(|b| b.is_ascii_digit())
}

fn last_label(host: &[u8]) -> &[u8]
    ensures { result.now ≡ spec.last_label host.now }
{
    let mut label = host;
    'labels: while let Some(rest) = after_dot(label) {
        label = rest;
    }
    label
}

// What follows the first dot, where there is one.
pub fn after_dot(bytes: &[u8]) -> Option<&[u8]>
    ensures tails { spec.tails bytes.now ≡ spec.tails_left (option_copied result) }
    ensures shorter { IfSome result (λ rest. length rest.now < length bytes.now) }
{
    cut(bytes, b'.').1
}
