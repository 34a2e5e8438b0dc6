ghost use Rattle.std.specs.Prelude.{◌≡◌, ◌++◌, IfOk, OnOk};
ghost use Rattle.irl_http.specs.Request.{line, request_of};

use irl_key::Web;
use irl_offer::Text;
use std::alloc::{AllocError, Global};

/// The request for a page, by the name of an agent. The name's bytes stand in it as they are.
#[tactic(auto, unfolding(crate::specs::Request::request_of))]
pub fn request(alloc: Global, web: &Web, agent: &[u8]) -> Result<Text, AllocError>
    ensures { IfOk result (λ text. text ≡ request_of web.now agent.now) }
{
    let mut bytes = Vec::new(alloc);
    bytes.extend_from_slice(b"GET ")?;
    push_line(&mut bytes, web.target(), b" HTTP/1.1")?;
    push_line(&mut bytes, b"Host: ", web.host())?;
    push_line(&mut bytes, b"User-Agent: ", agent)?;
    push_line(&mut bytes, b"Accept-Encoding: ", b"identity")?;
    push_line(&mut bytes, b"Connection: ", b"close")?;
    bytes.extend_from_slice(b"\r\n")?;
    Ok(Text::from_vec(bytes))
}

/// Writes a line of two parts.
fn push_line(bytes: &mut Vec<u8>, first: &[u8], second: &[u8]) -> Result<(), AllocError>
    ensures { OnOk result (bytes.new.items ≡ bytes.old.items ++ line (first.now ++ second.now)) }
{
    bytes.extend_from_slice(first)?;
    bytes.extend_from_slice(second)?;
    bytes.extend_from_slice(b"\r\n")
}
