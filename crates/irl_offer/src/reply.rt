use crate::Text;
use std::marker::Model;

/// What is asked for.
#[derive(Clone, Copy, Debug, PartialEq, Eq)]
pub enum Want {
    /// A page, whose body must fit the limit of pages.
    Page,
    /// A robots file, of whose body the first 512,000 bytes are taken.
    Robots,
}

/// A reply (RFC 9110). Contracts see it as a `Received`.
#[derive(Drop)]
pub struct Reply {
    pub status: u16,
    /// The value of the first Location field.
    pub location: Option<Text>,
    /// Whether the body is an HTML page.
    pub html: bool,
    /// At most 1,048,576 bytes.
    pub body: Text,
}

impl Model for Reply {
    ghost use Rattle.std.specs.Prelude.{◌≤◌, length};
    ghost use Rattle.irl_base.specs.Limits.{max_page};
    ghost use Rattle.irl_offer.specs.Replies.{Received};

    ghost Value = { Received };

    ghost view = { λ r. record { status = r.status; location = r.location; html = r.html; body = r.body } };

    ghost invariant = { λ r. length r.body ≤ max_page };
}

/// What a fetch came to.
#[derive(Drop)]
pub enum Answer {
    /// A whole reply.
    Reply(Reply),
    /// None came.
    NoReply,
    /// The connection ended after this many bytes, before a reply was whole.
    Short(u64),
    /// This many first bytes begin no reply.
    BadReply(u64),
    /// This many first bytes pass a limit.
    TooLarge(u64),
    /// The body is in a coding that isn't read.
    Coded,
}
