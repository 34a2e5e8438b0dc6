ghost use Rattle.std.specs.Prelude.{◌≡◌};
ghost use Rattle.irl_scan.specs.Bytes.{is_name, kind_of, wants};

/// What a tag's name makes of it.
#[derive(Clone, Copy)]
pub enum Kind {
    /// `a` and `area`.
    Anchor,
    /// `frame` and `iframe`.
    Frame,
    /// `base`.
    Base,
    /// `script`.
    Script,
    /// `style`.
    Style,
    /// Any other.
    Other,
}

/// Whether a name is that word, without regard to the case of letters.
pub fn is_name(word: &[u8], name: &[u8]) -> bool
    ensures { result ≡ is_name word.now name.now }
{
    name.eq_ignore_ascii_case(word)
}

impl Kind {
    /// The kind of a tag of that name.
    pub fn of(name: &[u8]) -> Kind
        ensures { result ≡ kind_of name.now }
    {
        if is_name(b"a", name) || is_name(b"area", name) {
            Kind::Anchor
        } else if is_name(b"frame", name) || is_name(b"iframe", name) {
            Kind::Frame
        } else if is_name(b"base", name) {
            Kind::Base
        } else if is_name(b"script", name) {
            Kind::Script
        } else if is_name(b"style", name) {
            Kind::Style
        } else {
            Kind::Other
        }
    }

    /// Whether an attribute of that name holds the URL of such a tag.
    pub fn wants(self, name: &[u8]) -> bool
        ensures { result ≡ wants self name.now }
    {
        match self {
            Kind::Anchor | Kind::Base => is_name(b"href", name),
            Kind::Frame => is_name(b"src", name),
            Kind::Script | Kind::Style | Kind::Other => false,
        }
    }
}
