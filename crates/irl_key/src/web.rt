ghost use Rattle.std.specs.Prelude.{◌≡◌, ◌+◌, ◌<◌, ◌≤◌, length, slice_index, All, IfOk, Some};
ghost use Rattle.irl_base.specs.Limits.{max_text};
ghost use Rattle.irl_key.specs.Web.{IsWebText, IsHost, IsVisible, host_of, target_of, url_of};

use std::alloc::{AllocError, Global};
use std::marker::Model;
use url::{Position, Url};

/// A link to a page that a crawler follows. Contracts see it as its canonical text, a list of bytes: the text of a
/// URL of scheme http without user name, password and fragment.
#[derive(Drop)]
pub struct Web {
    pub(crate) url: Url,
}

impl Model for Web {
    ghost use Rattle.std.specs.Prelude.{ℕ, List};
    ghost use Rattle.url.specs.Parts.{serialize};
    ghost use Rattle.irl_key.specs.Web.{IsWeb};

    ghost Value = { List ℕ };

    ghost view = { λ w. serialize w.url };

    ghost invariant = { λ w. IsWeb w.url };
}

impl Web {
    /// The canonical text, as `http://a.test/p?q=1`: visible ASCII alone.
    pub fn text(&self) -> &[u8]
        ensures value { result.now ≡ self.now }
        ensures canonical { IsWebText result.now }
        ensures visible { All IsVisible result.now }
    {
        self.url.as_str().as_bytes()
    }

    /// The host, with `:` and the port where the text has one, as `a.test:8080`. It is never empty.
    pub fn host(&self) -> &[u8]
        ensures value { result.now ≡ host_of self.now }
        ensures given { IsHost result.now }
        ensures short { length result.now + 8 ≤ max_text }
        ensures nonempty { 0 < length result.now }
        ensures visible { All IsVisible result.now }
    {
        self.url
            .slice(Position::BeforeHost, Position::AfterPort)
            .as_bytes()
    }

    /// What a request asks the host for: the path, with `?` and the query where there is one. It begins with `/`.
    pub fn target(&self) -> &[u8]
        ensures value { result.now ≡ target_of self.now }
        ensures rooted { slice_index result.now 0 ≡ 47 }
        ensures visible { All IsVisible result.now }
    {
        self.url
            .slice(Position::BeforePath, Position::AfterQuery)
            .as_bytes()
    }

    // The URL that the text reads as.
    pub(crate) fn as_url(&self) -> &Url
        ensures { url_of self.now ≡ Some result.now }
    {
        &self.url
    }

    /// Another link with the same text.
    pub fn copy(&self, _alloc: Global) -> Result<Web, AllocError>
        ensures { IfOk result (λ web. web ≡ self.now) }
    {
        Ok(Web {
            url: self.url.clone()?,
        })
    }
}

/// A page to fetch: a link under the number that its URL has.
#[derive(Drop)]
pub struct Work {
    /// The place at which the URL was first judged, from 0.
    pub number: u64,
    /// Where the page is.
    pub web: Web,
}
