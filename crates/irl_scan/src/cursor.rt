ghost use Rattle.std.specs.Prelude.{◌≡◌, ◌-◌, ◌≤◌, length, take, drop, unwrap_or};
ghost use Rattle.irl_base.specs.Limits.{max_page};

use crate::run::cut;

/// What is left of a page, which is read from its front to its end.
#[derive(Clone, Copy)]
pub struct Cursor<'a> {
    /// How many bytes the whole page has.
    pub size: usize,
    /// The bytes that are left.
    pub rest: &'a [u8],
    pub ghost fits: { length rest.now ≤ size },
    pub ghost small: { size ≤ max_page },
}

impl<'a> Cursor<'a> {
    ghost use Rattle.irl_scan.specs.Page.{not_space};
    ghost use Rattle.irl_scan.specs.Reading.{from};

    /// A whole page.
    pub fn new(page: &'a [u8]) -> Cursor<'a>
        requires { length page.now ≤ max_page }
        ensures size { result.size ≡ length page.now }
        ensures rest { result.rest.now ≡ page.now }
    {
        Cursor {
            size: page.len(),
            rest: page,
        }
    }

    /// How many bytes of the page stand before what is left.
    pub fn place(&self) -> u32
        ensures { result ≡ self.now.size - length self.now.rest.now }
    {
        (self.size - self.rest.len()) as u32
    }

    /// Goes on by so many bytes, or as many as there are.
    pub fn skip(&mut self, count: usize)
        ensures rest { self.new.rest.now ≡ drop count self.old.rest.now }
        ensures left { length self.new.rest.now ≡ length self.old.rest.now - count }
        ensures size { self.new.size ≡ self.old.size }
    {
        self.rest = cut(self.rest, count).1;
    }

    /// Goes on behind white space.
    pub fn skip_space(&mut self)
        ensures rest { self.new.rest.now ≡ from not_space self.old.rest.now }
        ensures left { length self.new.rest.now ≤ length self.old.rest.now }
        ensures size { self.new.size ≡ self.old.size }
    {
        self.rest = self.rest.trim_ascii_start();
    }

    /// Goes on to a place of what is left, or to the page's end where there is none. Hands out what stands before it.
    pub fn take_to(&mut self, place: Option<usize>) -> &'a [u8]
        ensures front { result.now ≡ take (unwrap_or place (length self.old.rest.now)) self.old.rest.now }
        ensures rest { self.new.rest.now ≡ drop (unwrap_or place (length self.old.rest.now)) self.old.rest.now }
        ensures left { length self.new.rest.now ≤ length self.old.rest.now }
        ensures size { self.new.size ≡ self.old.size }
    {
        let (front, back) = cut(self.rest, place.unwrap_or(self.rest.len()));
        self.rest = back;
        front
    }
}
