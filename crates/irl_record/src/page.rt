ghost use Rattle.std.specs.Prelude.{◌≡◌, ◌-◌, ◌∷◌, ◌++◌, [], length, IfOk};
ghost use Rattle.irl_base.specs.Limits.{max_page};
ghost use Rattle.irl_record.specs.Opened.{opened, with_location as located, with_body};

use irl_key::Web;
use irl_offer::{MAX_PAGE, Reply, Text};
use std::alloc::{AllocError, Global};
use std::marker::Model;

/// A page whose end is yet to come.
#[derive(Drop)]
pub struct Page {
    web: Web,
    status: u16,
    html: bool,
    location: Option<Text>,
    body: Vec<u8>,
    is_new: bool,
}

impl Model for Page {
    ghost use Rattle.std.specs.Prelude.{◌≤◌, length};
    ghost use Rattle.irl_base.specs.Limits.{max_page};
    ghost use Rattle.irl_record.specs.Opened.{Opened};

    ghost Value = { Opened };

    ghost view = { λ p. record {
      url = p.web;
      reply = record { status = p.status; location = p.location; html = p.html; body = p.body.items };
      is_new = p.is_new;
    } };

    ghost invariant = { λ p. length p.body.items ≤ max_page };
}

impl Page {
    /// A page before its first line. It takes no memory.
    pub fn new(alloc: Global, status: u16, html: bool, web: Web) -> Page
        ensures { result ≡ opened status html web }
    {
        Page {
            web,
            status,
            html,
            location: None,
            body: Vec::new(alloc),
            is_new: true,
        }
    }

    /// The page with the value of its Location field, which only its first line may give.
    pub fn with_location(self, alloc: Global, text: &[u8]) -> Result<Option<Page>, AllocError>
        ensures { IfOk result (λ page. page ≡ located self text.now) }
    {
        if !self.is_new {
            return Ok(None);
        }
        let location = Some(Text::from_bytes(alloc, text)?);
        Ok(Some(Page {
            location,
            is_new: false,
            ..self
        }))
    }

    /// The page with a whole line more of its body, unless the body is then too long.
    pub fn with_line(self, bytes: &[u8]) -> Result<Option<Page>, AllocError>
        ensures { IfOk result (λ page. page ≡ with_body self (bytes.now ++ 10 ∷ [])) }
    {
        let mut page = self;
        if bytes.len() >= page.room() {
            return Ok(None);
        }
        page.body.extend_from_slice(bytes)?;
        page.body.push(b'\n')?;
        page.is_new = false;
        Ok(Some(page))
    }

    /// The page with more of its body, unless the body is then too long.
    pub fn with_piece(self, bytes: &[u8]) -> Result<Option<Page>, AllocError>
        ensures { IfOk result (λ page. page ≡ with_body self bytes.now) }
    {
        let mut page = self;
        if bytes.len() > page.room() {
            return Ok(None);
        }
        page.body.extend_from_slice(bytes)?;
        page.is_new = false;
        Ok(Some(page))
    }

    /// How many bytes more the body may have.
    fn room(&self) -> usize
        ensures { result ≡ max_page - length self.now.reply.body }
    {
        MAX_PAGE - self.body.len()
    }

    /// Where the page is, and its reply, whose body gives back the memory that it grew by and doesn't need. It takes none.
    pub fn close(self) -> (Web, Reply)
        ensures url { result.0 ≡ self.url }
        ensures reply { result.1 ≡ self.reply }
    {
        let Page {
            web,
            status,
            html,
            location,
            mut body,
            is_new: _,
        } = self;
        body.shrink_to_fit();
        let reply = Reply {
            status,
            location,
            html,
            body: Text::from_vec(body),
        };
        (web, reply)
    }
}
