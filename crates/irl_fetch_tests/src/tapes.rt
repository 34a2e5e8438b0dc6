//! Tapes that several of the tests read.

use irl_io::MemSource;
use irl_record::Tape;
use std::alloc::{AllocError, Global};

/// A tape with a page of each kind.
pub const TAPE_A: &[u8] = b"suffix test
seed http://www.a.test/
page 200 other http://www.a.test/robots.txt
|User-agent: *
|Disallow: /private
end
page 200 html http://www.a.test/
|<a href=\"/one\">1</a>
|<a href=\"/private/x\">2</a>
|<a href=\"http://b.test/\">3</a>
|<a href=\"/one#top\">4</a>
end
page 301 other http://www.a.test/one
to http://c.test/new
end
page 200 html http://b.test/
|<a href=\"http://www.a.test/\">a</a>
|<a href=\"http://c.test/new\">c</a>
|<a href=\"https://c.test/secure\">s</a>
|<a href=\"/gone\">g</a>
end
page 200 html http://c.test/new
|<a href=\"http://b.test/\">b</a>
end
# these are not linked
page 200 other http://c.test/old
|old
end
lost http://c.test/lost
page 204 other http://c.test/none
end
";

/// The tape of a text that is taken.
pub fn tape(alloc: Global, text: &[u8]) -> Result<Tape, AllocError> {
    let mut source = MemSource::new(text.to_vec(alloc)?, Vec::new(alloc));
    match Tape::read(alloc, &mut source, true) {
        Ok(tape) => Ok(tape),
        Err(_) => Err(AllocError),
    }
}
