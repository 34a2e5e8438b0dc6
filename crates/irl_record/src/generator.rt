ghost use Rattle.std.specs.Prelude.{◌≡◌, ◌<◌, ◌^◌, ◌++◌, Ok, true, IfErr, IfOk, OnOk};
ghost use Rattle.irl_record.specs.Reading.{tape_of};
ghost use Rattle.irl_record.specs.Site.{site_text as text_by, page_lines, head_line, body_lines, link_line, link_below, page_url};

use crate::reading::TapeFault;
use crate::sure_source::SureSource;
use crate::tape::Tape;
use itoa::Buffer;
use std::alloc::{AllocError, Global};

/// The tape of a site of so many pages, which link to one another. Of fewer than 536,870,912 pages it comes unless
/// memory runs out. The text of more may pass the limit of lines, which is answered as want of memory too.
pub fn site(alloc: Global, pages: u32) -> Result<Tape, AllocError>
    ensures { IfOk result (λ tape. tape_of true (text_by pages) ≡ Ok tape) }
{
    match read_site(alloc, pages) {
        Ok(tape) => Ok(tape),
        Err(_) => Err(AllocError),
    }
}

/// The tape of a site of so many pages, or why there is none.
fn read_site(alloc: Global, pages: u32) -> Result<Tape, TapeFault>
    ensures value { IfOk result (λ tape. tape_of true (text_by pages) ≡ Ok tape) }
    // Nothing but memory is wanting where the text is a tape.
    ensures cause { pages < 2 ^ 29 → IfErr result (λ fault. fault ≡ TapeFault.Memory) }
{
    let text = site_text(alloc, u64::from(pages))?;
    let mut source = SureSource::new(alloc, text);
    Tape::read(alloc, &mut source, true)
}

/// The text of a site of so many pages.
#[tactic(auto, unfolding(crate::specs::Site::site_text))]
fn site_text(alloc: Global, pages: u64) -> Result<Vec<u8>, AllocError>
    requires { pages < 2 ^ 32 }
    ensures { IfOk result (λ text. text.items ≡ text_by pages) }
{
    let mut text = b"suffix test\nseed http://s0.test/p0\n".to_vec(alloc)?;
    for number in 0..pages {
        add_page(&mut text, number, pages)?;
    }
    Ok(text)
}

/// Adds the lines of a page of this number, of so many.
fn add_page(text: &mut Vec<u8>, number: u64, pages: u64) -> Result<(), AllocError>
    requires below { number < pages }
    requires few { pages < 2 ^ 32 }
    ensures { OnOk result (text.new.items ≡ text.old.items ++ page_lines pages number) }
{
    add_head(text, number)?;
    add_links(text, number, pages)?;
    text.extend_from_slice(b"end\n")?;
    Ok(())
}

/// Adds the first line of a page.
fn add_head(text: &mut Vec<u8>, number: u64) -> Result<(), AllocError>
    ensures { OnOk result (text.new.items ≡ text.old.items ++ head_line number) }
{
    text.extend_from_slice(b"page 200 html ")?;
    add_url(text, number)?;
    text.push(b'\n')?;
    Ok(())
}

/// Adds the lines of a page's body.
fn add_links(text: &mut Vec<u8>, number: u64, pages: u64) -> Result<(), AllocError>
    requires below { number < pages }
    requires few { pages < 2 ^ 32 }
    ensures { OnOk result (text.new.items ≡ text.old.items ++ body_lines pages number) }
{
    add_link_below(text, 2 * number + 1, pages)?;
    add_link_below(text, 2 * number + 2, pages)?;
    add_link(text, (7 * number + 3) % pages)?;
    Ok(())
}

/// Adds a link to a page, if there is one of this number.
fn add_link_below(text: &mut Vec<u8>, target: u64, pages: u64) -> Result<(), AllocError>
    ensures { OnOk result (text.new.items ≡ text.old.items ++ link_below pages target) }
{
    if target < pages {
        add_link(text, target)?;
    }
    Ok(())
}

/// Adds a line of a body, a link to a page.
fn add_link(text: &mut Vec<u8>, target: u64) -> Result<(), AllocError>
    ensures { OnOk result (text.new.items ≡ text.old.items ++ link_line target) }
{
    text.extend_from_slice(b"|<a href=\"")?;
    add_url(text, target)?;
    text.extend_from_slice(b"\">x</a>\n")
}

/// Adds the URL of a page.
fn add_url(text: &mut Vec<u8>, number: u64) -> Result<(), AllocError>
    ensures { OnOk result (text.new.items ≡ text.old.items ++ page_url number) }
{
    text.extend_from_slice(b"http://s")?;
    text.extend_from_slice(Buffer::new().format(number % 16).as_bytes())?;
    text.extend_from_slice(b".test/p")?;
    text.extend_from_slice(Buffer::new().format(number).as_bytes())
}
