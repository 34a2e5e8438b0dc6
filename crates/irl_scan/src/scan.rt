ghost use Rattle.std.specs.Prelude.{◌≡◌, ◌≤◌, ℕ, List, ◌++◌, length, All, IfOk, IfSome, OnOk, OnErr};
ghost use Rattle.irl_base.specs.Limits.{max_page};
ghost use Rattle.irl_scan.specs.Page.{Piece, Cut};
ghost use Rattle.irl_scan.specs.Links.{IsWithin, link_of, links_of, base_of};

use crate::cursor::Cursor;
use crate::piece::Found;
use crate::span::Span;
use std::alloc::{AllocError, Global};

/// Adds a link, where one was found.
fn push_link(spans: &mut Vec<Span>, found: Found) -> Result<(), AllocError>
    ensures ok { OnOk result (spans.new.items ≡ spans.old.items ++ link_of found) }
    ensures err { OnErr result (spans.new.items ≡ spans.old.items) }
{
    match found {
        Found::Link(span) => {
            spans.push(span)?;
            Ok(())
        }
        Found::Nothing | Found::Base(_) => Ok(()),
    }
}

/// The links of a page, in the order in which they stand: where the value of the first `href` of each tag `a` or `area`
/// stands, and that of the first `src` of each tag `frame` or `iframe`, without quotes. The page has at most
/// [`irl_offer::MAX_PAGE`] bytes. The only refusal is want of memory.
pub fn links(alloc: Global, page: &[u8]) -> Result<Vec<Span>, AllocError>
    requires { length page.now ≤ max_page }
    // The page has a cut into pieces, of which these are the links,
    ensures found { IfOk result (λ spans. (pieces : List Piece)
        × Cut page.now pieces × (spans.items ≡ links_of pieces)) }
    // and it has no other.
    ensures only { IfOk result (λ spans. (pieces : List Piece) → Cut page.now pieces → spans.items ≡ links_of pieces) }
    ensures within { IfOk result (λ spans. All (IsWithin (length page.now)) spans.items) }
{
    let mut spans = Vec::new(alloc);
    let mut cursor = Cursor::new(page);
    while !cursor.rest.is_empty() {
        let found = cursor.read_piece();
        push_link(&mut spans, found)?;
    }
    Ok(spans)
}

/// Where the base of a page's links stands: the value of the first `href` of the first tag `base` that has one, without
/// quotes. The page has at most [`irl_offer::MAX_PAGE`] bytes. It takes no memory.
pub fn base(page: &[u8]) -> Option<Span>
    requires { length page.now ≤ max_page }
    // The page has a cut into pieces, of which this is the base,
    ensures found { (pieces : List Piece) × Cut page.now pieces × (result ≡ base_of pieces) }
    // and it has no other.
    ensures only { (pieces : List Piece) → Cut page.now pieces → result ≡ base_of pieces }
    ensures within { IfSome result (IsWithin (length page.now)) }
{
    let mut cursor = Cursor::new(page);
    while !cursor.rest.is_empty() {
        let found = cursor.read_piece();
        if let Found::Base(span) = found {
            return Some(span);
        }
    }
    None
}

/// A page has one cut into pieces, and so one list of links and one base.
pub fn one_cut()
    ensures some { (page : List ℕ) → (pieces : List Piece) × Cut page pieces }
    ensures one { (page : List ℕ) (a b : List Piece) → Cut page a → Cut page b → a ≡ b }
{}
