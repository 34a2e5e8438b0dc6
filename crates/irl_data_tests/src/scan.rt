use irl_offer::{MAX_PAGE, Text};
use irl_scan::{Span, base, links, text};
use std::alloc::{AllocError, Global};
use std::test::Fail;

/// The text of a span, if it lies within the page.
fn text_of(alloc: Global, page: &[u8], span: &Span) -> Result<Text, AllocError> {
    if span.start > span.end || span.end as usize > page.len() {
        return Err(AllocError);
    }
    text(alloc, page, span)
}

/// The text of all bytes.
fn whole_text(alloc: Global, bytes: &[u8]) -> Result<Text, AllocError> {
    let end = u32::try_from(bytes.len()).unwrap_or(0);
    text_of(alloc, bytes, &Span { start: 0, end })
}

/// The links of a page that is not too long.
fn links_of(alloc: Global, page: &[u8]) -> Result<Vec<Span>, AllocError> {
    if page.len() > MAX_PAGE {
        return Err(AllocError);
    }
    links(alloc, page)
}

/// The base of a page that is not too long.
fn base_of(page: &[u8]) -> Result<Option<Span>, AllocError> {
    if page.len() > MAX_PAGE {
        return Err(AllocError);
    }
    Ok(base(page))
}

/// The texts of a page's links, each with `;` behind it, and then `^` and that of its base.
fn told(alloc: Global, page: &[u8]) -> Result<Vec<u8>, AllocError> {
    let mut told = Vec::new(alloc);
    for span in &links_of(alloc, page)? {
        told.extend_from_slice(text_of(alloc, page, span)?.bytes())?;
        told.push(b';')?;
    }
    if let Some(span) = base_of(page)? {
        told.push(b'^')?;
        told.extend_from_slice(text_of(alloc, page, &span)?.bytes())?;
    }
    Ok(told)
}

/// The same bytes again and again.
fn repeated(alloc: Global, bytes: &[u8], count: usize) -> Result<Vec<u8>, AllocError> {
    let mut all = Vec::new(alloc);
    for _ in 0..count {
        all.extend_from_slice(bytes)?;
    }
    Ok(all)
}

/// Pages, and what they give: the text of each link with `;` behind it, then `^` and that of the base.
static PAGES: [(&[u8], &[u8]); 75] = [
    (b"<a\thref=x>", b"x;"),
    (b"<a\nhref=x>", b"x;"),
    (b"<a\x0chref=x>", b"x;"),
    (b"<a\rhref=x>", b"x;"),
    (b"<a href=x>", b"x;"),
    (b"<a\x0bhref=x>", b""),
    (b"<a href\t=\nx>", b"x;"),
    (b"<a =href=x>", b""),
    (b"<a ==href href=x>", b"x;"),
    (b"<a href==x>", b"=x;"),
    (b"<a href=x/y>", b"x/y;"),
    (b"<a href=x\"y'z>", b"x\"y'z;"),
    (b"<a href=>", b";"),
    (b"<a href= x>", b"x;"),
    (b"<a href=\"x y\">", b"x y;"),
    (b"<a href='x\"y'>", b"x\"y;"),
    (b"<a href=\"x'y>z\">", b"x'y>z;"),
    (b"<a href=\"x>", b""),
    (b"<a href = 'p' >", b"p;"),
    (b"<a id=\"1\"href=x>", b"x;"),
    (b"<a/href=z>", b"z;"),
    (b"<A HrEf=x>", b"x;"),
    (b"<a href>", b";"),
    (b"<a href id=x>", b";"),
    (b"<a hrefx=y>", b""),
    (b"<a \"href=x>", b""),
    (b"<a name=\"href\" href=x>", b"x;"),
    (b"<a href=x href=y>", b"x;"),
    (b"<a href href=y>", b";"),
    (b"<area href=x>", b"x;"),
    (b"<frame src=x>", b"x;"),
    (b"<iframe src='f' src=g>", b"f;"),
    (b"<frame href=x>", b""),
    (b"<a src=x>", b""),
    (b"<img src=x>", b""),
    (b"<abbr href=x>", b""),
    (b"<ahref=x>", b""),
    (b"</a href=x>", b""),
    (b"</ a href=x>", b""),
    (b"< a href=x>", b""),
    (b"<<a href=x>", b"x;"),
    (b"</<a href=x>", b"x;"),
    (b"</a <a href=x>", b""),
    (b"<a href=x", b""),
    (b"<a href=y><a href=x", b"y;"),
    (b"<!-- <a href=x> --><a href=y>", b"y;"),
    (b"<!--><a href=x>--><a href=y>", b"y;"),
    (b"<!---><a href=x>", b""),
    (b"<!----><a href=x>", b"x;"),
    (b"<!-- -- > --!> <a href=x>", b""),
    (b"<!-<a href=x><a href=y>", b"y;"),
    (b"<!doctype html><a href=x>", b"x;"),
    (b"<?xml <a href=x>?><a href=y>", b"y;"),
    (b"<script><a href=x></script><a href=y>", b"y;"),
    (b"<SCRIPT><a href=x></sCrIpT ><a href=y>", b"y;"),
    (b"<script></scripts><a href=x></script/><a href=y>", b"y;"),
    (b"<script><a href=x></script", b""),
    (
        b"<style><a href=x></script><a href=y></style><a href=z>",
        b"z;",
    ),
    (b"<script src=f><a href=x>", b""),
    (b"<scripts><a href=x>", b"x;"),
    (b"<title><a href=x></title>", b"x;"),
    (b"<script>< /script><a href=x></script\n><a href=y>", b"y;"),
    (b"<script></script<a href=x>", b""),
    (b"<script><!-- </script><a href=x>", b"x;"),
    (b"<base href=/e/>", b"^/e/"),
    (b"<base href=a><base href=b>", b"^a"),
    (b"<base><base href=b>", b"^b"),
    (b"<a href=x><base href=y>", b"x;^y"),
    (b"<base href><base href=b>", b"^"),
    (b"<base src=x>", b""),
    (b"<base href=a href=b>", b"^a"),
    (b"<!-- <base href=a> --><BASE HREF=b>", b"^b"),
    (b"<a href=&lt;&#x41;>", b"<A;"),
    (b"<a href=a&amp;lt;>", b"a&lt;;"),
    (b"no link &amp; < here > \"", b""),
];

/// Values and their texts.
static TEXTS: [(&[u8], &[u8]); 36] = [
    (b"&amp;&lt;&gt;&quot;&apos;", b"&<>\"'"),
    (b"&AMP;&Lt;", b"&AMP;&Lt;"),
    (b"&amp", b"&amp"),
    (b"&amp;lt;", b"&lt;"),
    (b"&#38;#60;", b"&#60;"),
    (b"&#65;", b"A"),
    (b"&#0000065;", b"A"),
    (b"&#00000065;", b"&#00000065;"),
    (b"&#127;", b"\x7f"),
    (b"&#128;", b"&#128;"),
    (b"&#x41;&#X41;", b"AA"),
    (b"&#x7f;&#X7F;", b"\x7f\x7f"),
    (b"&#x80;", b"&#x80;"),
    (b"&#x000041;", b"A"),
    (b"&#x0000041;", b"&#x0000041;"),
    (b"&#;", b"&#;"),
    (b"&#x;", b"&#x;"),
    (b"&#x", b"&#x"),
    (b"&#", b"&#"),
    (b"&", b"&"),
    (b"&;", b"&;"),
    (b"&#6 5;", b"&#6 5;"),
    (b"&#65", b"&#65"),
    (b"&#4a;", b"&#4a;"),
    (b"&#x4g;", b"&#x4g;"),
    (b"&#-1;", b"&#-1;"),
    (b"&#0;&#9;", b"\0\t"),
    (b"&nbsp;", b"&nbsp;"),
    (b"&&amp;", b"&&"),
    (b"&#&#65;", b"&#A"),
    (b"&#9999999;", b"&#9999999;"),
    (b"a&#x2F;b", b"a/b"),
    (b"&#xffffff;", b"&#xffffff;"),
    (b"\xff&lt;", b"\xff<"),
    (b"&ltx;", b"&ltx;"),
    (b"& amp;", b"& amp;"),
];

/// What a page of a mebibyte repeats, whether each of these is a link, and their text.
static LARGEST: [(&[u8], bool, &[u8]); 18] = [
    (b"<a href>", true, b"<a href>"),
    (b"<a href='&amp;'>", true, b"<a href='&'>"),
    (b"<a ", false, b"<a "),
    (b"<a =/", false, b"<a =/"),
    (b"<a href=", false, b"<a href="),
    (b"<a href=\"", false, b"<a href=\""),
    (b"<", false, b"<"),
    (b"<!", false, b"<!"),
    (b"<!--", false, b"<!--"),
    (b"<!--><base src=x>", false, b"<!--><base src=x>"),
    (b"<script>", false, b"<script>"),
    (b"</script", false, b"</script"),
    (b"<style></styl", false, b"<style></styl"),
    (b"&#x0000041", false, b"&#x0000041"),
    (b"&#x", false, b"&#x"),
    (b"&#1", false, b"&#1"),
    (b"&#", false, b"&#"),
    (b"&", false, b"&"),
];

/// A page, and where its links stand.
static PLACED: (&[u8], [(u32, u32); 5]) = (
    b"<base href=\"/e/\"><a href=\"q\">1</a><a href=\"/d/p#x\">2</a><a href=\"?a=1&amp;b=2\">3</a>\
        <a href=\"https://a.test/\">4</a><!-- <a href=\"no\"> --><script>\"<a href='no2'>\"</script><frame src=f>",
    [(26, 27), (43, 49), (65, 77), (93, 108), (181, 182)],
);

/// Where spans begin and end.
fn ends(alloc: Global, spans: &[Span]) -> Result<Vec<(u32, u32)>, AllocError> {
    let mut ends = Vec::new(alloc);
    for span in spans {
        ends.push((span.start, span.end))?;
    }
    Ok(ends)
}

#[test]
fn spans_stand_where_the_values_do(rt: HostRuntime) -> Result<(), Fail> {
    let (page, wanted) = PLACED;
    let spans = links_of(rt.alloc(), page)?;
    assert_eq!(rt; ends(rt.alloc(), &spans)?.as_slice(), wanted.as_slice());
    assert_eq!(rt; base_of(page)?, Some(Span { start: 12, end: 15 }));
    Ok(())
}

#[test]
fn pages_give_their_links_and_base(rt: HostRuntime) -> Result<(), Fail> {
    for (page, wanted) in &PAGES {
        let all = told(rt.alloc(), page)?;
        assert_eq!(rt; all.as_slice(), *wanted);
    }
    Ok(())
}

#[test]
fn values_have_their_texts(rt: HostRuntime) -> Result<(), Fail> {
    for (value, wanted) in &TEXTS {
        let text = whole_text(rt.alloc(), value)?;
        assert_eq!(rt; text.bytes(), *wanted);
    }
    Ok(())
}

/// How many links a page has that repeats some bytes up to a mebibyte, or no such number where it has a base, how often it has
/// the bytes, and whether its text is this one as often.
fn largest(alloc: Global, bytes: &[u8], text: &[u8]) -> Result<(usize, usize, bool), AllocError> {
    let count = MAX_PAGE / bytes.len().max(1);
    let page = repeated(alloc, bytes, count)?;
    let links = if base_of(&page)?.is_none() {
        links_of(alloc, &page)?.len()
    } else {
        usize::MAX
    };
    let read = whole_text(alloc, &page)?;
    let wanted = repeated(alloc, text, count)?;
    Ok((links, count, read.bytes() == wanted.as_slice()))
}

#[test]
fn the_largest_pages_are_read_to_their_end(rt: HostRuntime) -> Result<(), Fail> {
    for (bytes, is_link, text) in &LARGEST {
        let (links, count, is_text) = largest(rt.alloc(), bytes, text)?;
        let wanted = if *is_link { count } else { 0 };
        assert_eq!(rt; (bytes, links, is_text), (bytes, wanted, true));
    }
    Ok(())
}
