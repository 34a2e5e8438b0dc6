use crate::helpers::{joined, suffixes, web};
use irl_answer::{Step, note, offers, outcome, robots_step};
use irl_key::Web;
use irl_offer::{
    Answer, MAX_PAGE, MAX_ROBOTS, MAX_TEXT, NoteState, Offer, Op, Outcome, Reply, Text,
};
use irl_pld::Suffixes;
use std::alloc::{AllocError, Global};
use std::process::Abort;
use std::test::Fail;

/// The same bytes again and again, behind a front.
fn repeated(alloc: Global, front: &str, bytes: &str, count: usize) -> Result<Text, AllocError> {
    let all = joined(alloc, front.as_bytes(), bytes.as_bytes(), count, b"")?;
    Ok(Text::from_vec(all))
}

fn reply(rt: &impl Abort, status: u16, location: Option<Text>, html: bool, body: Text) -> Answer {
    assert!(rt; body.bytes().len() <= MAX_PAGE);
    Answer::Reply(Reply {
        status,
        location,
        html,
        body,
    })
}

fn text_of(alloc: Global, text: Option<&str>) -> Result<Option<Text>, AllocError> {
    match text {
        Some(text) => Ok(Some(Text::from_bytes(alloc, text.as_bytes())?)),
        None => Ok(None),
    }
}

/// A reply with a link and this location, where there is one.
fn moved(
    rt: &impl Abort,
    alloc: Global,
    status: u16,
    html: bool,
    location: Option<&str>,
) -> Result<Answer, AllocError> {
    let location = text_of(alloc, location)?;
    let body = Text::from_bytes(alloc, b"<a href=/in>")?;
    Ok(reply(rt, status, location, html, body))
}

// Statuses of RFC 9110 and others, locations, and what comes of `http://a.test/d/p?q`.
const REPLIES: [(u16, Option<&str>, Outcome); 39] = [
    (200, None, Outcome::Page),
    (200, Some("/x"), Outcome::Page),
    (204, None, Outcome::Page),
    (299, None, Outcome::Page),
    (199, None, Outcome::Status(199)),
    (300, Some("/x"), Outcome::Status(300)),
    (301, Some("/x"), Outcome::Moved),
    (302, Some("http://b.test"), Outcome::Moved),
    (303, Some(""), Outcome::Moved),
    (304, Some("/x"), Outcome::Status(304)),
    (305, Some("/x"), Outcome::Status(305)),
    (306, Some("/x"), Outcome::Status(306)),
    (307, Some("//c.test/y"), Outcome::Moved),
    (308, Some("?r#s"), Outcome::Moved),
    (309, Some("/x"), Outcome::Status(309)),
    (399, Some("/x"), Outcome::Status(399)),
    (301, None, Outcome::Status(301)),
    (302, None, Outcome::Status(302)),
    (303, None, Outcome::Status(303)),
    (307, None, Outcome::Status(307)),
    (308, None, Outcome::Status(308)),
    (301, Some("https://a.test/"), Outcome::Status(301)),
    (302, Some("mailto:a@a.test"), Outcome::Status(302)),
    (303, Some("http://u@a.test/"), Outcome::Status(303)),
    (307, Some("http://a.test:65536/"), Outcome::Status(307)),
    (308, Some("ftp://a.test/"), Outcome::Status(308)),
    (301, Some("http://"), Outcome::Status(301)),
    (400, Some("/x"), Outcome::Status(400)),
    (401, None, Outcome::Status(401)),
    (404, None, Outcome::Status(404)),
    (410, None, Outcome::Status(410)),
    (499, None, Outcome::Status(499)),
    (500, None, Outcome::Status(500)),
    (503, Some("/x"), Outcome::Status(503)),
    (599, None, Outcome::Status(599)),
    (600, None, Outcome::Status(600)),
    (0, None, Outcome::Status(0)),
    (1000, None, Outcome::Status(1000)),
    (65535, None, Outcome::Status(65535)),
];

/// What comes of a page that is answered so.
fn came_of(
    rt: &impl Abort,
    alloc: Global,
    status: u16,
    location: Option<&str>,
) -> Result<Outcome, AllocError> {
    let answer = moved(rt, alloc, status, true, location)?;
    outcome(alloc, &web(alloc, b"http://a.test/d/p?q")?, &answer)
}

#[test]
fn a_status_and_a_location_decide_the_outcome(rt: HostRuntime) -> Result<(), Fail> {
    for (status, location, expected) in REPLIES {
        let given = came_of(&rt, rt.alloc(), status, location)?;
        assert_eq!(rt; given, expected, "{status} {location:?}");
    }
    Ok(())
}

// Answers that are no whole reply.
const OTHERS: [(Answer, Outcome); 5] = [
    (Answer::NoReply, Outcome::Lost),
    (Answer::Short(40), Outcome::Lost),
    (Answer::BadReply(1), Outcome::Bad),
    (Answer::TooLarge(16_385), Outcome::Large),
    (Answer::Coded, Outcome::Coded),
];

#[test]
fn an_answer_without_a_reply_offers_nothing(rt: HostRuntime) -> Result<(), Fail> {
    let alloc = rt.alloc();
    let url = web(alloc, b"http://a.test/")?;
    let suffixes = suffixes(alloc, "test")?;
    for (answer, expected) in &OTHERS {
        assert_eq!(rt; outcome(alloc, &url, answer)?, *expected);
        assert_eq!(rt;
            told(&rt, alloc, &suffixes, &url, answer)?.as_slice(),
            b"".as_slice()
        );
        let step = robots_step(alloc, &url, 0, answer)?;
        assert!(rt; matches!(step, Step::Found(NoteState::Shut)));
    }
    Ok(())
}

// A location is usable up to 2,048 bytes.
#[test]
fn a_location_may_have_2048_bytes(rt: HostRuntime) -> Result<(), Fail> {
    let alloc = rt.alloc();
    let url = web(alloc, b"http://a.test/")?;
    let front = "http://b.test/";
    for (more, expected) in [
        (MAX_TEXT - 14, Outcome::Moved),
        (MAX_TEXT - 13, Outcome::Status(301)),
        (MAX_PAGE, Outcome::Status(301)),
    ] {
        let location = Some(repeated(alloc, front, "x", more)?);
        let answer = reply(&rt, 301, location, false, Text::from_vec(Vec::new(alloc)));
        assert_eq!(rt; outcome(alloc, &url, &answer)?, expected, "{more} more");
    }
    Ok(())
}

/// The texts of an answer's offers, each with `;` behind it.
fn told(
    rt: &impl Abort,
    alloc: Global,
    suffixes: &Suffixes,
    url: &Web,
    answer: &Answer,
) -> Result<Vec<u8>, AllocError> {
    let mut told = Vec::new(alloc);
    let mut found = offers(alloc, suffixes, url, answer)?;
    for _ in 0..20_000 {
        let Some(offer) = found.next(alloc)? else {
            break;
        };
        assert_eq!(rt; offer.op, Op::Both);
        told.extend_from_slice(offer.aux.bytes())?;
        told.push(b';')?;
    }
    Ok(told)
}

// Pages at `http://a.test/d/p`, and the texts that they offer, each with `;` behind it, worked out by the rules of links
// and the URL Standard.
const PAGES: [(&str, &str); 19] = [
    (
        "<base href=\"/e/\"><a href=\"q\">1</a><a href=\"/d/p#x\">2</a><a href=\"?a=1&amp;b=2\">3</a>\
        <a href=\"https://a.test/\">4</a><!-- <a href=\"no\"> --><script>\"<a href='no2'>\"</script><frame src=f>",
        "http://a.test/e/q;http://a.test/d/p;http://a.test/e/?a=1&b=2;http://a.test/e/f;",
    ),
    ("", ""),
    ("no links", ""),
    ("<a href=q>", "http://a.test/d/q;"),
    ("<a href=../q>", "http://a.test/q;"),
    (
        "<a href=#top><a href>",
        "http://a.test/d/p;http://a.test/d/p;",
    ),
    (
        "<a href=q><a href=q#x>",
        "http://a.test/d/q;http://a.test/d/q;",
    ),
    (
        "<a href=https://a.test/><a href=mailto:a@a.test><a href=javascript:x()><a href=http://u@a.test/><a href=q>",
        "http://a.test/d/q;",
    ),
    ("<a href=//b.test:8080?x#y>", "http://b.test:8080/?x;"),
    ("<a href=q><base href=/e/>", "http://a.test/e/q;"),
    ("<base href=e/><a href=q>", "http://a.test/d/e/q;"),
    (
        "<base href=http://b.test/e/f><a href=q>",
        "http://b.test/e/q;",
    ),
    ("<base href=/e/#f><a href=#g>", "http://a.test/e/;"),
    (
        "<base href=https://b.test/><a href=q>",
        "http://a.test/d/q;",
    ),
    (
        "<base href=mailto:b@b.test><a href=q>",
        "http://a.test/d/q;",
    ),
    (
        "<base href=http://u:p@b.test/><a href=q>",
        "http://a.test/d/q;",
    ),
    (
        "<base href=ftp://b.test/><base href=/e/><a href=q>",
        "http://a.test/d/q;",
    ),
    ("<base><base href=/e/><a href=q>", "http://a.test/e/q;"),
    (
        "<base href=\"/e&#47;\"><a href=\"&#x71;\">",
        "http://a.test/e/q;",
    ),
];

/// The texts that are offered by an answer to `http://a.test/d/p`.
fn offered(rt: &impl Abort, alloc: Global, answer: &Answer) -> Result<Vec<u8>, AllocError> {
    let url = web(alloc, b"http://a.test/d/p")?;
    told(rt, alloc, &suffixes(alloc, "test")?, &url, answer)
}

/// Those by a page with this body.
fn linked(rt: &impl Abort, alloc: Global, body: &str) -> Result<Vec<u8>, AllocError> {
    let body = Text::from_bytes(alloc, body.as_bytes())?;
    offered(rt, alloc, &reply(rt, 200, None, true, body))
}

#[test]
fn a_page_offers_its_links(rt: HostRuntime) -> Result<(), Fail> {
    for (body, expected) in PAGES {
        let given = linked(&rt, rt.alloc(), body)?;
        assert_eq!(rt; given.as_slice(), expected.as_bytes());
    }
    Ok(())
}

// A status, whether the body with a link is HTML, the location, and the texts that are offered.
const KINDS: [(u16, bool, Option<&str>, &str); 10] = [
    (200, true, None, "http://a.test/in;"),
    (200, true, Some("/x"), "http://a.test/in;"),
    (200, false, None, ""),
    (204, true, None, "http://a.test/in;"),
    (301, true, Some("x#y"), "http://a.test/d/x;"),
    (308, false, Some("//b.test"), "http://b.test/;"),
    (302, true, Some("https://b.test/"), ""),
    (304, true, Some("x"), ""),
    (404, true, None, ""),
    (500, true, Some("x"), ""),
];

/// Those by a reply with a link.
fn replied(
    rt: &impl Abort,
    alloc: Global,
    status: u16,
    html: bool,
    location: Option<&str>,
) -> Result<Vec<u8>, AllocError> {
    let answer = moved(rt, alloc, status, html, location)?;
    offered(rt, alloc, &answer)
}

#[test]
fn only_a_page_and_a_redirect_offer(rt: HostRuntime) -> Result<(), Fail> {
    for (status, html, location, expected) in KINDS {
        let given = replied(&rt, rt.alloc(), status, html, location)?;
        assert_eq!(rt; given.as_slice(), expected.as_bytes(), "{status}");
    }
    Ok(())
}

// Keys are fronts of SHA-1 digests, by another program.
#[test]
fn an_offer_has_the_keys_of_text_and_domain(rt: HostRuntime) -> Result<(), Fail> {
    let alloc = rt.alloc();
    let suffixes = suffixes(alloc, "test\nuk\nco.uk")?;
    for (url, link, key, from) in [
        (
            "http://a.test/",
            "/e/q",
            0x22e2_fc68_d108_3b41,
            0xbd8d_428d_f078_9b8f,
        ),
        (
            "http://x.a.test:81/",
            "//c.test/new",
            0xe24f_4452_3e00_28c5,
            0xbd8d_428d_f078_9b8f,
        ),
        (
            "http://shop.co.uk",
            "//www.shop.co.uk:8080/x",
            0x8406_e2f2_f1df_237f,
            0xa034_6f31_c106_c715,
        ),
        (
            "http://www.shop.co.uk:8080/",
            "//b.test",
            0x71b2_454c_b985_022b,
            0xa034_6f31_c106_c715,
        ),
    ] {
        let url = web(alloc, url.as_bytes())?;
        let answer = moved(&rt, alloc, 301, true, Some(link))?;
        let offer = one_offer(alloc, &suffixes, &url, &answer)?;
        assert_eq!(rt;
            (offer.key, offer.value, offer.from),
            (key, 0, from),
            "{link}"
        );
    }
    Ok(())
}

/// The only offer.
fn one_offer(
    alloc: Global,
    suffixes: &Suffixes,
    url: &Web,
    answer: &Answer,
) -> Result<Offer, AllocError> {
    let mut found = offers(alloc, suffixes, url, answer)?;
    let one = found.next(alloc)?;
    match (one, found.next(alloc)?) {
        (Some(offer), None) => Ok(offer),
        _ => Err(AllocError),
    }
}

// A page's front, what follows it how often, and how many links are offered.
#[test]
fn a_page_offers_10_000_links(rt: HostRuntime) -> Result<(), Fail> {
    let alloc = rt.alloc();
    let url = web(alloc, b"http://a.test/d/p")?;
    let suffixes = suffixes(alloc, "test")?;
    for (front, link, count, offered) in [
        ("", "<a href=q>", 100, 100),
        (
            "<a href=ftp:x><a href=https:x>",
            "<a href=q>",
            104_000,
            10_000,
        ),
    ] {
        let body = repeated(alloc, front, link, count)?;
        let answer = reply(&rt, 200, None, true, body);
        let given = told(&rt, alloc, &suffixes, &url, &answer)?;
        assert_eq!(rt;
            given.len(),
            offered * "http://a.test/d/q;".len(),
            "{count} of {link}"
        );
    }
    Ok(())
}

/// Where an answer is followed to.
fn followed_to(
    alloc: Global,
    asked: &Web,
    followed: u32,
    answer: &Answer,
) -> Result<Web, AllocError> {
    match robots_step(alloc, asked, followed, answer)? {
        Step::Follow(web) => Ok(web),
        Step::Found(_state) => Err(AllocError),
    }
}

// Where a redirect is followed to, the first from the place that was asked for.
#[test]
fn a_location_is_followed_from_where_it_came(rt: HostRuntime) -> Result<(), Fail> {
    let alloc = rt.alloc();
    for (asked, followed, location, expected) in [
        ("http://a.test/robots.txt", 0, "x", "http://a.test/x"),
        ("http://b.test/y/z", 1, "x?q#f", "http://b.test/y/x?q"),
        ("http://b.test/y/z", 4, "//c.test:81", "http://c.test:81/"),
    ] {
        let asked = web(alloc, asked.as_bytes())?;
        let answer = moved(&rt, alloc, 307, true, Some(location))?;
        let web = followed_to(alloc, &asked, followed, &answer)?;
        assert_eq!(rt; web.text(), expected.as_bytes());
    }
    Ok(())
}

const FOLLOWED: (u16, Option<&str>) = (301, Some("/r"));

// The answers of a chain, and what they say: that all is allowed, or nothing, or the rules of the body; or that they
// are no whole chain.
static CHAINS: [(&[(u16, Option<&str>)], &str); 30] = [
    (&[], "none"),
    (&[(200, None)], "rules"),
    (&[(204, None)], "rules"),
    (&[(299, None)], "rules"),
    (&[(300, Some("/r"))], "free"),
    (&[(304, Some("/r"))], "free"),
    (&[(305, Some("/r"))], "free"),
    (&[(400, None)], "free"),
    (&[(404, None)], "free"),
    (&[(429, None)], "free"),
    (&[(499, None)], "free"),
    (&[(500, None)], "shut"),
    (&[(503, None)], "shut"),
    (&[(599, None)], "shut"),
    (&[(600, None)], "free"),
    (&[(101, None)], "free"),
    (&[(301, None)], "free"),
    (&[(302, Some("https://a.test/robots.txt"))], "free"),
    (&[(303, Some("http://u@a.test/robots.txt"))], "free"),
    (&[FOLLOWED], "none"),
    (&[FOLLOWED, (200, None)], "rules"),
    (&[(302, Some("//b.test/r")), (404, None)], "free"),
    (&[(303, Some("r")), (503, None)], "shut"),
    (&[(307, Some("r")), (308, Some("ftp://b.test/"))], "free"),
    (&[FOLLOWED, FOLLOWED, FOLLOWED, FOLLOWED, FOLLOWED], "none"),
    (
        &[
            FOLLOWED,
            FOLLOWED,
            FOLLOWED,
            FOLLOWED,
            FOLLOWED,
            (200, None),
        ],
        "rules",
    ),
    (
        &[
            FOLLOWED,
            FOLLOWED,
            FOLLOWED,
            FOLLOWED,
            FOLLOWED,
            (500, None),
        ],
        "shut",
    ),
    (
        &[FOLLOWED, FOLLOWED, FOLLOWED, FOLLOWED, FOLLOWED, FOLLOWED],
        "free",
    ),
    (
        &[
            FOLLOWED,
            FOLLOWED,
            FOLLOWED,
            FOLLOWED,
            FOLLOWED,
            FOLLOWED,
            (200, None),
        ],
        "none",
    ),
    (&[(200, None), (200, None)], "none"),
];

/// What the answers of a chain say of a host's robots file.
fn said(
    rt: &impl Abort,
    alloc: Global,
    chain: &[(u16, Option<&str>)],
) -> Result<&'static str, AllocError> {
    let mut answers = Vec::new(alloc);
    for (status, location) in chain {
        answers.push(moved(rt, alloc, *status, true, *location)?)?;
    }
    let page = web(alloc, b"http://a.test:8080/p")?;
    match note(alloc, page.host(), &answers)? {
        Some(NoteState::Rules(_)) => Ok("rules"),
        Some(NoteState::Free) => Ok("free"),
        Some(NoteState::Shut) => Ok("shut"),
        None => Ok("none"),
    }
}

#[test]
fn five_redirects_of_a_robots_file_are_followed(rt: HostRuntime) -> Result<(), Fail> {
    for (chain, expected) in &CHAINS {
        let given = said(&rt, rt.alloc(), chain)?;
        assert_eq!(rt; given, *expected);
    }
    Ok(())
}

/// How many bytes of an answer with rules are kept.
fn kept_len(alloc: Global, asked: &Web, answer: &Answer) -> Result<usize, AllocError> {
    match robots_step(alloc, asked, 0, answer)? {
        Step::Found(state) => match state {
            NoteState::Rules(text) => Ok(text.bytes().len()),
            NoteState::Free | NoteState::Shut => Err(AllocError),
        },
        Step::Follow(_web) => Err(AllocError),
    }
}

// A body of so many bytes, and how many of them are kept.
#[test]
fn of_a_robots_file_512_000_bytes_are_kept(rt: HostRuntime) -> Result<(), Fail> {
    let alloc = rt.alloc();
    let asked = web(alloc, b"http://a.test/robots.txt")?;
    for (count, kept) in [
        (0, 0),
        (5, 5),
        (MAX_ROBOTS, MAX_ROBOTS),
        (MAX_ROBOTS + 1, MAX_ROBOTS),
        (MAX_PAGE, MAX_ROBOTS),
    ] {
        let answer = reply(&rt, 200, None, false, repeated(alloc, "", "#", count)?);
        assert_eq!(rt; kept_len(alloc, &asked, &answer)?, kept, "{count}");
    }
    Ok(())
}
