use irl_offer::{NoteState, Text};
use irl_robots::{Class, HostState, Leave, Robots, class, kept};
use std::alloc::{AllocError, Global};
use std::test::Fail;

/// A file or its rules, a target, and the line and the verdict of the rule that holds.
type Case = (&'static [u8], &'static [u8], Option<(u32, bool)>);

/// The profile's own cases of groups and lines, for the agent `irlbot`.
const GROUPS: [Case; 57] = [
    // An empty file, a file of other fields, and rules before the first group have no rule.
    (b"", b"/x", None),
    (b"Sitemap: /map\nHost: a\n", b"/x", None),
    (b"Disallow: /\n", b"/x", None),
    (b"Disallow: /a\nUser-agent: *\nDisallow: /b", b"/a", None),
    (
        b"Disallow: /a\nUser-agent: *\nDisallow: /b",
        b"/b",
        Some((3, false)),
    ),
    // Lines end at LF, CR and CR LF, and each counts once; empty lines count too.
    (b"User-agent: *\nDisallow: /x", b"/x", Some((2, false))),
    (b"User-agent: *\rDisallow: /x", b"/x", Some((2, false))),
    (
        b"User-agent: *\r\nDisallow: /x\r\n",
        b"/x",
        Some((2, false)),
    ),
    (
        b"\n\r\n\rUser-agent: *\n\nDisallow: /x",
        b"/x",
        Some((6, false)),
    ),
    (b"User-agent: *\n\rDisallow: /x", b"/x", Some((3, false))),
    (b"User-agent: *\r\r\nDisallow: /x", b"/x", Some((3, false))),
    // A byte order mark is skipped at the front alone.
    (
        b"\xef\xbb\xbfUser-agent: *\nDisallow: /x",
        b"/x",
        Some((2, false)),
    ),
    (
        b"\xef\xbb\xbf\xef\xbb\xbfUser-agent: *\nDisallow: /x",
        b"/x",
        None,
    ),
    (b"User-agent: *\n\xef\xbb\xbfDisallow: /x", b"/x", None),
    // Comments.
    (
        b"# first\nUser-agent: * # all\nDisallow: /x # not /y",
        b"/x",
        Some((3, false)),
    ),
    (b"User-agent: *\nDisallow: /x#y", b"/x", Some((2, false))),
    (b"User-agent: *\n#Disallow: /x", b"/x", None),
    (b"User-agent: *\nDisallow: # /x", b"/x", None),
    // Fields: the colon, spaces and tabs, and case.
    (b"User-agent *\nDisallow: /x", b"/x", None),
    (b"User-agent: *\nDisallow /x", b"/x", None),
    (b"User-agent:*\nDisallow:/x", b"/x", Some((2, false))),
    (
        b" \tUser-agent\t : \t* \t\n\tDisallow \t:\t /x \t",
        b"/x",
        Some((2, false)),
    ),
    (b"uSER-AGENT: *\ndISALLOW: /x", b"/x", Some((2, false))),
    (b"User agent: *\nDisallow: /x", b"/x", None),
    (b"User-agent: *\nDis-allow: /x", b"/x", None),
    (b"User-agent: *\nDisallow: /a b", b"/a b", Some((2, false))),
    (b"User-agent: *\nDisallow: /a:b", b"/a:b", Some((2, false))),
    (
        b"User-agent: *\n: /x\nDisallow: /y",
        b"/y",
        Some((3, false)),
    ),
    // Empty values are no rules, but end the user-agent lines.
    (b"User-agent: *\nDisallow:\nAllow:", b"/x", None),
    (
        b"User-agent: irlbot\nDisallow:\nUser-agent: other\nDisallow: /",
        b"/x",
        None,
    ),
    (
        b"User-agent: other\nDisallow: /\nUser-agent: IRLbot\nCrawl-delay: 5\nDisallow:",
        b"/x",
        None,
    ),
    // Other fields end nothing.
    (
        b"User-agent: a\nCrawl-delay: 1\nUser-agent: irlbot\nDisallow: /x",
        b"/x",
        Some((4, false)),
    ),
    (
        b"User-agent: irlbot\nSitemap: /m\nDisallow: /x\nSitemap: /m\nDisallow: /y",
        b"/y",
        Some((5, false)),
    ),
    // Several agents on one group, and a group after it.
    (
        b"User-agent: a\nUser-agent: irlbot\nUser-agent: b\nDisallow: /x",
        b"/x",
        Some((4, false)),
    ),
    (
        b"User-agent: irlbot\nUser-agent: b\nDisallow: /x\nUser-agent: b\nDisallow: /y",
        b"/y",
        None,
    ),
    (
        b"User-agent: irlbot\nDisallow: /x\nUser-agent: b",
        b"/x",
        Some((2, false)),
    ),
    // Groups of one token are combined, and so are those for all.
    (
        b"User-agent: irlbot\nDisallow: /x\nUser-agent: irlbot\nDisallow: /y",
        b"/x",
        Some((2, false)),
    ),
    (
        b"User-agent: irlbot\nDisallow: /x\nUser-agent: irlbot\nDisallow: /y",
        b"/y",
        Some((4, false)),
    ),
    (
        b"User-agent: *\nDisallow: /x\nUser-agent: b\nUser-agent: *\nDisallow: /y",
        b"/y",
        Some((5, false)),
    ),
    // The agent's own groups shut out those for all, wherever they stand, and without rules too.
    (
        b"User-agent: *\nDisallow: /x\nUser-agent: irlbot\nDisallow: /y",
        b"/x",
        None,
    ),
    (
        b"User-agent: irlbot\nDisallow: /y\nUser-agent: *\nDisallow: /x",
        b"/x",
        None,
    ),
    (
        b"User-agent: *\nDisallow: /x\nUser-agent: irlbot",
        b"/x",
        None,
    ),
    (
        b"User-agent: *\nUser-agent: irlbot\nDisallow: /x\nUser-agent: *\nDisallow: /y",
        b"/x",
        Some((3, false)),
    ),
    (
        b"User-agent: *\nUser-agent: irlbot\nDisallow: /x\nUser-agent: *\nDisallow: /y",
        b"/y",
        None,
    ),
    (
        b"User-agent: *\nDisallow: /x\nUser-agent: irlbots\nDisallow: /y",
        b"/x",
        Some((2, false)),
    ),
    // Tokens: case, what follows them, and values without one.
    (b"User-agent: IRLBOT\nDisallow: /x", b"/x", Some((2, false))),
    (
        b"User-agent: irlbot/1.0\nDisallow: /x",
        b"/x",
        Some((2, false)),
    ),
    (
        b"User-agent: irlbot2\nDisallow: /x",
        b"/x",
        Some((2, false)),
    ),
    (
        b"User-agent: irlbot.net\nDisallow: /x",
        b"/x",
        Some((2, false)),
    ),
    (
        b"User-agent: irlbot (a crawler)\nDisallow: /x",
        b"/x",
        Some((2, false)),
    ),
    (b"User-agent: irlbot-news\nDisallow: /x", b"/x", None),
    (b"User-agent: irlbot_news\nDisallow: /x", b"/x", None),
    (b"User-agent: irl\nDisallow: /x", b"/x", None),
    (b"User-agent: 1irlbot\nDisallow: /x", b"/x", None),
    (b"User-agent:\nDisallow: /x", b"/x", None),
    (b"User-agent: **\nDisallow: /x", b"/x", None),
    (b"User-agent: * irlbot\nDisallow: /x", b"/x", None),
];

/// The profile's own cases of patterns and targets, for rules of one group for all, from line 2 on.
const PATTERNS: [Case; 61] = [
    // The most octets win, then allow, then the earlier line.
    (b"Allow: /p\nDisallow: /p", b"/p", Some((2, true))),
    (b"Disallow: /p\nAllow: /p", b"/p", Some((3, true))),
    (b"Disallow: /p\nDisallow: /p", b"/p", Some((2, false))),
    (
        b"Allow: /p\nAllow: /p\nDisallow: /p",
        b"/pq",
        Some((2, true)),
    ),
    (b"Disallow: /p\nAllow: /", b"/p", Some((2, false))),
    (b"Allow: /\nDisallow: /p", b"/p", Some((3, false))),
    (b"Disallow: /a*\nAllow: /ab", b"/abc", Some((3, true))),
    (b"Allow: /ab\nDisallow: /a*b", b"/ab", Some((3, false))),
    (b"Allow: /ab\nDisallow: /ab$", b"/ab", Some((3, false))),
    (b"Allow: /ab\nDisallow: /ab$", b"/abc", Some((2, true))),
    // The length is that of the normal form.
    (
        b"Allow: /%61%62\nDisallow: /abc",
        b"/abcd",
        Some((3, false)),
    ),
    (
        b"Allow: /abcdef\nDisallow: /*\xc3\xa9",
        b"/abcdef\xc3\xa9",
        Some((3, false)),
    ),
    // Prefixes, with the query.
    (b"Disallow: /x", b"/xyz/a?b=c", Some((2, false))),
    (b"Disallow: /x/", b"/x", None),
    (b"Disallow: /a?b", b"/a?bc", Some((2, false))),
    (b"Disallow: /a?b", b"/a/b", None),
    (b"Disallow: x", b"/x", None),
    (b"Disallow: /X", b"/x", None),
    // `*`, first, inside, last and twice.
    (b"Disallow: *", b"/", Some((2, false))),
    (b"Disallow: *x", b"/abcx", Some((2, false))),
    (b"Disallow: /a*c", b"/ac", Some((2, false))),
    (b"Disallow: /a*c", b"/abbcd", Some((2, false))),
    (b"Disallow: /a*c", b"/abb", None),
    (b"Disallow: /a*", b"/a", Some((2, false))),
    (b"Disallow: /**b", b"/ab", Some((2, false))),
    (b"Disallow: /*a*b*c", b"/xaxbxbxc", Some((2, false))),
    (b"Disallow: /*ab*ac", b"/aabaabac", Some((2, false))),
    (b"Disallow: /*ab*ac", b"/aabaab", None),
    // `$`, at the end and elsewhere.
    (b"Disallow: *.gif$", b"/a.gif", Some((2, false))),
    (b"Disallow: *.gif$", b"/a.gifs", None),
    (b"Disallow: *.gif$", b"/a.gif.gif", Some((2, false))),
    (b"Disallow: /a$", b"/a?b", None),
    (b"Disallow: /a$b", b"/a$bc", Some((2, false))),
    (b"Disallow: /a$b", b"/a", None),
    (b"Disallow: /a$$", b"/a$", Some((2, false))),
    (b"Disallow: /a$$", b"/a", None),
    (b"Disallow: /a*$", b"/abc", Some((2, false))),
    (b"Disallow: *$", b"/", Some((2, false))),
    (b"Disallow: $", b"/", None),
    (b"Disallow: $", b"", Some((2, false))),
    // Triplets of unreserved octets are decoded, on both sides.
    (b"Disallow: /a%7eb", b"/a~b", Some((2, false))),
    (b"Disallow: /a~b", b"/a%7Eb", Some((2, false))),
    (
        b"Disallow: /%41%7a%30%2d%2E%5f",
        b"/Az0-._",
        Some((2, false)),
    ),
    // Those of reserved octets are not, and their digits have no case.
    (b"Disallow: /a/b", b"/a%2Fb", None),
    (b"Disallow: /a%2fb", b"/a%2Fb", Some((2, false))),
    (b"Disallow: /a%2fb", b"/a/b", None),
    (b"Disallow: /a%2A", b"/a*", None),
    (b"Disallow: /a%2a", b"/a%2A", Some((2, false))),
    (b"Disallow: /a%24", b"/a%24b", Some((2, false))),
    (b"Disallow: /%25", b"/%2541", Some((2, false))),
    (b"Disallow: /%2541", b"/%41", None),
    // A lone `%` stays.
    (b"Disallow: /%", b"/%", Some((2, false))),
    (b"Disallow: /%4", b"/%4", Some((2, false))),
    (b"Disallow: /%4g", b"/%4G", None),
    (b"Disallow: /%%41", b"/%A", Some((2, false))),
    // Octets above 127 are their triplets.
    (b"Disallow: /\xc3\xa9", b"/%c3%A9", Some((2, false))),
    (b"Disallow: /%c3%a9", b"/\xc3\xa9", Some((2, false))),
    (b"Disallow: /%7F", b"/\x7f", None),
    // The robots file has no rule, as its target is written.
    (b"Disallow: /", b"/robots.txt", None),
    (b"Disallow: /", b"/robots.txt?", Some((2, false))),
    (b"Disallow: /", b"/robots%2Etxt", Some((2, false))),
];

/// The files of RFC 9309, sections 5.1 and 5.2, and of its section 2.2.1.
const SIMPLE: &[u8] =
    b"User-Agent: *\nDisallow: *.gif$\nDisallow: /example/\nAllow: /publications/\n\nUser-Agent: foobot\nDisallow:/\nAllow:/example/page.html\nAllow:/example/allowed.gif\n\nUser-Agent: barbot\nUser-Agent: bazbot\nDisallow: /example/page.html\n\nUser-Agent: quxbot\n";

const LONGEST: &[u8] =
    b"User-Agent: foobot\nAllow: /example/page/\nDisallow: /example/page/disallowed.gif\n";

const MERGED: &[u8] =
    b"user-agent: ExampleBot\ndisallow: /foo\ndisallow: /bar\n\nuser-agent: ExampleBot\ndisallow: /baz\n";

/// A file, an agent, a target and whether it may be fetched.
type Example = (&'static [u8], &'static [u8], &'static [u8], bool);

/// RFC 9309, sections 2.2.1 to 2.2.3, 5.1 and 5.2: a file, an agent, a target and whether it may be fetched. Where the
/// profile leaves reserved octets as they are written, that is so here too.
const EXAMPLES: [Example; 31] = [
    (SIMPLE, b"anybot", b"/publications/a.html", true),
    (SIMPLE, b"anybot", b"/a.gif", false),
    (SIMPLE, b"anybot", b"/publications/a.gif", true),
    (SIMPLE, b"anybot", b"/example/a", false),
    (SIMPLE, b"anybot", b"/a", true),
    (SIMPLE, b"foobot", b"/example/page.html", true),
    (SIMPLE, b"foobot", b"/example/allowed.gif", true),
    (SIMPLE, b"FooBot", b"/example/", false),
    (SIMPLE, b"barbot", b"/example/page.html?a", false),
    (SIMPLE, b"bazbot", b"/example/page.html", false),
    (SIMPLE, b"bazbot", b"/example/", true),
    (SIMPLE, b"quxbot", b"/example/a.gif", true),
    (LONGEST, b"foobot", b"/example/page/disallowed.gif", false),
    (LONGEST, b"foobot", b"/example/page/x", true),
    (LONGEST, b"foobot", b"/y", true),
    (LONGEST, b"barbot", b"/example/page/disallowed.gif", true),
    (MERGED, b"examplebot", b"/foo", false),
    (MERGED, b"examplebot", b"/bar", false),
    (MERGED, b"examplebot", b"/baz", false),
    (MERGED, b"examplebot", b"/qux", true),
    (
        b"User-agent: *\nDisallow: /foo/bar?baz=quz",
        b"a",
        b"/foo/bar?baz=quz",
        false,
    ),
    (
        b"User-agent: *\nDisallow: /foo/bar?baz=https://foo.bar",
        b"a",
        b"/foo/bar?baz=https://foo.bar",
        false,
    ),
    (
        b"User-agent: *\nDisallow: /foo/bar?baz=https://foo.bar",
        b"a",
        b"/foo/bar?baz=https%3A%2F%2Ffoo.bar",
        true,
    ),
    (
        b"User-agent: *\nDisallow: /foo/bar/\xe3\x83\x84",
        b"a",
        b"/foo/bar/%E3%83%84",
        false,
    ),
    (
        b"User-agent: *\nDisallow: /foo/bar/%E3%83%84",
        b"a",
        b"/foo/bar/\xe3\x83\x84",
        false,
    ),
    (
        b"User-agent: *\nDisallow: /foo/bar/%62%61%7A",
        b"a",
        b"/foo/bar/baz",
        false,
    ),
    (
        b"User-agent: *\nDisallow: / # all\nAllow: /this/path/exactly$",
        b"a",
        b"/this/path/exactly",
        true,
    ),
    (
        b"User-agent: *\nDisallow: / # all\nAllow: /this/path/exactly$",
        b"a",
        b"/this/path/exactly/not",
        false,
    ),
    (
        b"User-agent: *\nDisallow: /\nAllow: /this/*/exactly",
        b"a",
        b"/this/path/is/exactly",
        true,
    ),
    (
        b"User-agent: *\nDisallow: /path/file-with-a-%2A.html",
        b"a",
        b"/path/file-with-a-%2A.html",
        false,
    ),
    (
        b"User-agent: *\nDisallow: /path/foo-%24",
        b"a",
        b"/path/foo-%24",
        false,
    ),
];

const STATUSES: [(u16, Class); 22] = [
    (199, Class::Free),
    (200, Class::Rules),
    (204, Class::Rules),
    (299, Class::Rules),
    (300, Class::Free),
    (301, Class::Moved),
    (302, Class::Moved),
    (303, Class::Moved),
    (304, Class::Free),
    (307, Class::Moved),
    (308, Class::Moved),
    (309, Class::Free),
    (399, Class::Free),
    (400, Class::Free),
    (404, Class::Free),
    (499, Class::Free),
    (500, Class::Shut),
    (503, Class::Shut),
    (599, Class::Shut),
    (600, Class::Free),
    (0, Class::Free),
    (65535, Class::Free),
];

/// A file of a head, a piece many times and an end; a target of `/`, `a` many times and a last part; and the line and the
/// verdict of the rule.
struct Size {
    head: &'static [u8],
    piece: &'static [u8],
    times: u32,
    end: &'static [u8],
    octets: u32,
    last: &'static [u8],
    answer: Option<(u32, bool)>,
}

/// A size by its parts.
macro_rules! size {
    ($head:expr, $piece:expr, $times:expr, $end:expr; $octets:expr, $last:expr; $answer:expr) => {
        Size {
            head: $head,
            piece: $piece,
            times: $times,
            end: $end,
            octets: $octets,
            last: $last,
            answer: $answer,
        }
    };
}

const RULES: &[u8] = b"User-agent: *\nDisallow: /";

/// Files up to the limit of 512,000 bytes and past it, and patterns and targets that a slow search would take long for.
const SIZES: [Size; 15] = [
    // Lines of one kind, 512,000 bytes of them.
    size!(b"User-agent: *\n", b"Disallow: /\n", 42_665, b"######"; 0, b"x"; Some((2, false))),
    size!(b"", b"\n", 511_975, RULES; 0, b"x"; Some((511_977, false))),
    size!(b"", b"\r", 511_975, RULES; 0, b"x"; Some((511_977, false))),
    size!(b"########\n", b"User-agent: a\n", 36_569, RULES; 0, b"x"; Some((36_572, false))),
    size!(b"User-agent: *\n", b"Disallow: /b\n", 9_999, b"Disallow: /x"; 0, b"x"; Some((10_001, false))),
    // The rule ends with the limit, and passes it by one octet and by all.
    size!(b"User-agent: *\n", b"#", 511_974, b"\nDisallow: /"; 0, b"x"; Some((3, false))),
    size!(b"User-agent: *\n", b"#", 511_975, b"\nDisallow: /"; 0, b"x"; None),
    size!(b"User-agent: *\n", b"#", 511_985, b"\nDisallow: /"; 0, b"x"; None),
    // Patterns of many `*` and of a long run, against targets of one octet.
    size!(RULES, b"*a", 1000, b"b"; 2000, b""; None),
    size!(RULES, b"*a", 1000, b"b"; 2000, b"b"; Some((2, false))),
    size!(RULES, b"*a", 1000, b"b"; 7000, b"b"; Some((2, false))),
    size!(b"User-agent: *\nDisallow:*", b"a", 1000, b"b"; 2000, b""; None),
    size!(b"User-agent: *\nDisallow:*", b"a", 1000, b"b"; 2000, b"b/"; Some((2, false))),
    size!(b"User-agent: *\nDisallow:*", b"a", 1000, b"b$"; 2000, b"b"; Some((2, false))),
    size!(b"User-agent: *\nDisallow:*", b"a", 1000, b"b$"; 2000, b"b/"; None),
];

/// A head, a piece many times and an end.
fn long(
    alloc: Global,
    head: &[u8],
    piece: &[u8],
    times: u32,
    end: &[u8],
) -> Result<Vec<u8>, AllocError> {
    let mut bytes = head.to_vec(alloc)?;
    for _ in 0..times {
        bytes.extend_from_slice(piece)?;
    }
    bytes.extend_from_slice(end)?;
    Ok(bytes)
}

/// The first case that is answered otherwise, where each file follows this head.
fn other_rule(alloc: Global, head: &[u8], cases: &[Case]) -> Result<Option<usize>, AllocError> {
    for (i, (rules, target, answer)) in cases.iter().enumerate() {
        let file = long(alloc, head, rules, 1, b"")?;
        if Robots::read(alloc, &file, b"irlbot")?.by(target) != *answer {
            return Ok(Some(i));
        }
    }
    Ok(None)
}

/// The first example of which something else is allowed.
fn other_verdict(alloc: Global, cases: &[Example]) -> Result<Option<usize>, AllocError> {
    for (i, (file, agent, target, allowed)) in cases.iter().enumerate() {
        if Robots::read(alloc, file, agent)?.allows(target) != *allowed {
            return Ok(Some(i));
        }
    }
    Ok(None)
}

/// The rule that holds for a long target by a long file.
fn rule_of(alloc: Global, size: &Size) -> Result<Option<(u32, bool)>, AllocError> {
    let file = long(alloc, size.head, size.piece, size.times, size.end)?;
    let target = long(alloc, b"/", b"a", size.octets, size.last)?;
    Ok(Robots::read(alloc, kept(&file), b"irlbot")?.by(&target))
}

/// Whether a target may be fetched, by a note.
fn leave(alloc: Global, note: &NoteState, target: &[u8]) -> Result<Leave, AllocError> {
    Ok(HostState::read(alloc, note, b"irlbot")?.leave(target))
}

#[test]
fn groups_and_lines(rt: HostRuntime) -> Result<(), Fail> {
    assert_eq!(rt; other_rule(rt.alloc(), b"", &GROUPS)?, None);
    Ok(())
}

#[test]
fn patterns_and_targets(rt: HostRuntime) -> Result<(), Fail> {
    assert_eq!(rt;
        other_rule(rt.alloc(), b"User-agent: *\n", &PATTERNS)?,
        None
    );
    Ok(())
}

#[test]
fn examples_of_the_standard(rt: HostRuntime) -> Result<(), Fail> {
    assert_eq!(rt; other_verdict(rt.alloc(), &EXAMPLES)?, None);
    Ok(())
}

#[test]
fn sizes(rt: HostRuntime) -> Result<(), Fail> {
    for (i, size) in SIZES.iter().enumerate() {
        assert_eq!(rt; (i, rule_of(rt.alloc(), size)?), (i, size.answer));
    }
    Ok(())
}

#[test]
fn notes(rt: HostRuntime) -> Result<(), Fail> {
    let text = Text::from_bytes(rt.alloc(), b"User-agent: *\nDisallow: /x")?;
    let rules = NoteState::Rules(text);
    for (note, target, answer) in [
        (&rules, b"/x", Leave::Denied(2)),
        (&rules, b"/y", Leave::Allowed),
        (&NoteState::Free, b"/x", Leave::Allowed),
        (&NoteState::Shut, b"/x", Leave::Shut),
    ] {
        assert_eq!(rt; leave(rt.alloc(), note, target)?, answer);
    }
    Ok(())
}

#[test]
fn classes_of_statuses(rt: HostRuntime) {
    for (status, expected) in STATUSES {
        assert_eq!(rt; (status, class(status)), (status, expected));
    }
}
