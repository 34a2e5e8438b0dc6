use irl_key::{Canon, Web, Work, canonical, key_of, robots_of};
use irl_offer::MAX_TEXT;
use std::alloc::{AllocError, Global};
use std::test::Fail;

// Texts of FIPS 180-4's examples and the empty one, and the fronts of their digests.
const KEYS: [(&str, u64); 3] = [
    ("", 0xda39_a3ee_5e6b_4b0d),
    ("abc", 0xa999_3e36_4706_816a),
    (
        "abcdbcdecdefdefgefghfghighijhijkijkljklmklmnlmnomnopnopq",
        0x8498_3e44_1c3b_d26e,
    ),
];

#[test]
fn a_key_is_the_front_of_the_digest(rt: HostRuntime) {
    for (text, key) in KEYS {
        assert_eq!(rt; key_of(text.as_bytes()), key);
    }
}

// Links alone, and what each counts as, worked out by the states of the URL Standard's parser: the scheme, the port,
// the fragment and the query, escapes, dot segments, addresses, domains, user names, other schemes and none.
const ALONE: &str = r#"http://a.test/ => http://a.test/
HTTP://A.TEST/Ab => http://a.test/Ab
http://a.test => http://a.test/
http:a.test/x => http://a.test/x
http:/a.test => http://a.test/
http:///a.test/x => http://a.test/x
http:\\a.test\x => http://a.test/x
  http://a.test/  => http://a.test/
http://a.test:80/ => http://a.test/
http://a.test:080/ => http://a.test/
http://a.test:/x => http://a.test/x
http://a.test:8080/x => http://a.test:8080/x
http://a.test:0/ => http://a.test:0/
http://a.test:443/ => http://a.test:443/
http://a.test:65535/ => http://a.test:65535/
http://a.test:65536/ => bad
http://a.test:8x/ => bad
http://a.test/#f => http://a.test/
http://a.test#f?g => http://a.test/
http://a.test/? => http://a.test/?
http://a.test/?# => http://a.test/?
http://a.test?q => http://a.test/?q
http://a.test/?a b => http://a.test/?a%20b
http://a.test/?a'b => http://a.test/?a%27b
http://a.test/?"<> => http://a.test/?%22%3C%3E
http://a.test/?{|}^` => http://a.test/?{|}^`
http://a.test/?é => http://a.test/?%C3%A9
http://a.test/?a?b/.. => http://a.test/?a?b/..
http://a.test/a b => http://a.test/a%20b
http://a.test/a%20%7eb => http://a.test/a%20%7eb
http://a.test/%zz => http://a.test/%zz
http://a.test/"<>`{} => http://a.test/%22%3C%3E%60%7B%7D
http://a.test/^ => http://a.test/%5E
http://a.test/|' => http://a.test/|'
http://a.test/é => http://a.test/%C3%A9
http://a.test/a/./b => http://a.test/a/b
http://a.test/a/../b => http://a.test/b
http://a.test/a/b/.. => http://a.test/a/
http://a.test/a/b/. => http://a.test/a/b/
http://a.test/../../x => http://a.test/x
http://a.test/a/%2e/b => http://a.test/a/b
http://a.test/a/%2E%2e/b => http://a.test/b
http://a.test/a/.%2e/b => http://a.test/b
http://a.test/.../x => http://a.test/.../x
http://a.test//x//y => http://a.test//x//y
http://a.test/a/..//b => http://a.test//b
http://a.test\a\..\b => http://a.test/b
http://127.0.0.1/ => http://127.0.0.1/
http://0x7f.1/ => http://127.0.0.1/
http://2130706433/ => http://127.0.0.1/
http://017700000001/ => http://127.0.0.1/
http://1.256/ => http://1.0.1.0/
http://1.2.3.4./ => http://1.2.3.4/
http://192.168.0.257/ => bad
http://256.1/ => bad
http://1.2.3.4.5/ => bad
http://a.09/ => bad
http://[::1]/ => http://[::1]/
http://[0:0::1]:8080/ => http://[::1]:8080/
http://[2001:DB8::0:1]/ => http://[2001:db8::1]/
http://[::127.0.0.1]/ => http://[::7f00:1]/
http://[1:2/ => bad
http://[::1::]/ => bad
http://a.test./ => http://a.test./
http://a..test/ => http://a..test/
http://a%41b.test/ => http://aab.test/
http://bücher.test/ => http://xn--bcher-kva.test/
http://faß.test/ => http://xn--fa-hia.test/
http:// => bad
http:/// => bad
http://?q => bad
http://:80/ => bad
http://a b/ => bad
http://a%2fb/ => bad
http://%zz.test/ => bad
http://a<b/ => bad
http://u@a.test/ => bad
http://u:p@a.test/ => bad
http://:p@a.test/ => bad
http://a@b@c.test/ => bad
http://u@/ => bad
http://@a.test/ => http://a.test/
http://:@a.test/ => http://a.test/
http://a.test/u@b => http://a.test/u@b
https://a.test/ => not http
https://u:p@a.test/ => not http
ftp://a.test/ => not http
ws://a.test/ => not http
file:///x => not http
mailto:x@a.test => not http
javascript:alert(1) => not http
httpx://a.test/ => not http
https:// => bad
 => bad
x => bad
/x => bad
//a.test/ => bad
1http://a.test/ => bad
"#;

// The same against the base `http://a.test/d/p?q`.
const ON_A_PAGE: &str = r#" => http://a.test/d/p?q
#x => http://a.test/d/p?q
?a=1 => http://a.test/d/p?a=1
? => http://a.test/d/p?
x?y#z => http://a.test/d/x?y
../x => http://a.test/x
../../x => http://a.test/x
%2e%2e/x => http://a.test/x
. => http://a.test/d/
.. => http://a.test/
p/ => http://a.test/d/p/
/x => http://a.test/x
\x => http://a.test/x
//b.test:80 => http://b.test/
///b.test/x => http://b.test/x
\\b.test\y => http://b.test/y
http:x => http://a.test/d/x
http:/x => http://a.test/x
1:y => http://a.test/d/1:y
x:y => not http
https://b.test/ => not http
//u@b.test/ => bad
//b.test:99999/ => bad
// => bad
"#;

// A base or none, and links with what they count as, one on each line.
const LINKS: [(&str, &str); 4] = [
    ("", ALONE),
    ("http://a.test/d/p?q", ON_A_PAGE),
    ("http://a.test:81/d/p", "/x => http://a.test:81/x"),
    ("http://a.test/e/", "?a=1&b=2 => http://a.test/e/?a=1&b=2"),
];

// The text of a web page, and the name of any other answer.
fn shown(alloc: Global, canon: Canon) -> Result<Vec<u8>, AllocError> {
    match canon {
        Canon::Web(web) => web.text().to_vec(alloc),
        Canon::NotHttp => b"not http".to_vec(alloc),
        Canon::Bad => b"bad".to_vec(alloc),
        Canon::TooLong => b"too long".to_vec(alloc),
    }
}

fn web_of(alloc: Global, text: &[u8]) -> Result<Option<Web>, AllocError> {
    match canonical(alloc, None, text)? {
        Canon::Web(web) => Ok(Some(web)),
        _ => Ok(None),
    }
}

fn answer(alloc: Global, base: Option<&Web>, link: &[u8]) -> Result<Vec<u8>, AllocError> {
    shown(alloc, canonical(alloc, base, link)?)
}

// The first case that is answered otherwise, or nothing.
fn first_wrong(alloc: Global, base: &str, cases: &str) -> Result<String, AllocError> {
    let base = web_of(alloc, base.as_bytes())?;
    for case in cases.lines() {
        let (link, wanted) = case.split_once(" => ").unwrap_or((case, "no case"));
        if answer(alloc, base.as_ref(), link.as_bytes())?.as_slice() != wanted.as_bytes() {
            return String::from_str(alloc, case);
        }
    }
    Ok(String::new(alloc))
}

#[test]
fn links_count_as_the_standard_says(rt: HostRuntime) -> Result<(), Fail> {
    for (base, cases) in LINKS {
        let wrong = first_wrong(rt.alloc(), base, cases)?;
        assert_eq!(rt; wrong.as_str(), "");
    }
    Ok(())
}

// A front, how many `x` stand behind it, an end, and what the three together count as. Where that is empty, it is the
// front with its `x`.
const LONG: [(&[u8], usize, &[u8], &str); 11] = [
    (b"ht\ttp://a.te\nst/x\ry", 0, b"", "http://a.test/xy"),
    (b"http://a.test/\xff", 0, b"", "bad"),
    (b"http://a.test/", MAX_TEXT - 14, b"", ""),
    (b"http://a.test/", MAX_TEXT - 14, b"#fragment", ""),
    (b"http://a.test/", MAX_TEXT - 13, b"", "too long"),
    // three bytes in place of a space
    (b"http://a.test/", MAX_TEXT - 17, b" y", "too long"),
    (b"https://a.test/", 1_048_576, b"", "not http"),
    (b"http://u@a.test/", 1_048_576, b"", "bad"),
    (b"http://a.test/", 1_048_576, b"", "too long"),
    (
        b"http://a.test/",
        1_048_576,
        b"/../y?z",
        "http://a.test/y?z",
    ),
    (b"http://a.test/?q#", 1_048_576, b"", "http://a.test/?q"),
];

fn text_of(alloc: Global, front: &[u8], count: usize, end: &[u8]) -> Result<Vec<u8>, AllocError> {
    let mut text = front.to_vec(alloc)?;
    for _ in 0..count {
        text.push(b'x')?;
    }
    text.extend_from_slice(end)?;
    Ok(text)
}

// What a front, so many `x` and an end count as, and what they should.
fn long_pair(
    alloc: Global,
    row: (&[u8], usize, &[u8], &str),
) -> Result<(Vec<u8>, Vec<u8>), AllocError> {
    let (front, count, end, wanted) = row;
    let link = text_of(alloc, front, count, end)?;
    let counted = answer(alloc, None, &link)?;
    let wanted = if wanted.is_empty() {
        text_of(alloc, front, count, b"")?
    } else {
        wanted.as_bytes().to_vec(alloc)?
    };
    Ok((counted, wanted))
}

#[test]
fn a_canonical_text_is_not_too_long(rt: HostRuntime) -> Result<(), Fail> {
    for row in LONG {
        let (counted, wanted) = long_pair(rt.alloc(), row)?;
        assert_eq!(rt; counted.as_slice(), wanted.as_slice());
    }
    Ok(())
}

// Links, the host of each, what is asked of it, and its robots file.
const PARTS: &str = "http://a.test => a.test / http://a.test/robots.txt
http://a.test:80/? => a.test /? http://a.test/robots.txt
http://a.test:8080/p/q?r=1#f => a.test:8080 /p/q?r=1 http://a.test:8080/robots.txt
http://[::1]:81/x? => [::1]:81 /x? http://[::1]:81/robots.txt
http://0x7f.1/a:8 => 127.0.0.1 /a:8 http://127.0.0.1/robots.txt
";

fn parts_of(alloc: Global, link: &[u8]) -> Result<Vec<u8>, AllocError> {
    let mut parts = Vec::new(alloc);
    if let Some(web) = web_of(alloc, link)? {
        let copy = web.copy(alloc)?;
        let work = Work {
            number: 7,
            web: copy,
        };
        let robots = robots_of(alloc, web.host())?;
        parts.extend_from_slice(work.web.host())?;
        parts.push(b' ')?;
        parts.extend_from_slice(work.web.target())?;
        parts.push(b' ')?;
        parts.extend_from_slice(robots.text())?;
    }
    Ok(parts)
}

// The first case whose parts are others, or nothing.
fn other_parts(alloc: Global, cases: &str) -> Result<String, AllocError> {
    for case in cases.lines() {
        let (link, wanted) = case.split_once(" => ").unwrap_or((case, "no case"));
        if parts_of(alloc, link.as_bytes())?.as_slice() != wanted.as_bytes() {
            return String::from_str(alloc, case);
        }
    }
    Ok(String::new(alloc))
}

#[test]
fn a_link_has_a_host_a_target_and_a_robots_file(rt: HostRuntime) -> Result<(), Fail> {
    let other = other_parts(rt.alloc(), PARTS)?;
    assert_eq!(rt; other.as_str(), "");
    Ok(())
}

// The parts of a link whose host has so many bytes, and what they should be.
fn host_pair(alloc: Global, count: usize) -> Result<(Vec<u8>, Vec<u8>), AllocError> {
    let link = text_of(alloc, b"http://", count, b"/")?;
    let mut wanted = text_of(alloc, b"", count, b" / http://")?;
    wanted.extend_from_slice(&text_of(alloc, b"", count, b"/robots.txt")?)?;
    Ok((parts_of(alloc, &link)?, wanted))
}

#[test]
fn the_longest_host_has_a_robots_file(rt: HostRuntime) -> Result<(), Fail> {
    let (parts, wanted) = host_pair(rt.alloc(), MAX_TEXT - 8)?;
    assert_eq!(rt; parts.as_slice(), wanted.as_slice());
    Ok(())
}
