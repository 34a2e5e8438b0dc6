use irl_host::host_at_sight;
use irl_offer::MAX_TEXT;
use std::test::Fail;

// Texts, and the host that is seen in each, or nothing.
const TEXTS: [(&str, &str); 32] = [
    ("http://h17.site42.test/p/123", "h17.site42.test"),
    ("http://a.test/", "a.test"),
    (
        "http://www.example.co.uk/a/b.html?q=1&r=x",
        "www.example.co.uk",
    ),
    ("http://a-b.0.test//x%41/_~!$&()*+,;=:@?a?b", "a-b.0.test"),
    ("http://localhost/?", "localhost"),
    ("http://a..test/", "a..test"),
    ("http://xn--a.test/", "xn--a.test"),
    ("http://A.test/", ""),
    ("http://a.test", ""),
    ("http://a.test:80/", ""),
    ("http://a.test:81/", ""),
    ("http://1.2.3.4/", ""),
    ("http://1.2.3.0x4/", ""),
    ("http://a.test./", ""),
    ("http:///", ""),
    ("http://a.1/", ""),
    ("http://u@a.test/", ""),
    ("http://[::1]/", ""),
    ("http://a.test?q", ""),
    ("http://a.test/../b", ""),
    ("http://a.test/b/.", ""),
    ("http://a.test/%2e/b", ""),
    ("http://a.test/a\\b", ""),
    ("http://a.test/a b", ""),
    ("http://a.test/?'", ""),
    ("http://a.test/#f", ""),
    ("http://a.test/\u{e9}", ""),
    ("https://a.test/", ""),
    ("HTTP://a.test/", ""),
    (" http://a.test/", ""),
    ("http://", ""),
    ("", ""),
];

#[test]
fn hosts_are_seen_in_plain_texts(rt: HostRuntime) {
    for (text, host) in TEXTS {
        let seen = host_at_sight(text.as_bytes()).unwrap_or(b"");
        assert_eq!(rt; (text, seen), (text, host.as_bytes()));
    }
}

#[test]
fn a_text_of_the_greatest_length_is_seen(rt: HostRuntime) -> Result<(), Fail> {
    let mut text = b"http://a.test/".to_vec(rt.alloc())?;
    for _ in text.len()..MAX_TEXT {
        text.push(b'x')?;
    }
    assert!(rt; host_at_sight(&text) == Some(b"a.test".as_slice()));
    text.push(b'x')?;
    assert!(rt; host_at_sight(&text).is_none());
    Ok(())
}
