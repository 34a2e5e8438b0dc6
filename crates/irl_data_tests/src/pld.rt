use irl_pld::{SuffixFault, Suffixes};
use std::alloc::{AllocError, Global};
use std::test::Fail;

// The first line that is no name in a text, so many `b` at its end, or 0.
fn bad_line(alloc: Global, front: &str, count: usize) -> Result<u64, AllocError> {
    let mut text = front.as_bytes().to_vec(alloc)?;
    for _ in 0..count {
        text.push(b'b')?;
    }
    match Suffixes::read(alloc, &text) {
        Ok(_) => Ok(0),
        Err(SuffixFault::BadLine(line)) => Ok(line),
        Err(SuffixFault::Memory) => Err(AllocError),
    }
}

// A front, how many `b` stand behind it, and the first line of the two that is no name, or 0.
const TEXTS: [(&str, usize, u64); 21] = [
    ("", 0, 0),
    ("com\ncom\na-1.b\n7\n-", 0, 0),
    ("com\nCo", 0, 2),
    ("com\n", 0, 2),
    ("\ncom", 0, 1),
    ("a\n\nB", 0, 2),
    ("a\nb\nc_", 0, 3),
    ("a..b", 0, 1),
    (".a", 0, 1),
    ("a.", 0, 1),
    (".", 0, 1),
    ("a b", 0, 1),
    ("a\r\nb", 0, 1),
    ("*.uk", 0, 1),
    ("!a", 0, 1),
    ("a:80", 0, 1),
    ("b\u{fc}cher", 0, 1),
    ("com\na.", 251, 0),
    ("com\na.", 252, 2),
    ("com\n", 253, 0),
    ("com\n", 1_048_576, 2),
];

#[test]
fn a_text_is_refused_at_its_first_bad_line(rt: HostRuntime) -> Result<(), Fail> {
    for (front, count, line) in TEXTS {
        assert_eq!(rt; (front, bad_line(rt.alloc(), front, count)?), (front, line));
    }
    Ok(())
}

// Hosts, and the domain of each by the suffixes `com` and `co.uk`: suffixes and no suffixes, labels that end in one,
// names in front, ports, addresses, one dot at the end, and empty labels.
const DOMAINS: &str = "x.y.co.uk => y.co.uk
y.co.uk => y.co.uk
co.uk => co.uk
com => com
a.com => a.com
c.b.a.com => a.com
localhost => localhost
x.y.org => y.org
y.org => y.org
org => org
uk => uk
x.a.uk => a.uk
xco.uk => xco.uk
x.xco.uk => xco.uk
x.y.acom => y.acom
com.x.y => x.y
co.uk.x.y => x.y
x.y.co.uk:8080 => y.co.uk
co.uk:1 => co.uk
localhost:1 => localhost
127.0.0.1 => 127.0.0.1
127.0.0.1:80 => 127.0.0.1
[::1] => [::1]
[::1]:8080 => [::1]
[2001:db8::a.com]:1 => [2001:db8::a.com]
a.b.7 => a.b.7
a.b.70 => a.b.70
x.a.7b => a.7b
x.7.b => 7.b
x.y.co.uk. => y.co.uk
b.a.com.:80 => a.com
127.0.0.1. => 127.0.0.1
com. => com
b.a..com => .com
y.x.. => x.
. => 
";

// The same by the suffixes `uk`, `co.uk`, `b.co.uk` and `xn--p1ai`.
const NESTED: &str = "x.a.b.co.uk => a.b.co.uk
b.co.uk => b.co.uk
x.a.co.uk => a.co.uk
co.uk => co.uk
x.a.uk => a.uk
b.a.xn--p1ai => a.xn--p1ai
xn--p1ai => xn--p1ai
";

// Suffix texts, and hosts with their domains, one on each line.
const LISTS: [(&str, &str); 3] = [
    ("com\nco.uk", DOMAINS),
    ("uk\nco.uk\nb.co.uk\nxn--p1ai\nco.uk", NESTED),
    ("", "x.y.org => y.org\norg => org\n => "),
];

// A copy of the suffixes of a text, unless a line of it is no name.
fn copied(alloc: Global, text: &[u8]) -> Result<Option<Suffixes>, AllocError> {
    match Suffixes::read(alloc, text) {
        Ok(suffixes) => Ok(Some(suffixes.copy(alloc)?)),
        Err(SuffixFault::BadLine(_)) => Ok(None),
        Err(SuffixFault::Memory) => Err(AllocError),
    }
}

// The first case that is answered otherwise, or nothing.
fn first_wrong(alloc: Global, text: &str, cases: &str) -> Result<String, AllocError> {
    let Some(suffixes) = copied(alloc, text.as_bytes())? else {
        return String::from_str(alloc, "refused");
    };
    for case in cases.lines() {
        let (host, wanted) = case.split_once(" => ").unwrap_or((case, "no case"));
        if suffixes.pld(host.as_bytes()) != wanted.as_bytes() {
            return String::from_str(alloc, case);
        }
    }
    Ok(String::new(alloc))
}

#[test]
fn a_host_has_one_domain(rt: HostRuntime) -> Result<(), Fail> {
    for (text, cases) in LISTS {
        let wrong = first_wrong(rt.alloc(), text, cases)?;
        assert_eq!(rt; wrong.as_str(), "");
    }
    Ok(())
}

// The name of this number, with 6 bytes more than the width.
fn name_of(alloc: Global, number: usize, width: usize) -> Result<String, AllocError> {
    format!(in alloc; "n{number:0>width$}.test")
}

// The text of `com` and so many names.
fn names_of(alloc: Global, count: usize, width: usize) -> Result<Vec<u8>, AllocError> {
    let mut text = b"com".to_vec(alloc)?;
    for number in 0..count {
        text.push(b'\n')?;
        text.extend_from_slice(name_of(alloc, number, width)?.as_bytes())?;
    }
    Ok(text)
}

// Whether the name of this number is a suffix of a host.
fn fits(
    alloc: Global,
    suffixes: &Suffixes,
    number: usize,
    width: usize,
) -> Result<bool, AllocError> {
    let name = name_of(alloc, number, width)?;
    let host = format!(in alloc; "a.b.{name}:80")?;
    let domain = format!(in alloc; "b.{name}")?;
    Ok(suffixes.pld(host.as_bytes()) == domain.as_bytes())
}

// Whether the first of so many names fits, one in their midst, the last, and the next.
fn which_fit(alloc: Global, count: usize, width: usize) -> Result<[bool; 4], AllocError> {
    let text = names_of(alloc, count, width)?;
    match copied(alloc, &text)? {
        Some(suffixes) => Ok([
            fits(alloc, &suffixes, 0, width)?,
            fits(alloc, &suffixes, count / 2, width)?,
            fits(alloc, &suffixes, count.saturating_sub(1), width)?,
            fits(alloc, &suffixes, count, width)?,
        ]),
        None => Ok([false; 4]),
    }
}

// How many names, and how wide: 10,000 names, and 17,000 names of 247 bytes, which are more than 4 MiB.
const SIZES: [(usize, usize); 2] = [(10_000, 5), (17_000, 241)];

#[test]
fn a_text_may_have_many_names(rt: HostRuntime) -> Result<(), Fail> {
    for (count, width) in SIZES {
        let fit = which_fit(rt.alloc(), count, width)?;
        assert_eq!(rt; fit, [true, true, true, false]);
    }
    Ok(())
}
