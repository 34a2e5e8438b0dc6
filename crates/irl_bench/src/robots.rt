//! A robots file, and questions to it.

use crate::score::{Score, all_if};
use crate::words::{Stage, number};
use irl_robots::Robots;
use std::alloc::{AllocError, Global};

/// How many questions an ordinary file is asked at most.
const QUESTIONS: u32 = 1_000;

/// How many questions another file is asked.
const HARD_QUESTIONS: u32 = 20;

/// What the rules of the file are.
#[derive(Clone, Copy)]
enum Rules {
    /// As sites have them.
    Ordinary,
    /// A long run of one letter behind a `*`.
    OneRun,
    /// Many `*`, each with a letter behind it.
    ManyStars,
    /// A `*` and a letter.
    Short,
}

/// Which file is read and asked, and how often.
#[derive(Clone, Copy)]
pub struct Manner {
    rules: Rules,
    rounds: u32,
}

impl Manner {
    /// What these words name: the rules, and how often the file is read and asked.
    pub fn from_words(words: &[&str]) -> Option<Manner> {
        match words {
            [] => Some(Manner {
                rules: Rules::Ordinary,
                rounds: 1,
            }),
            [rules, rounds] => Some(Manner {
                rules: rules_of(rules)?,
                rounds: number(rounds)?,
            }),
            _ => None,
        }
    }
}

/// A target, and whether the file allows it.
#[derive(Drop)]
struct Question {
    target: Vec<u8>,
    is_allowed: bool,
}

/// Asks a file with so many rules: how many answers are right.
pub fn run(alloc: Global, size: u32, stage: Stage, manner: Manner) -> Result<Score, AllocError> {
    let file = file(alloc, manner.rules, size)?;
    let questions = questions(alloc, manner.rules, size)?;
    let calls = (questions.len() as u64).saturating_mul(u64::from(manner.rounds));
    let right = match stage {
        Stage::Made => all_if(file.len() > size as usize, calls),
        Stage::Loaded => all_if(is_read(alloc, &file, manner.rounds)?, calls),
        Stage::Done => right_answers(alloc, &file, &questions, manner.rounds)?,
    };
    Ok(Score {
        right,
        calls,
        beside: None,
    })
}

fn rules_of(word: &str) -> Option<Rules> {
    match word {
        "ordinary" => Some(Rules::Ordinary),
        "one-run" => Some(Rules::OneRun),
        "many-stars" => Some(Rules::ManyStars),
        "short" => Some(Rules::Short),
        _ => None,
    }
}

// A file of one group for all agents, with so many rules.
fn file(alloc: Global, rules: Rules, size: u32) -> Result<Vec<u8>, AllocError> {
    match rules {
        Rules::Ordinary => ordinary_file(alloc, size),
        Rules::OneRun => repeated_file(
            alloc,
            &line(alloc, b"Disallow:*", b"a", 1_000, b"b\n")?,
            size,
        ),
        Rules::ManyStars => repeated_file(
            alloc,
            &line(alloc, b"Disallow:", b"*a", 500, b"*b\n")?,
            size,
        ),
        Rules::Short => repeated_file(alloc, b"Disallow:*b\n", size),
    }
}

// A file of this line, so many times.
fn repeated_file(alloc: Global, line: &[u8], lines: u32) -> Result<Vec<u8>, AllocError> {
    let mut bytes = b"User-agent: *\n".to_vec(alloc)?;
    for _ in 0..lines {
        bytes.extend_from_slice(line)?;
    }
    Ok(bytes)
}

// A line of a field, a part that comes many times, and an end.
fn line(
    alloc: Global,
    field: &[u8],
    part: &[u8],
    parts: u32,
    end: &[u8],
) -> Result<Vec<u8>, AllocError> {
    let mut bytes = field.to_vec(alloc)?;
    for _ in 0..parts {
        bytes.extend_from_slice(part)?;
    }
    bytes.extend_from_slice(end)?;
    Ok(bytes)
}

// A file of so many rules as sites have them.
fn ordinary_file(alloc: Global, rules: u32) -> Result<Vec<u8>, AllocError> {
    let mut bytes = b"User-agent: *\n".to_vec(alloc)?;
    for i in 0..rules {
        bytes.extend_from_slice(ordinary_rule(alloc, i)?.as_bytes())?;
    }
    Ok(bytes)
}

fn ordinary_rule(alloc: Global, i: u32) -> Result<String, AllocError> {
    match i % 4 {
        0 => format!(in alloc; "Disallow: /section-{}/page-{i}/\n", i / 100),
        1 => format!(in alloc; "Disallow: /user/{i}/edit\n"),
        2 => format!(in alloc; "Allow: /archive/{}/{i}.html\n", i / 10),
        _ => format!(in alloc; "Disallow: /tmp-{i}/*.gif$\n"),
    }
}

// What a file of so many rules is asked: 1,000 targets of an ordinary one, but no more than it has rules; else one long
// target, which no rule matches, a few times.
fn questions(alloc: Global, rules: Rules, size: u32) -> Result<Vec<Question>, AllocError> {
    let mut questions = Vec::new(alloc);
    match rules {
        Rules::Ordinary => {
            for i in 0..size.min(QUESTIONS) {
                questions.push(ordinary_question(alloc, i, size)?)?;
            }
        }
        _ => {
            for _ in 0..HARD_QUESTIONS {
                questions.push(hard_question(alloc)?)?;
            }
        }
    }
    Ok(questions)
}

// A long target, which is allowed.
fn hard_question(alloc: Global) -> Result<Question, AllocError> {
    Ok(Question {
        target: line(alloc, b"/", b"a", 2_000, b"")?,
        is_allowed: true,
    })
}

// The ordinary question of this number: each fourth falls under a rule, where the file has that one.
fn ordinary_question(alloc: Global, i: u32, rules: u32) -> Result<Question, AllocError> {
    let next = u64::from(i) + 1;
    let target = match i % 4 {
        0 => format!(in alloc; "/user/{next}/edit?back=1")?,
        1 => format!(in alloc; "/section-{}/page-{i}.html", i / 10)?,
        2 => format!(in alloc; "/archive/{i}/index.html")?,
        _ => format!(in alloc; "/news/2026/11/{i}/a-longer-title-of-a-page?id={i}&from=front")?,
    };
    Ok(Question {
        target: target.as_bytes().to_vec(alloc)?,
        is_allowed: i % 4 != 0 || next >= u64::from(rules),
    })
}

// Reads the file so often, and says whether the robots file itself stays allowed.
fn is_read(alloc: Global, file: &[u8], rounds: u32) -> Result<bool, AllocError> {
    let mut is_allowed = true;
    for _ in 0..rounds {
        let robots = Robots::read(alloc, file, b"irlbot")?;
        is_allowed = is_allowed && robots.allows(b"/robots.txt");
    }
    Ok(is_allowed)
}

// Reads the file so often, and counts the right answers.
fn right_answers(
    alloc: Global,
    file: &[u8],
    questions: &[Question],
    rounds: u32,
) -> Result<u64, AllocError> {
    let mut right = 0u64;
    for _ in 0..rounds {
        let robots = Robots::read(alloc, file, b"irlbot")?;
        for question in questions {
            if robots.allows(&question.target) == question.is_allowed {
                right = right.saturating_add(1);
            }
        }
    }
    Ok(right)
}
