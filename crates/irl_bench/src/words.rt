ghost use Rattle.std.specs.Prelude.{◌≡◌, ◌≤◌, IfSome};
ghost use Rattle.irl_bench.specs.Words.{bench_of};

/// What is measured.
#[derive(Clone, Copy)]
pub enum Bench {
    /// The events of a crawl.
    Fates,
    /// The turns of a front.
    Front,
    /// A tape and the links of its pages.
    Parse,
    /// A reply in pieces.
    Reply,
    /// A robots file and questions to it.
    Robots,
    /// A crawl over a store.
    Yard,
}

impl Bench {
    /// The bench of this name.
    pub fn from_word(word: &str) -> Option<Bench>
        ensures { result ≡ bench_of word.now }
    {
        match word {
            "fates" => Some(Bench::Fates),
            "front" => Some(Bench::Front),
            "parse" => Some(Bench::Parse),
            "reply" => Some(Bench::Reply),
            "robots" => Some(Bench::Robots),
            "yard" => Some(Bench::Yard),
            _ => None,
        }
    }
}

/// How far a bench goes.
#[derive(Clone, Copy)]
pub enum Stage {
    /// What its calls are given is made.
    Made,
    /// What is loaded before its calls is loaded.
    Loaded,
    /// The calls are made.
    Done,
}

impl Stage {
    /// The stage of this name.
    pub fn from_word(word: &str) -> Option<Stage> {
        match word {
            "made" => Some(Stage::Made),
            "loaded" => Some(Stage::Loaded),
            "done" => Some(Stage::Done),
            _ => None,
        }
    }
}

/// The number that a word is, where that is above 0.
pub fn number(word: &str) -> Option<u32>
    ensures { IfSome result (λ n. 1 ≤ n) }
{
    match word.parse::<u32>() {
        Ok(number) if number > 0 => Some(number),
        _ => None,
    }
}
