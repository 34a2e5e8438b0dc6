ghost use Rattle.std.specs.Prelude.{◌≡◌};
ghost use Rattle.irl_words.specs.Options.{name_of, word_of};

/// The commands that the first word picks.
#[derive(Clone, Copy, Debug, PartialEq, Eq)]
pub(crate) enum Name {
    Seen,
    Drum,
    Replay,
    Crawl,
    Gen,
    Show,
    List,
}

impl Name {
    /// The command that a word names.
    pub(crate) fn of(word: &str) -> Option<Name>
        ensures { result ≡ name_of word.now }
    {
        match word {
            "seen" => Some(Name::Seen),
            "drum" => Some(Name::Drum),
            "replay" => Some(Name::Replay),
            "crawl" => Some(Name::Crawl),
            "gen" => Some(Name::Gen),
            "show" => Some(Name::Show),
            "list" => Some(Name::List),
            _ => None,
        }
    }
}
