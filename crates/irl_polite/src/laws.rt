ghost use Rattle.std.specs.Prelude.{◌≡◌, ℕ, true, List, ◌∷◌, ◌++◌, max};
ghost use Rattle.std.specs.List.{flat_map, AllPairs, Any};
ghost use Rattle.std.specs.List.Sorted.{IsPermutation};
ghost use Rattle.irl_polite.specs.declared.job.Job.{Job};
ghost use Rattle.irl_polite.specs.Schedule.{Schedule, empty_of, host};
ghost use Rattle.irl_polite.specs.Answers.{Answers};
ghost use Rattle.irl_polite.specs.History.{Step, Take, Runs, starts, AreApart, loaded_by, answered_by, moment_of, Rests};

/// What holds over every list of calls on a new front.
pub fn politeness()
    // Fetches of one host start at least the delay apart, where that moment isn't past the last one.
    ensures apart { (delay : ℕ) (agent : List ℕ) (steps : List Step) (end : Schedule) →
        Runs (empty_of delay agent) steps end → AllPairs (AreApart delay) (starts 0 steps) }

    // Each item that was loaded is answered once or left: none twice, and all once where none is left.
    ensures once { (delay : ℕ) (agent : List ℕ) (steps : List Step) (end : Schedule) →
        Runs (empty_of delay agent) steps end →
        IsPermutation (flat_map loaded_by steps) (flat_map answered_by steps ++ end.items) }

    // A robots file is awaited only while an item of its host is left.
    ensures held { (delay : ℕ) (agent : List ℕ) (steps : List Step) (end : Schedule) (name : List ℕ) →
        Runs (empty_of delay agent) steps end → end.awaited name ≡ true → Any (λ work. host work ≡ name) end.items }

    // A page is fetched, or refused, by the state last handed in for its host, which is in use at that moment; a robots
    // file is asked for only where that one isn't.
    ensures noted { (delay : ℕ) (agent : List ℕ) (before behind : List Step) (now : ℕ) (job : Job) (end : Schedule) →
        Runs (empty_of delay agent) (before ++ Take now job ∷ behind) end →
        Rests agent before (max (moment_of before) now) job }
{}

/// At one moment a schedule has one answer, which leaves one schedule: each answer comes exactly where `Answers` has it.
pub fn one_answer()
    ensures job { (old new other : Schedule) (job second : Job) →
        Answers old job new → Answers old second other → job ≡ second }
    ensures left { (old new other : Schedule) (job second : Job) →
        Answers old job new → Answers old second other → new ≡ other }
{}
