ghost use Rattle.std.specs.Prelude.{◌≡◌, ◌≢◌, ◌↔◌, ◌+◌, ◌-◌, ◌*◌, ◌/◌, ◌^◌, ◌<◌, ◌≤◌, ◌++◌, ℕ, Bool, true, List, nat_eq, map, filter, take, length, sum, slice_index, slice_index_or, [], AllPairs};
ghost use Rattle.std.specs.FinMap.{entries};
ghost use Rattle.std.specs.List.{AllByRecursion};
ghost use Rattle.irl_offer.specs.declared.offer.Rule.{Rule};
ghost use Rattle.irl_offer.specs.declared.receipt.Pair.{Pair};
ghost use Rattle.irl_offer.specs.Tuple.{Tuple};
ghost use Rattle.irl_model.specs.Judging.{AreParts, KeyMap, after, judgements};
ghost use Rattle.irl_offer.specs.Buckets.{IsBucketCount, bucket_of};
ghost use Rattle.irl_model.specs.Book.{Book, IsBook, IsFront, IsPrefixOf, gone, judged, judged_cut, judged_offers, lengths_of, uniques, uniques_from};
ghost use Rattle.irl_model.specs.Book.{flushed, judged_next, merged, pending, seen, with_cuts};
ghost use Rattle.irl_model.specs.Pairs.{ArePairsOf, IsRising, keys_of};
ghost use Rattle.irl_model.specs.Plain.{whole_book};

/// Pairs whose keys rise are those of one set, and those of a set rise.
pub fn rising_pairs_are_a_set()
    ensures are { (pairs : List Pair) → IsRising pairs → ArePairsOf (keys_of pairs) pairs }
    ensures rise { (keys : KeyMap) (pairs : List Pair) → ArePairsOf keys pairs → IsRising pairs }
    // Those below a key and those from it on are its two parts.
    ensures parts { (cut : ℕ) (front back : List Pair) → IsRising (front ++ back) →
        AllByRecursion (λ pair. pair.key < cut) front → AllByRecursion (λ pair. cut ≤ pair.key) back →
        AreParts cut (keys_of (front ++ back)) (keys_of front) (keys_of back) }
{}

/// Asking a set adds keys of offers, and no others, and leaves it no fewer keys.
pub fn asking_adds_keys()
    // Each key then passes every test that the keys before and the offers' keys pass.
    ensures within { (test : ℕ → Bool) (rule : Rule) (keys : KeyMap) (offers : List Tuple) →
        AllByRecursion (λ p. test p.0 ≡ true) (entries keys) → AllByRecursion (λ offer. test offer.key ≡ true) offers →
        AllByRecursion (λ p. test p.0 ≡ true) (entries (after rule keys offers)) }
    ensures count { (rule : Rule) (keys : KeyMap) (offers : List Tuple) →
        length (entries keys) ≤ length (entries (after rule keys offers)) }
{}

/// A set that is cut in two at a key is asked part by part: what is offered below the key, then what is offered from it on.
pub fn parts_are_judged_apart()
    ensures judged { (rule : Rule) (keys low high : KeyMap) (cut : ℕ) (before behind : List Tuple) →
        AreParts cut keys low high →
        AllByRecursion (λ offer. offer.key < cut) before → AllByRecursion (λ offer. cut ≤ offer.key) behind →
        judgements rule keys (before ++ behind) ≡ judgements rule low before ++ judgements rule high behind }
    ensures after { (rule : Rule) (keys low high : KeyMap) (cut : ℕ) (before behind : List Tuple) →
        AreParts cut keys low high →
        AllByRecursion (λ offer. offer.key < cut) before → AllByRecursion (λ offer. cut ≤ offer.key) behind →
        entries (after rule keys (before ++ behind)) ≡ entries (after rule low before)
        ++ entries (after rule high behind) }
    // The results are parts again.
    ensures parts { (rule : Rule) (keys low high : KeyMap) (cut : ℕ) (before behind : List Tuple) →
        AreParts cut keys low high →
        AllByRecursion (λ offer. offer.key < cut) before → AllByRecursion (λ offer. cut ≤ offer.key) behind →
        AreParts cut (after rule keys (before ++ behind)) (after rule low before) (after rule high behind) }
{}

/// Buckets lie in the order of their keys.
pub fn buckets_follow_the_keys()
    // The keys of the buckets below bucket b are those below b times the width of a bucket.
    ensures border { (buckets b key : ℕ) → IsBucketCount buckets →
        (bucket_of buckets key < b) ↔ (key < b * (2 ^ 64 / buckets)) }
    // A key of a later bucket is above each key of an earlier one.
    ensures rising { (buckets j k : ℕ) → bucket_of buckets j < bucket_of buckets k → j < k }
{}

/// Equal keys share a bucket, so a judged offer's verdict is what its bucket's list alone would give: of the judged offers
/// those of a bucket are the first of its list, and they were judged as those.
pub fn buckets_are_judged_apart()
    ensures { (book : Book) (b : ℕ) → IsBook book → b < book.buckets →
        filter (λ p. nat_eq (bucket_of book.buckets p.0.key) b) (judgements book.rule book.base (judged_offers book))
        ≡ take (slice_index (judged_cut book) b - slice_index book.firsts b)
        (judgements book.rule book.base (slice_index_or book.lists b [])) }
{}

/// No key is judged Unique twice.
pub fn unique_keys_differ()
    ensures { (book : Book) → AllPairs (λ x y. x ≢ y) (map (λ p. p.1.key) (uniques book)) }
{}

/// A front of a front is a front, and what was judged of a front stays: verdicts, places and numbers.
pub fn fronts_stay()
    ensures same { (book : Book) → IsFront book book }
    ensures both { (x y z : Book) → IsFront x y → IsFront y z → IsFront x z }
    ensures judged { (x y : Book) → IsBook x → IsFront x y → IsPrefixOf (judged x) (judged y) }
    ensures uniques { (x y : Book) → IsBook x → IsFront x y → IsPrefixOf (uniques x) (uniques y) }
{}

/// A flush judges nothing: it makes one list longer.
pub fn a_flush_adds_offers()
    ensures front { (b : ℕ) (news : List Tuple) (book : Book) → IsFront book (flushed b news book) }
    ensures judged { (b : ℕ) (news : List Tuple) (book : Book) → IsBook book →
        judged (flushed b news book) ≡ judged book }
    ensures uniques { (b : ℕ) (news : List Tuple) (book : Book) → IsBook book →
        uniques (flushed b news book) ≡ uniques book }
    ensures book { (b : ℕ) (news : List Tuple) (book : Book) → IsBook book →
        AllByRecursion (λ offer. bucket_of book.buckets offer.key ≡ b) news → IsBook (flushed b news book) }
    ensures list { (b : ℕ) (news : List Tuple) (book : Book) → b < length book.lists →
        slice_index_or (flushed b news book).lists b [] ≡ slice_index_or book.lists b [] ++ news }
    ensures other_lists { (b : ℕ) (news : List Tuple) (book : Book) (c : ℕ) → c ≢ b →
        slice_index_or (flushed b news book).lists c [] ≡ slice_index_or book.lists c [] }
    ensures number { (b : ℕ) (news : List Tuple) (book : Book) → IsBook book → b < book.buckets →
        slice_index (lengths_of (flushed b news book)) b ≡ slice_index (lengths_of book) b + length news }
    ensures other_numbers { (b : ℕ) (news : List Tuple) (book : Book) (c : ℕ) → IsBook book → c ≢ b →
        slice_index (lengths_of (flushed b news book)) c ≡ slice_index (lengths_of book) c }
{}

/// A merge judges all that is pending, bucket 0 first, each bucket's offers by number.
pub fn a_merge_judges_the_pending()
    ensures front { (book : Book) → IsFront book (merged book) }
    ensures offers { (book : Book) → judged_offers (merged book) ≡ judged_offers book ++ pending book }
    ensures book { (book : Book) → IsBook book → judged_cut book ≢ lengths_of book → IsBook (merged book) }
    ensures judged { (book : Book) → judged (merged book) ≡ judged book ++ judged_next book }
    ensures uniques { (book : Book) →
        uniques (merged book) ≡ uniques book ++ uniques_from (gone book + length (judged book)) (judged_next book) }
    ensures after { (book : Book) → seen (merged book) ≡ after book.rule (seen book) (pending book) }
    ensures earlier { (n : ℕ) (book : Book) → n ≤ length book.cuts → with_cuts n (merged book) ≡ with_cuts n book }
    ensures cut { (book : Book) → judged_cut (merged book) ≡ lengths_of book }
    ensures lengths { (book : Book) → lengths_of (merged book) ≡ lengths_of book }
{}

/// The book as it was when it had fewer cuts is a book, and a front of what it became.
pub fn an_earlier_book()
    ensures book { (n : ℕ) (book : Book) → IsBook book → IsBook (with_cuts n book) }
    ensures front { (n : ℕ) (book : Book) → IsFront (with_cuts n book) book }
    ensures all { (n : ℕ) (book : Book) → length book.cuts ≤ n → with_cuts n book ≡ book }
{}

/// The numbers of a cut say how many offers were judged up to it.
pub fn a_cut_counts_the_judged()
    ensures { (book : Book) → IsBook book → gone book + length (judged book) ≡ sum (judged_cut book) }
{}

/// A book that has dropped nothing is the one of its lists and its cuts, of which the plain programs tell.
pub fn a_book_that_dropped_nothing_is_whole()
    ensures { (book : Book) → IsBook book → book.dropped ≡ 0 →
        whole_book book.buckets book.rule book.lists book.cuts ≡ book }
{}
