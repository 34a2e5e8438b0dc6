ghost use Rattle.std.specs.Prelude.{◌≡◌, ◌<◌, ◌^◌, ℕ, true, Ok, Some};
ghost use Rattle.irl_record.specs.declared.record.Record.TheVariants.{Page};
ghost use Rattle.irl_record.specs.Reading.{tape_of};
ghost use Rattle.irl_record.specs.Site.{page_reply, page_url, site_tape, site_text};
ghost use Rattle.irl_record.specs.Taped.{record_at};

/// The text of a site of fewer than 536,870,912 pages is a tape, and this one.
pub fn a_site_is_a_tape()
    ensures tape { (pages : ℕ) → pages < 2 ^ 29 → tape_of true (site_text pages) ≡ Ok (site_tape pages) }
    // It has each page's reply.
    ensures reply { (pages i : ℕ) → pages < 2 ^ 29 → i < pages →
        record_at (site_tape pages).records (page_url i) ≡ Some (Page (page_reply pages i)) }
{}
