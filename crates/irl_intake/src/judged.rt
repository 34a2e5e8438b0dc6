ghost use Rattle.std.specs.Prelude.{◌≡◌, ◌<◌, ◌-◌, min, take, drop, length, IfOk, IsErrOf};
ghost use Rattle.irl_base.specs.declared.fault.Fault.TheVariants.{Failed as FailedFault};
ghost use Rattle.irl_model.specs.Book.{Book, gone, judged as judged_of};
ghost use Rattle.irl_bay.specs.Drum.{HasNumbers};
ghost use Rattle.irl_bay.specs.Merges.{ReadsJudged};
ghost use Rattle.irl_yard.specs.Holding.{IsSound, StaysSound};
ghost use Rattle.irl_intake.specs.Advancing.{moment_of, IsStill};

use crate::intake::Intake;
use irl_bay::JudgedPart;
use irl_disk::Store;
use irl_offer::Fault;

impl<S: Store> Intake<S> {
    /// How many offers are judged.
    pub fn judged_len(&self) -> u64
        ensures value { result ≡ self.now.yard.parts.urls.last.judged }
        ensures book { (book : Book) → HasNumbers self.now.yard.parts.urls book → result ≡ length (judged_of book) }
    {
        self.yard.judged_len()
    }

    /// So many judged offers, or as many as there are, from the one with this place in the judged order on. It changes
    /// nothing; `Failed` ends the soundness.
    pub fn judged_from(&mut self, i: u64, most: u32) -> Result<JudgedPart, Fault>
        requires sound { IsSound self.old.yard.parts }
        requires place { i < self.old.yard.parts.urls.last.judged }
        ensures count { IfOk result (λ found. length found ≡ min most (self.old.yard.parts.urls.last.judged - i)) }
        // They are those of the book, which stays.
        ensures reads { ReadsJudged result (λ found book. found ≡ take most (drop (i - gone book) (judged_of book)))
            self.old.yard.parts.urls (S.told self.old.yard.store) (S.told self.new.yard.store) }
        ensures still { IsStill (moment_of self.old) (moment_of self.new) }
        ensures waiting { self.new.arrays ≡ self.old.arrays }
        ensures goes_on { StaysSound (IsErrOf result Fault.Failed) self.new.yard.parts }
    {
        let _is_sound = self.yard.is_sound();
        self.yard.judged_from(i, most)
    }
}
