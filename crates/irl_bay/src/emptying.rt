ghost use Rattle.std.specs.Prelude.{◌≡◌, ◌-◌, ◌<◌, ◌≤◌, ℕ, [], vec_capacity, IfOk, OnOk, IsErr};
ghost use Rattle.std.specs.Option.{ForSome};
ghost use Rattle.irl_disk.specs.Disk.{ChangesOnly};
ghost use Rattle.irl_disk.specs.Effects.{OnlyChanges};
ghost use Rattle.irl_layout.specs.BayFiles.{IsSideFile};
ghost use Rattle.irl_layout.specs.Commits.{live_side};
ghost use Rattle.irl_bay.specs.Drum.{durable_at};
ghost use Rattle.irl_bay.specs.Holding.{HoldsBucket};
ghost use Rattle.irl_bay.specs.Merging.{AreEmpty, emptied, emptied_from};

use crate::bay::Bay;
use crate::bucket::Bucket;
use irl_disk::{Failed, Store};
use irl_layout::BayFile;

impl Bay {
    /// Empties the buckets' files on the side that isn't live: cuts each to nothing, and writes the closed gates of
    /// their journals and syncs them. Gives the buckets over these files, all of whose offers are judged, in a list
    /// that has room for them.
    pub(crate) fn empty_side<S: Store>(
        &self,
        store: &mut S,
        room: Vec<Bucket>,
    ) -> Result<Vec<Bucket>, Failed>
        requires none { room.items ≡ [] }
        requires room { self.now.settings.buckets ≤ vec_capacity room }
        ensures buckets { IfOk result (λ buckets. buckets.items ≡
            emptied_from self.now.base (1 - live_side self.now.last) 0 self.now.buckets) }
        // From then on each stop leaves them without an offer,
        ensures holds { OnOk result ((array b : ℕ) → b < self.now.settings.buckets →
            HoldsBucket (S.told store.new).images array 0
            (emptied self.now.base (1 - live_side self.now.last) b (durable_at self.now b)) []) }
        // and what is told has a byte of each journal, and no text.
        ensures empty { OnOk result (ForSome (S.told store.new).files
            (AreEmpty self.now.base (1 - live_side self.now.last) self.now.settings.buckets)) }
        ensures others { OnlyChanges
            (ChangesOnly (IsSideFile self.now.base (1 - live_side self.now.last) self.now.settings.buckets))
            (IsErr result) (S.told store.old) (S.told store.new) }
    {
        let side = 1 - self.last.live_side();
        self.cut_side(store, side)?;
        let mut buckets = room;
        for b in 0..self.settings.buckets {
            let durable = self.buckets[b as usize].durable;
            buckets.push_reserved(Bucket::make(store, self.base, side, b, durable)?);
        }
        Ok(buckets)
    }

    // Cuts the buckets' files on a side to nothing.
    fn cut_side<S: Store>(&self, store: &mut S, side: u8) -> Result<(), Failed>
        requires { side ≤ 1 }
        ensures cut { OnOk result (ForSome (S.told store.new).files (λ files. (f : ℕ) →
            IsSideFile self.now.base side self.now.settings.buckets f → files f ≡ [])) }
        ensures others { OnlyChanges (ChangesOnly (IsSideFile self.now.base side self.now.settings.buckets))
            (IsErr result) (S.told store.old) (S.told store.new) }
    {
        for b in 0..self.settings.buckets {
            store.cut(BayFile::Journal(side, b).number(self.base), 0)?;
            store.cut(BayFile::Aux(side, b).number(self.base), 0)?;
        }
        Ok(())
    }
}
