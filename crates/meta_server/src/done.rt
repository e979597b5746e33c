ghost use Rattle.std.specs.Prelude.{◌≡◌, ◌<◌, None, length, IfOk, OnErr, OnOk};
ghost use Rattle.composite_layout.specs.LookUps.{mirror_ids};
ghost use Rattle.layout_lease.specs.declared.lease.KeyState.TheVariants.{Held};
ghost use Rattle.layout_lease.specs.Leases.{state_of};
ghost use Rattle.layout_state.specs.Mirroring.{excess};
ghost use Rattle.meta_server.specs.Conditions.{HasGenerationRoom, MayMerge};
ghost use Rattle.meta_server.specs.Ending.{both_given, copy_ends, copy_ends_file, merge_ends, merge_ends_files};
ghost use Rattle.meta_server.specs.Files.{changed, file_at, file_of, with_layout, without_file};
ghost use Rattle.meta_server.specs.Layouts.{merged, merged_ids};
ghost use Rattle.meta_server.specs.Outcomes.{Completes, TakesIn};

use crate::answers::{DoneStop, MergeStop};
use crate::meta::Meta;
use crate::shapes::take_in;
use flr_base::{Ids, NoMemory};
use layout_lease::{KeyState, LeaseKey};

impl Meta {
    /// Ends the copy under this key: the components with these ids lose `stale`, and the lease ends.
    ///
    /// `Broken` comes exactly where the lease was broken, and tells by which step; the key is given
    /// up. Else the lowest other client that shares the layout lock blocks it.
    pub fn copy_done(&mut self, key: LeaseKey, cleared: &Ids) -> Result<(), DoneStop>
        requires generations { HasGenerationRoom self.old }
        ensures done { Completes (copy_ends key cleared.now self.old) key self.old result self.new }
    {
        match self.leases.state(&key) {
            KeyState::Held => self.finish_copy(key, cleared),
            KeyState::Broken { step } => {
                self.leases.give(key);
                Err(DoneStop::Broken { step })
            }
        }
    }

    /// Ends the copy under this key, whose lease stands.
    fn finish_copy(&mut self, key: LeaseKey, cleared: &Ids) -> Result<(), DoneStop>
        requires generations { HasGenerationRoom self.old }
        ensures done { Completes (copy_ends_file key cleared.now self.old (file_of key.file self.old.files)) key self.old result self.new }
    {
        let Some(place) = self.files.numbered(key.file()) else {
            self.leases.give(key);
            return Err(DoneStop::Broken { step: 0 });
        };
        if let Some(holder) = self.files.free_but(place, key.client()) {
            return Err(DoneStop::Blocked { key, holder });
        }
        self.files.finish(place, cleared);
        self.leases.give(key);
        Ok(())
    }

    /// Ends the comparing under these keys: the mirrors of the second key's file come to the first's,
    /// that file and its name go, and both leases end. Answers the new ids of the mirrors.
    ///
    /// `Broken` comes exactly where a lease was broken, and tells by which step, that of the first
    /// key before the other; both keys are given up. Else the lowest other client that shares the
    /// layout lock of the first file, or else of the second, blocks it.
    pub fn merge_done(&mut self, ours: LeaseKey, theirs: LeaseKey) -> Result<Ids, MergeStop>
        requires keys { MayMerge ours theirs self.old }
        requires generations { HasGenerationRoom self.old }
        ensures done { TakesIn (merge_ends ours theirs self.old) ours theirs self.old result self.new }
    {
        let ours_state = self.leases.state(&ours);
        let theirs_state = self.leases.state(&theirs);
        if let KeyState::Broken { step } = ours_state {
            self.give_both(ours, theirs);
            return Err(MergeStop::Broken { step });
        }
        if let KeyState::Broken { step } = theirs_state {
            self.give_both(ours, theirs);
            return Err(MergeStop::Broken { step });
        }
        self.finish_merge(ours, theirs)
    }

    /// Gives both keys back.
    fn give_both(&mut self, ours: LeaseKey, theirs: LeaseKey)
        ensures given { self.new ≡ both_given ours theirs self.old }
    {
        self.leases.give(ours);
        self.leases.give(theirs);
    }

    /// Ends the comparing under these keys, whose leases stand.
    fn finish_merge(&mut self, ours: LeaseKey, theirs: LeaseKey) -> Result<Ids, MergeStop>
        requires held { state_of self.old.leases ours ≡ Held }
        requires theirs_held { state_of self.old.leases theirs ≡ Held }
        requires keys { MayMerge ours theirs self.old }
        requires generations { HasGenerationRoom self.old }
        ensures done { TakesIn (merge_ends_files ours theirs self.old (file_of ours.file self.old.files) (file_of theirs.file self.old.files)) ours theirs self.old result self.new }
    {
        let Some(place) = self.files.numbered(ours.file()) else {
            self.give_both(ours, theirs);
            return Err(MergeStop::Broken { step: 0 });
        };
        let Some(other) = self.files.numbered(theirs.file()) else {
            self.give_both(ours, theirs);
            return Err(MergeStop::Broken { step: 0 });
        };
        if let Some(holder) = self.files.free_but(place, ours.client()) {
            return Err(MergeStop::Blocked {
                ours,
                theirs,
                holder,
            });
        }
        if let Some(holder) = self.files.free_but(other, ours.client()) {
            return Err(MergeStop::Blocked {
                ours,
                theirs,
                holder,
            });
        }
        match self.take_in(place, other) {
            Ok(ids) => {
                self.give_both(ours, theirs);
                Ok(ids)
            }
            Err(_) => Err(MergeStop::NoMemory { ours, theirs }),
        }
    }

    /// The mirrors of the file at the second place come to the one at the first, and that file goes.
    fn take_in(&mut self, place: usize, other: usize) -> Result<Ids, NoMemory>
        requires place { place < length self.old.files }
        requires other { other < length self.old.files }
        requires generations { HasGenerationRoom self.old }
        requires within { let f = file_at self.old.files place in let v = file_at self.old.files other in
            excess f.layout (length (mirror_ids v.layout.components)) (length v.layout.components) self.old.most ≡ None }
        ensures ids { IfOk result (λ ids. ids ≡ merged_ids (file_at self.old.files other).layout (file_at self.old.files place).layout) }
        ensures taken { let f = file_at self.old.files place in let v = file_at self.old.files other in
            OnOk result (self.new ≡ record self.old { files = without_file v.number (changed f.number (with_layout (merged v.layout f.layout)) self.old.files) }) }
        ensures unchanged { OnErr result (self.new ≡ self.old) }
    {
        let victim = self.files.layout(other).copy()?;
        let mut layout = self.files.layout(place).copy()?;
        let ids = take_in(&mut layout, victim, self.most)?;
        self.files.put_layout(place, layout);
        self.files.remove(other);
        Ok(ids)
    }
}
