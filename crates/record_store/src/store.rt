// The store.
ghost use Rattle.std.specs.Prelude.{◌≡◌, ◌↔◌, ◌⊎◌, ℕ, ◌+◌, ◌-◌, ◌*◌, ◌<◌, ◌≤◌, List, Bool, true, false, length, IsOk, OnOk, OnErr, IfOk, IfErr};
ghost use Rattle.std.specs.FinMap.{len};
ghost use Rattle.base_model.specs.Flash.{LosesOnlyByChange, StaysPowered, raised, next_count};
ghost use Rattle.base_model.specs.Layout.{room_of, reach_of};
ghost use Rattle.flash_model.specs.Layouts.{layout_of};
ghost use Rattle.record_model.specs.Records.{second_copies, parts_of};
ghost use Rattle.record_model.specs.RecordMap.{Write, Clear, Read, IsNextAbove};
ghost use Rattle.record_slots.specs.Slots.{Fits};
ghost use Rattle.record_slots.specs.Answers.{IsOneFault};
ghost use Rattle.record_slots.specs.Recovered.{KillsBelow};
ghost use Rattle.record_store.specs.Store.{Idle, Clearing, stored, free_in, slots_for, map_after, IsBusy, IsSettled, IsReady, IsOpened, IsFlashOf, StandsIn, PlacedAfter, DividesAlike, KeepsMap, KeepsOrMakes, KeepsRecordsOf, abandoned, doubted, restarted, Writing};
ghost use Rattle.record_store.specs.Finish.{IsUnfinished, IsFinished};
ghost use Rattle.record_store.specs.Answers.{HasFaultsOf, EndsAtFault, StartsWrite, StartsClear, IsStep, HasStepped, AnswersWrite, AnswersClear, AnswersRead, AnswersLength, FailsByFlash, RefusesFlash, ReadsExactly, AnswersByItself, TakesReads, copies_in, copies_pending};
ghost use Rattle.record_store.specs.Calls.{OnlyLooks, OnlyStarts, Changes};

use crate::errors::{StoreError, StoreRefused};
use crate::first_stage;
use crate::index::{next_id, place_of};
use crate::opening::open;
use crate::reading::read_record;
use crate::starting::{plan_write, put_front};
use crate::stepping::make_change;
use crate::work::Begun;
use flash_model::{Flash, FlashFailed, Geometry};
use record_slots::{Found, RecordId, ScanError, rescan};
use std::alloc::Global;
use std::marker::Model;

/// A record store on a flash.
#[derive(Drop)]
pub struct Store<F: Flash> {
    flash: F,
    geometry: Geometry,
    // The identifiers with the places of their records, and the free slots.
    found: Found,
    // As long as a record can be: it holds the one that is written or was read.
    buffer: Vec<u8>,
    in_doubt: bool,
    work: Begun,
}

impl<F: Flash> Model for Store<F> {
    ghost use Rattle.flash_model.specs.Layouts.{layout_of};
    ghost use Rattle.record_store.specs.Store.{StoreView};
    ghost use Rattle.record_store.specs.Kept.{IsStore, view_of, pending_of};

    ghost Value = { StoreView };

    ghost view = { λ store. view_of store.geometry (F.state store.flash) store.in_doubt
        (pending_of (layout_of store.geometry) store.buffer.items store.work) };

    ghost invariant = { λ store. IsStore F.tells store.geometry (F.state store.flash) store.found store.buffer.items store.in_doubt store.work };
}

impl<F: Flash> Store<F> {
    /// Opens the store of a flash, by one look at the head and the tail mark of each slot, and kills every upright slot that
    /// is not the first slot of its identifier's record, by one change each: second copies, which power lost in a
    /// replacement left, and records that are not whole. It takes all the memory that it will have. A flash of another size
    /// or sector size, one that failed, or one for which there was no memory is handed back.
    pub fn attach(alloc: Global, flash: F, geometry: Geometry) -> Result<Store<F>, StoreRefused<F>>
        ensures opened { IfOk result (IsOpened geometry) }
        ensures fits { IsOk result → Fits geometry (F.state flash) }
        ensures flash { IfOk result (λ store. IsFlashOf (F.state flash) store.flash) }
        ensures settled { IfOk result (λ store. F.tells → IsSettled store) }
        ensures reads { IfOk result (λ store. store.flash.reads ≡ raised (2 * geometry.slots) (F.state flash).reads) }

        // One change for each slot that is killed, and no more where it fails.
        ensures steps { IfOk result (λ store. F.tells → store.flash.steps
            ≡ (F.state flash).steps + second_copies geometry.slot_size geometry.slots (F.state flash).told.image) }
        ensures at_most { IfErr result (λ refused. F.tells → (F.state refused.flash).steps
            ≤ (F.state flash).steps + second_copies geometry.slot_size geometry.slots (F.state flash).told.image) }

        // Each is of one byte, in a slot of its own.
        ensures order { IfOk result (λ store. F.tells
            → KillsBelow geometry.slot_size (F.state flash).told geometry.slots store.flash.told) }

        // Power lost at any step on the way leaves the records of the flash.
        ensures kept { IfOk result (λ store. F.tells → KeepsRecordsOf geometry (F.state flash) store.flash) }

        ensures refused { IfErr result (λ refused. RefusesFlash geometry (F.state flash)
            (F.state refused.flash) refused.why) }
        ensures back { IfErr result (λ refused. F.tells → KeepsRecordsOf geometry (F.state flash)
            (F.state refused.flash)) }
        ensures power { IfOk result (λ store. LosesOnlyByChange (F.state flash) store.flash) }
        ensures power_back { IfErr result (λ refused. LosesOnlyByChange (F.state flash) (F.state refused.flash)) }
        ensures lit { IfOk result (λ store. StaysPowered (F.state flash) store.flash) }
        ensures lit_back { IfErr result (λ refused. StaysPowered (F.state flash) (F.state refused.flash)) }
        ensures once { IfErr result (λ refused. IsOneFault (F.state flash) (F.state refused.flash) refused.why) }
    {
        let size = flash.size();
        let sector = u64::from(flash.sector_size());
        if size != geometry.size() || sector != geometry.sector() {
            let why = ScanError::Size {
                found: size,
                sector,
            };
            return Err(StoreRefused { why, flash });
        }
        let mut flash = flash;
        match open(alloc, &mut flash, &geometry) {
            Ok((found, buffer)) => Ok(Store {
                flash,
                geometry,
                found,
                buffer,
                in_doubt: false,
                work: Begun::Nothing,
            }),
            Err(why) => Err(StoreRefused { why, flash }),
        }
    }

    /// Starts the write of a record of 128 bytes up to the geometry's reach, and makes no change of the map. The bytes are
    /// copied. A store in doubt first looks at its slots again.
    ///
    /// `NoSpace`: fewer slots are free than the record has parts, or as many and the identifier is new. `LastGeneration`:
    /// the record that it would take the place of has the last generation.
    pub fn start_write(&mut self, id: RecordId, bytes: &[u8]) -> Result<(), StoreError>
        requires idle { self.old.pending ≡ Idle }
        requires least { 128 ≤ length bytes.now }
        requires reach { length bytes.now ≤ reach_of (room_of self.old.layout) }
        ensures answer { F.tells → StartsWrite self.old self.new id bytes.now result }
        ensures pending { OnOk result ((slots : List ℕ) × ((replaces : Bool) × (self.new.pending ≡ Writing id bytes.now slots replaces 0))) }

        // The slots are known before: those that are free once a store in doubt has looked at them.
        ensures slots { OnOk result (F.tells
            → slots_for self.new (length bytes.now) ≡ slots_for self.old (length bytes.now)) }

        // It looks at each slot that the record will be written into.
        ensures still { self.old.in_doubt ≡ false → ReadsExactly F.tells (λ _. 2 * parts_of (room_of self.old.layout)
            (length bytes.now)) self.old self.new result }
        ensures reads { TakesReads (λ _. raised (2 * parts_of (room_of self.old.layout) (length bytes.now))) self.old
            self.new result }
        ensures leaves { OnlyStarts F.tells self.old self.new result }
    {
        self.settle()?;
        self.begin_write(id, bytes)
    }

    /// Starts the clearing of an identifier, and makes no change of the map. A store in doubt first looks at its slots
    /// again.
    pub fn start_clear(&mut self, id: RecordId) -> Result<(), StoreError>
        requires idle { self.old.pending ≡ Idle }
        ensures answer { F.tells → StartsClear self.old self.new id result }
        ensures pending { OnOk result (self.new.pending ≡ Clearing id) }
        ensures still { self.old.in_doubt ≡ false → AnswersByItself (self.new.flash ≡ self.old.flash) self.old self.new result }
        ensures reads { TakesReads (λ _ reads. reads) self.old self.new result }
        ensures leaves { OnlyStarts F.tells self.old self.new result }
    {
        self.settle()?;
        let Some(place) = place_of(&self.found, id) else {
            return Err(StoreError::NotFound);
        };
        self.work = Begun::Clear { id, place };
        Ok(())
    }

    /// Makes the next change of what is pending, and answers whether it was the last. It reads nothing of the flash.
    pub fn step(&mut self) -> Result<bool, StoreError>
        requires busy { IsBusy self.old.pending }
        ensures answer { F.tells → IsStep self.old self.new result }
        ensures stepped { HasStepped self.old self.new result }
        ensures placed { OnOk result (F.tells
            → PlacedAfter self.old.layout self.old.pending self.new.flash.told.image) }

        // Power lost in the change leaves the records from before it or those after it.
        ensures crash { F.tells → KeepsOrMakes self.old self.new (map_after self.old.layout self.old.pending
            (stored self.old)) }

        ensures one { OnOk result (self.new.flash.steps ≡ self.old.flash.steps + 1) }
        ensures at_most { self.new.flash.steps ≤ self.old.flash.steps + 1 }
        ensures reads { self.new.flash.reads ≡ self.old.flash.reads }
        ensures error { FailsByFlash result }
        ensures equivalent { DividesAlike self.old self.new }
        ensures power { LosesOnlyByChange self.old.flash self.new.flash }
        ensures powered { OnOk result (self.new.flash.powered ≡ true) }
        ensures cause { HasFaultsOf self.old.flash.faults self.new.flash.faults result }
        ensures ends { EndsAtFault self.old.flash self.new.flash result }
    {
        let made = make_change(
            &mut self.flash,
            &self.geometry,
            &mut self.found,
            &self.buffer,
            &mut self.work,
        );
        match made {
            Ok(()) => Ok(self.work.is_nothing()),
            Err(FlashFailed) => {
                self.work = Begun::Nothing;
                self.in_doubt = true;
                Err(StoreError::Flash)
            }
        }
    }

    /// Stores a record of 128 bytes up to the geometry's reach under an identifier, in place of an older one. It is refused
    /// as its start is.
    pub fn write(&mut self, id: RecordId, bytes: &[u8]) -> Result<(), StoreError>
        requires idle { self.old.pending ≡ Idle }
        requires least { 128 ≤ length bytes.now }
        requires reach { length bytes.now ≤ reach_of (room_of self.old.layout) }
        ensures answer { F.tells → AnswersWrite self.old self.new id bytes.now result }

        // The free slots of least number have the record.
        ensures placed { OnOk result (F.tells
            → StandsIn self.old.layout self.new.flash.told.image id (slots_for self.old (length bytes.now))) }

        // No step reads: what is read is what the start reads.
        ensures reads { TakesReads (λ _. raised (2 * parts_of (room_of self.old.layout) (length bytes.now))) self.old
            self.new result }
        ensures leaves { Changes F.tells self.old self.new (Write id bytes.now) result }
    {
        match self.start_write(id, bytes) {
            Ok(()) => self.finish(),
            Err(error) => Err(error),
        }
    }

    /// Clears an identifier: its record is gone from then on.
    pub fn clear(&mut self, id: RecordId) -> Result<(), StoreError>
        requires idle { self.old.pending ≡ Idle }
        ensures answer { F.tells → AnswersClear self.old self.new id result }
        ensures reads { TakesReads (λ _ reads. reads) self.old self.new result }
        ensures leaves { Changes F.tells self.old self.new (Clear id) result }
    {
        match self.start_clear(id) {
            Ok(()) => self.finish(),
            Err(error) => Err(error),
        }
    }

    /// Gives up what is pending. Where something was, the store is then in doubt.
    pub fn abandon(&mut self)
        ensures abandoned { self.new ≡ abandoned self.old }
        ensures copies { F.tells → self.old.in_doubt ≡ false
            → copies_in self.old ≡ copies_pending self.old.layout self.old.pending }
    {
        if !self.work.is_nothing() {
            self.work = Begun::Nothing;
            self.in_doubt = true;
        }
    }

    /// Reads a record to the start of `out`, and answers how many bytes it has. The other bytes of `out` stay, and after
    /// an error all of them do.
    ///
    /// `Empty`: no record is stored. `NotFound`: none of this identifier. `Small`: `out` is shorter than the record.
    pub fn read(&mut self, id: RecordId, out: &mut [u8]) -> Result<usize, StoreError>
        requires idle { self.old.pending ≡ Idle }
        ensures answer { F.tells → AnswersRead self.old id out.old out.new result }
        ensures least { IfOk result (λ size. 128 ≤ size) }
        ensures within { IfOk result (λ size. size ≤ length out.old) }
        ensures out { OnErr result (out.new ≡ out.old) }

        // One read for each part of the record.
        ensures still { self.old.in_doubt ≡ false
            → ReadsExactly F.tells (λ size. parts_of (room_of self.old.layout) size) self.old self.new result }
        ensures reads { TakesReads (λ size. raised (parts_of (room_of self.old.layout) size)) self.old self.new result }
        ensures leaves { OnlyLooks F.tells self.old self.new result }
    {
        self.settle()?;
        if self.found.ids.is_empty() {
            return Err(StoreError::Empty);
        }
        let Some(place) = place_of(&self.found, id) else {
            return Err(StoreError::NotFound);
        };
        let size = place.len as usize;
        if out.len() < size {
            return Err(StoreError::Small {
                need: u64::from(place.len),
            });
        }
        match read_record(
            &mut self.flash,
            &self.geometry,
            place,
            &mut self.buffer,
            out,
        ) {
            Ok(()) => Ok(size),
            Err(FlashFailed) => {
                self.in_doubt = true;
                Err(StoreError::Flash)
            }
        }
    }

    /// How many identifiers are stored.
    pub fn count(&mut self) -> Result<u32, StoreError>
        requires idle { self.old.pending ≡ Idle }
        ensures answer { F.tells → IfOk result (λ n. n ≡ len (stored self.old)) }
        ensures few { IfOk result (λ n. n ≤ self.old.layout.slots) }
        ensures error { FailsByFlash result }
        ensures still { self.old.in_doubt ≡ false → AnswersByItself (self.new ≡ self.old) self.old self.new result }
        ensures reads { TakesReads (λ _ reads. reads) self.old self.new result }
        ensures leaves { OnlyLooks F.tells self.old self.new result }
    {
        self.settle()?;
        Ok(self.found.ids.len() as u32)
    }

    /// The least stored identifier.
    pub fn first(&mut self) -> Result<Option<RecordId>, StoreError>
        requires idle { self.old.pending ≡ Idle }
        ensures answer { F.tells → IfOk result (IsNextAbove 0 (stored self.old)) }
        ensures error { FailsByFlash result }
        ensures still { self.old.in_doubt ≡ false → AnswersByItself (self.new ≡ self.old) self.old self.new result }
        ensures reads { TakesReads (λ _ reads. reads) self.old self.new result }
        ensures leaves { OnlyLooks F.tells self.old self.new result }
    {
        self.next(0)
    }

    /// The least stored identifier above a cursor.
    pub fn next(&mut self, cursor: u64) -> Result<Option<RecordId>, StoreError>
        requires idle { self.old.pending ≡ Idle }
        ensures answer { F.tells → IfOk result (IsNextAbove cursor (stored self.old)) }
        ensures error { FailsByFlash result }
        ensures still { self.old.in_doubt ≡ false → AnswersByItself (self.new ≡ self.old) self.old self.new result }
        ensures reads { TakesReads (λ _ reads. reads) self.old self.new result }
        ensures leaves { OnlyLooks F.tells self.old self.new result }
    {
        self.settle()?;
        Ok(next_id(&self.found, cursor))
    }

    /// How many bytes the record of an identifier has.
    pub fn length(&mut self, id: RecordId) -> Result<u32, StoreError>
        requires idle { self.old.pending ≡ Idle }
        ensures answer { F.tells → AnswersLength self.old id result }
        ensures still { self.old.in_doubt ≡ false → AnswersByItself (self.new ≡ self.old) self.old self.new result }
        ensures reads { TakesReads (λ _ reads. reads) self.old self.new result }
        ensures leaves { OnlyLooks F.tells self.old self.new result }
    {
        self.settle()?;
        let Some(place) = place_of(&self.found, id) else {
            return Err(StoreError::NotFound);
        };
        Ok(place.len)
    }

    /// Gives up what is pending and looks at the slots again, as an opening does.
    pub fn remount(&mut self) -> Result<(), StoreError>
        ensures error { FailsByFlash result }
        ensures settled { OnOk result (F.tells → IsSettled self.new) }
        ensures reads { OnOk result (self.new.flash.reads ≡ raised (2 * self.old.layout.slots) self.old.flash.reads) }
        ensures powered { OnOk result (self.new.flash.powered ≡ true) }
        ensures lit { StaysPowered self.old.flash self.new.flash }

        // It leaves what a call that looks leaves of a store in doubt.
        ensures leaves { OnlyLooks F.tells (doubted self.old) self.new result }
    {
        self.work = Begun::Nothing;
        self.in_doubt = true;
        self.settle()?;
        Ok(())
    }

    /// Ends a loss of power, and remounts.
    pub fn power(&mut self) -> Result<(), StoreError>
        ensures error { FailsByFlash result }
        ensures settled { OnOk result (F.tells → IsSettled self.new) }
        ensures reads { OnOk result (self.new.flash.reads ≡ raised (2 * self.old.layout.slots) self.old.flash.reads) }

        // Power is back, unless a change on the way lost it again.
        ensures powered { OnOk result (self.new.flash.powered ≡ true) }
        ensures back { (self.new.flash.powered ≡ true) ⊎ (self.old.flash.steps < self.new.flash.steps) }

        // It comes back first, by one restart: no call of the remount finds the flash without power.
        ensures lit { self.new.flash.unpowered ≡ self.old.flash.unpowered }
        ensures once { self.new.flash.restarts ≡ next_count self.old.flash.restarts }

        ensures leaves { OnlyLooks F.tells (restarted self.old) self.new result }
    {
        self.flash.restart();
        self.remount()?;
        Ok(())
    }

    /// The flash.
    pub fn flash(&self) -> &F
        ensures { F.state result.now ≡ self.now.flash }
    {
        &self.flash
    }

    /// How the store divides its flash: the geometry that it was opened with.
    pub fn geometry(&self) -> &Geometry
        ensures { layout_of result.now ≡ self.now.layout }
    {
        &self.geometry
    }

    /// The flash, for good.
    pub fn into_flash(self) -> F
        ensures { F.state result ≡ self.flash }
    {
        let Store {
            flash,
            geometry: _,
            found: _,
            buffer: _,
            in_doubt: _,
            work: _,
        } = self;
        flash
    }

    // Looks at the slots again where the store is in doubt, and kills the upright ones that are no record's first.
    fn settle(&mut self) -> Result<(), StoreError>
        requires idle { self.old.pending ≡ Idle }
        ensures error { FailsByFlash result }
        ensures still { self.old.in_doubt ≡ false → AnswersByItself (self.new ≡ self.old) self.old self.new result }
        ensures settled { OnOk result (F.tells → IsSettled self.new) }
        ensures looked { self.old.in_doubt ≡ true → OnOk result
            ((self.new.flash.reads ≡ raised (2 * self.old.layout.slots) self.old.flash.reads) × (self.new.flash.powered ≡ true)) }
        ensures reads { TakesReads (λ _ reads. reads) self.old self.new result }
        ensures free { OnOk result (F.tells → free_in self.new ≡ free_in self.old) }
        ensures leaves { OnlyLooks F.tells self.old self.new result }
    {
        if !self.in_doubt {
            return Ok(());
        }
        match rescan(&mut self.found, &mut self.flash, &self.geometry) {
            Ok(()) => {
                self.in_doubt = false;
                Ok(())
            }
            Err(_) => Err(StoreError::Flash),
        }
    }

    // Starts the write of a record in a store that is not in doubt.
    fn begin_write(&mut self, id: RecordId, bytes: &[u8]) -> Result<(), StoreError>
        requires ready { IsReady self.old }
        requires least { 128 ≤ length bytes.now }
        requires reach { length bytes.now ≤ reach_of (room_of self.old.layout) }
        ensures answer { F.tells → StartsWrite self.old self.new id bytes.now result }
        ensures pending { OnOk result ((slots : List ℕ) × ((replaces : Bool) × (self.new.pending ≡ Writing id bytes.now slots replaces 0))) }
        ensures free { OnOk result (F.tells → free_in self.new ≡ free_in self.old) }
        ensures still { ReadsExactly F.tells (λ _. 2 * parts_of (room_of self.old.layout)
            (length bytes.now)) self.old self.new result }
        ensures leaves { OnlyStarts F.tells self.old self.new result }
    {
        let planned = plan_write(
            &mut self.flash,
            &self.geometry,
            &self.found,
            id,
            bytes.len() as u32,
        );
        match planned {
            Ok((draft, replaced)) => {
                put_front(&mut self.buffer, bytes);
                let stage = first_stage(&draft);
                self.work = Begun::Write {
                    draft,
                    stage,
                    replaced,
                };
                Ok(())
            }
            Err(error) => {
                self.in_doubt = error.is_flash();
                Err(error)
            }
        }
    }

    // Makes all changes of what is pending.
    fn finish(&mut self) -> Result<(), StoreError>
        requires unfinished { IsUnfinished self.old.layout self.old.pending }
        ensures { IsFinished F.tells self.old self.new result }
    {
        while !self.step()? {}
        Ok(())
    }
}
