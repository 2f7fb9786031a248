// The machine.
ghost use Rattle.std.specs.Prelude.{◌≡◌, ◌⊎◌, ℕ, ◌+◌, ◌-◌, ◌*◌, ◌/◌, ◌<◌, ◌≤◌, ◌^◌, List, [], ◌∷◌, ◌++◌, length, IsOk, IfOk, IfErr, OnOk, OnErr, IfSome, Some, None, Ok, Err, MatchOption, MatchResult};
ghost use Rattle.base_model.specs.Bytes.{part, joined};
ghost use Rattle.std.specs.FinMap.{len};
ghost use Rattle.base_model.specs.Flash.{FlashState, LosesOnlyByChange, StaysPowered, raised, next_count};
ghost use Rattle.record_model.specs.Records.{second_copies};
ghost use Rattle.flash_model.specs.Layouts.{Fits};
ghost use Rattle.record_store.specs.Store.{IsReady, IsFlashOf, IsSettled, KeepsRecordsOf};
ghost use Rattle.record_slots.specs.Answers.{IsOneFault};
ghost use Rattle.record_store.specs.Answers.{RefusesFlash};
ghost use Rattle.apei_tables.specs.Access.{bits};
ghost use Rattle.erst_device.specs.DeviceState.{at_first, records};
ghost use Rattle.ghes_block.specs.Grammar.{IsBlock};
ghost use Rattle.erst_entries.specs.Layout.{spelling, FitsErst};
ghost use Rattle.erst_entries.specs.Tables.{IsErst};
ghost use Rattle.hest_sources.specs.declared.sources.HestSource.TheVariants.{Ghes as Generic};
ghost use Rattle.hest_sources.specs.Tables.{IsHest};
ghost use Rattle.ghes_block.specs.Table.{IsBert};
ghost use Rattle.ghes_block.specs.Region.{IsLaidOut, next_from};
ghost use Rattle.erst_machine.specs.Areas.{place_location, IsPlaced};
ghost use Rattle.erst_machine.specs.MachineState.{MachineState, IsMachine, reach_in, location_of};
ghost use Rattle.erst_machine.specs.OwnTables.{own_size, own_erst, own_source, own_hest, own_bert, own_bert_bytes};
ghost use Rattle.erst_machine.specs.Shown.{changes_of};
ghost use Rattle.erst_machine.specs.Boots.{RefusesBoot, IsBooted};
ghost use Rattle.erst_machine.specs.Events.{Warms, Powers, Submits, Turns, LaysFatal, fatal_refusal};

use crate::accesses::{copy_bytes, read_bytes, read_number, write_bytes, write_number};
use crate::areas::{BOOT_ERRORS_LEN, Location, place_location};
use crate::boot::begin;
use crate::contents::Contents;
use crate::errors::{BootError, BootRefused, FatalError};
use crate::tables;
use apei_bytes::OutOfMemory;
use apei_space::{Space, SpaceFault, address};
use apei_tables::{Place, Width};
use erst_device::Device;
use erst_entries::Action;
use flash_model::{Flash, Geometry};
use ghes_ack::{Event, Handover, Side, Station, SubmitError};
use ghes_block::{Block, BlockError};
use record_store::{ScanError, Store, StoreRefused};
use std::alloc::Global;
use std::marker::Model;

/// A machine: the device over a record store, memory, and the firmware's side of the handover. It may not be dropped:
/// `into_flash` spends it.
pub struct Machine<F: Flash> {
    device: Device<F>,
    contents: Contents,
    handover: Handover,
    /// The sum of all waits in microseconds, held at its last value.
    waited: u64,
}

impl<F: Flash> Model for Machine<F> {
    ghost use Rattle.erst_machine.specs.MachineState.{MachineState, IsMachine, state_of};

    ghost Value = { MachineState };

    ghost view = { λ m. state_of m.device m.contents m.handover m.waited };

    ghost invariant = { λ m. IsMachine (state_of m.device m.contents m.handover m.waited) };
}

impl<F: Flash> Machine<F> {
    /// Boots a machine over a flash: it takes all memory that it will have, opens the store of the flash, and begins the
    /// handover. A flash of another size or sector size, one that failed, or one for which there was no memory is handed back;
    /// its sizes are compared before anything is taken.
    pub fn boot(alloc: Global, flash: F, geometry: Geometry) -> Result<Machine<F>, BootRefused<F>>
        ensures booted { IfOk result (IsBooted geometry) }
        ensures fits { IsOk result → Fits geometry (F.state flash) }
        ensures flash { IfOk result (λ machine. IsFlashOf (F.state flash) machine.device.store.flash) }
        ensures settled { IfOk result (λ machine. F.tells → IsSettled machine.device.store) }
        ensures reads { IfOk result (λ machine. machine.device.store.flash.reads ≡ raised (2 * geometry.slots)
            (F.state flash).reads) }

        // One change for each upright slot that is not the first slot of its identifier's record, and no more where it fails.
        ensures steps { IfOk result (λ machine. F.tells → machine.device.store.flash.steps
            ≡ (F.state flash).steps + second_copies geometry.slot_size geometry.slots (F.state flash).told.image) }
        ensures at_most { IfErr result (λ refused. F.tells → (F.state refused.flash).steps
            ≤ (F.state flash).steps + second_copies geometry.slot_size geometry.slots (F.state flash).told.image) }

        // Power lost at any step on the way leaves the records of the flash.
        ensures kept { IfOk result (λ machine. F.tells
            → KeepsRecordsOf geometry (F.state flash) machine.device.store.flash) }

        ensures refused { IfErr result (λ refused. RefusesBoot geometry (F.state flash)
            (F.state refused.flash) refused.why) }
        ensures back { IfErr result (λ refused. F.tells → KeepsRecordsOf geometry (F.state flash)
            (F.state refused.flash)) }
        ensures power { IfOk result (λ machine. LosesOnlyByChange (F.state flash) machine.device.store.flash) }
        ensures power_back { IfErr result (λ refused. LosesOnlyByChange (F.state flash) (F.state refused.flash)) }

        // It restarts no flash, and no call behind the one that lost power finds the flash without it.
        ensures lit { IfOk result (λ machine. StaysPowered (F.state flash) machine.device.store.flash) }
        ensures lit_back { IfErr result (λ refused. StaysPowered (F.state flash) (F.state refused.flash)) }

        // The fault that is answered is the only one: nothing is asked of the flash behind it.
        ensures once { IfErr result (λ refused. refused.why ≡ BootError.Flash
            → (F.state refused.flash).faults ≡ next_count (F.state flash).faults) }
    {
        if let Some(why) = misfit(&flash, &geometry) {
            return Err(BootRefused { why, flash });
        }
        let Ok((contents, handover)) = begin(alloc, geometry.reach() as usize) else {
            let why = BootError::Memory;
            return Err(BootRefused { why, flash });
        };
        match Store::attach(alloc, flash, geometry) {
            Ok(store) => Ok(Machine {
                device: Device::new(store),
                contents,
                handover,
                waited: 0,
            }),
            Err(refused) => {
                handover.end();
                Err(refused_boot(refused))
            }
        }
    }

    /// The Error Record Serialization Table (ACPI 6.4, section 18.5.1).
    pub fn erst_table(&self, alloc: Global) -> Result<Vec<u8>, OutOfMemory>
        ensures bytes { IfOk result (λ bytes. bytes.items ≡ spelling own_erst) }
        ensures size { IfOk result (λ bytes. length bytes.items ≡ own_size) }
        ensures table { IfOk result (λ bytes. IsErst own_erst bytes.items) }
        ensures fits { OnOk result (FitsErst own_erst) }
    {
        tables::erst(alloc)
    }

    /// The Hardware Error Source Table (18.3.2): 132 bytes, one source, which is of type 10, checksum 0x1E.
    pub fn hest_table(&self, alloc: Global) -> Result<Vec<u8>, OutOfMemory>
        ensures bytes { IfOk result (λ bytes. bytes.items ≡ own_hest) }
        ensures size { IfOk result (λ bytes. length bytes.items ≡ 132) }
        ensures table { IfOk result (λ bytes. IsHest (Generic own_source ∷ []) bytes.items) }
    {
        tables::hest(alloc)
    }

    /// The Boot Error Record Table (18.3.1): 48 bytes, checksum 0x18.
    pub fn bert_table(&self, alloc: Global) -> Result<Vec<u8>, OutOfMemory>
        ensures bytes { IfOk result (λ bytes. bytes.items ≡ own_bert_bytes) }
        ensures size { IfOk result (λ bytes. length bytes.items ≡ 48) }
        ensures table { IfOk result (λ bytes. IsBert own_bert bytes.items) }
    {
        tables::bert(alloc)
    }

    /// How many bytes the longest record has, and so the log range.
    pub fn reach(&self) -> u32
        ensures value { result ≡ reach_in self.now.device }
        ensures machine { IsMachine self.now }
    {
        self.contents.range.len() as u32
    }

    /// The changes of the flash so far, as it tells them too.
    pub fn steps(&self) -> u64
        ensures value { result ≡ self.now.device.store.flash.steps }
        ensures told { F.tells → changes_of self.now ≡ result }
    {
        self.device.store().flash().steps()
    }

    /// What is true of every machine: it does nothing.
    pub fn stands(&self)
        ensures machine { IsMachine self.now }
        ensures counted { F.tells → changes_of self.now ≡ self.now.device.store.flash.steps }
    {
        let _ = self.device.store().flash();
    }

    /// Restarts the device and the handover, whose waiting and unread blocks are lost; memory stays. The store looks at its
    /// slots again, and the number of its records is answered. Where the flash fails, all else was done and the store is in
    /// doubt.
    pub fn warm(&mut self) -> Result<u32, BootError>
        ensures { Warms F.tells self.old result self.new }
    {
        let looked = self.device.reset();
        self.handover.restart(&mut self.contents.shared);
        match looked {
            Ok(()) => Ok(count_records(&mut self.device, &mut self.contents.range)),
            Err(_) => Err(BootError::Flash),
        }
    }

    /// Ends a loss of power, and does the same. The log range, the scratch memory, the ports and the boot error region are
    /// zeros then; the handover's memory keeps what its start does not write.
    pub fn power(&mut self) -> Result<u32, BootError>
        ensures { Powers F.tells self.old result self.new }
    {
        let looked = self.device.power();
        self.handover.restart(&mut self.contents.shared);
        self.contents.clear();
        match looked {
            Ok(()) => Ok(count_records(&mut self.device, &mut self.contents.range)),
            Err(_) => Err(BootError::Flash),
        }
    }

    /// Gives a block to the handover, and answers how many wait then.
    pub fn submit(&mut self, block: &[u8]) -> Result<u32, SubmitError>
        ensures { Submits self.old block.now result self.new }
    {
        self.handover.submit(block)
    }

    /// One turn of a side of the handover.
    pub fn turn(&mut self, side: Side) -> Event
        ensures { Turns side self.old result self.new }
    {
        self.handover.turn(side, &mut self.contents.shared)
    }

    /// The block that the reader took last, empty where it took none since the last start.
    pub fn taken(&self) -> &[u8]
        ensures { result.now ≡ self.now.handover.last }
    {
        self.handover.taken()
    }

    /// Puts a block behind the last one of the boot error region, and answers its place there.
    pub fn lay_fatal(&mut self, block: &[u8]) -> Result<u32, FatalError>
        ensures { LaysFatal self.old block.now result self.new }
    {
        self.contents.region_written = true;
        lay_block(&mut self.contents.region, block)
    }

    /// The block at a place of the boot error region and the place behind it, which is that of the next one; `None` where no
    /// block begins there. The first block is at 0.
    pub fn bert_at(&self, at: u32) -> Result<Option<(Block<'_>, u32)>, BlockError>
        requires { at ≤ BOOT_ERRORS_LEN }
        ensures exact { MatchResult result (λ found. MatchOption found (next_from self.now.memory.region at ≡ Ok None)
            (λ x. next_from self.now.memory.region at ≡ Ok (Some x.1)))
            (λ error. next_from self.now.memory.region at ≡ Err error) }
        ensures block { IfOk result (λ found. IfSome found
            (λ x. IsBlock x.0 (part self.now.memory.region at (x.1 - at)))) }
    {
        ghes_block::take(&self.contents.region, at)
    }

    /// The flash, for good.
    pub fn into_flash(self) -> F
        ensures { F.state result ≡ self.device.store.flash }
    {
        let Machine {
            device,
            contents: _,
            handover,
            waited: _,
        } = self;
        handover.end();
        device.into_store().into_flash()
    }

    /// Where `n` bytes stand.
    fn location(&self, at: Place, n: usize) -> Location
        requires { n < 2 ^ 63 }
        ensures value { result ≡ location_of self.now at n }
        ensures placed { IsPlaced (length self.now.memory.range) n result }
    {
        place_location(self.contents.range.len(), at, n)
    }
}

/// The refusal of a flash of another size or sector size.
fn misfit<F: Flash>(flash: &F, geometry: &Geometry) -> Option<BootError>
    ensures { MatchOption result (Fits geometry.now (F.state flash.now))
        (λ why. RefusesBoot geometry.now (F.state flash.now) (F.state flash.now) why) }
{
    let size = flash.size();
    let sector = u64::from(flash.sector_size());
    if size == geometry.size() && sector == geometry.sector() {
        None
    } else {
        Some(BootError::Size {
            found: size,
            sector,
        })
    }
}

/// The refusal of a store as that of a machine.
fn refused_boot<F: Flash>(refused: StoreRefused<F>) -> BootRefused<F>
    ensures flash { F.state result.flash ≡ F.state refused.flash }
    ensures why { (geometry : Geometry) (old : FlashState)
        → RefusesFlash geometry old (F.state refused.flash) refused.why
        → RefusesBoot geometry old (F.state result.flash) result.why }
    ensures once { (old : FlashState) → IsOneFault old (F.state refused.flash) refused.why
        → result.why ≡ BootError.Flash → (F.state result.flash).faults ≡ next_count old.faults }
{
    let StoreRefused { why, flash } = refused;
    let why = match why {
        ScanError::Size { found, sector } => BootError::Size { found, sector },
        ScanError::Flash => BootError::Flash,
        ScanError::Memory => BootError::Memory,
    };
    BootRefused { why, flash }
}

/// The longest fatal block.
const LONGEST_FATAL: usize = 4096;

/// Puts a block that is one, alone, behind the last one of a region.
fn lay_block(region: &mut [u8], block: &[u8]) -> Result<u32, FatalError>
    requires small { length region.old < 2 ^ 32 }
    requires laid { (blocks : List (List ℕ)) × (left : ℕ) × IsLaidOut blocks left region.old }
    ensures exact { (blocks : List (List ℕ)) (left : ℕ) → IsLaidOut blocks left region.old
        → MatchResult result (λ _. fatal_refusal left block.now ≡ None)
        (λ error. fatal_refusal left block.now ≡ Some error) }
    ensures laid { IfOk result (λ at. (blocks : List (List ℕ)) (left : ℕ) → IsLaidOut blocks left region.old
        → (at ≡ length (joined blocks)) × IsLaidOut (blocks ++ block.now ∷ []) (left - length block.now) region.new) }
    ensures kept { OnErr result (region.new ≡ region.old) }
    ensures stays { (blocks : List (List ℕ)) × (left : ℕ) × IsLaidOut blocks left region.new }
{
    let len = block.len();
    if len > LONGEST_FATAL {
        return Err(FatalError::Long { len: len as u64 });
    }
    match Block::decode(block) {
        Err(error) => return Err(FatalError::Malformed(error)),
        Ok((_, size)) => {
            if size < len {
                let bytes = (len - size) as u64;
                return Err(FatalError::Trailing { bytes });
            }
        }
    }
    match ghes_block::lay(region, block) {
        Ok(at) => Ok(at),
        Err(full) => Err(FatalError::Region { need: full.need }),
    }
}

/// How many records there are, while nothing is begun. All registers stay.
fn count_records<F: Flash>(device: &mut Device<F>, range: &mut [u8]) -> u32
    requires first { device.old ≡ at_first device.old.store }
    requires ready { IsReady device.old.store }
    requires range { length range.old ≡ reach_in device.old }
    ensures count { F.tells → result ≡ len (records device.old) }
    ensures same { device.new ≡ device.old }
    ensures range { range.new ≡ range.old }
{
    device.action(u32::from(Action::GetRecordCount.code()), range);
    let count = device.value();
    device.set_value(0);
    count.min(u64::from(u32::MAX)) as u32
}

fn bytes_of(width: Width) -> usize
    ensures value { result ≡ bits width / 8 }
    ensures few { result ≤ 8 }
{
    width.bytes()
}

impl<F: Flash> Space for Machine<F> {
    ghost use Rattle.erst_machine.specs.MachineState.{MachineState};
    ghost use Rattle.erst_machine.specs.Allowed.{Allows};
    ghost use Rattle.erst_machine.specs.Reasons.{reasons};

    ghost State = { MachineState };

    ghost state = { λ machine. machine };

    ghost allows = { Allows F.tells };

    ghost faults = { λ _. 0 };

    ghost reasons = { reasons F.tells };

    fn read(&mut self, at: Place, width: Width) -> Result<u64, SpaceFault> {
        let location = self.location(at, bytes_of(width));
        read_number(&self.device, &self.contents, location, address(at), width)
    }

    fn write(&mut self, at: Place, width: Width, value: u64) -> Result<(), SpaceFault> {
        let location = self.location(at, bytes_of(width));
        write_number(
            &mut self.device,
            &mut self.contents,
            location,
            address(at),
            width,
            value,
        )
    }

    fn wait(&mut self, micros: u64) {
        self.waited = self.waited.saturating_add(micros);
    }

    fn copy(&mut self, from: u64, to: u64, len: u32) -> Result<(), SpaceFault> {
        let n = len as usize;
        let source = self.location(Place::Memory(from), n);
        let target = self.location(Place::Memory(to), n);
        copy_bytes(&mut self.contents, source, target, from, to, n)
    }

    fn read_bytes(&mut self, at: u64, out: &mut [u8]) -> Result<(), SpaceFault> {
        let location = self.location(Place::Memory(at), out.len());
        read_bytes(&self.contents, location, at, out)
    }

    fn write_bytes(&mut self, at: u64, bytes: &[u8]) -> Result<(), SpaceFault> {
        let location = self.location(Place::Memory(at), bytes.len());
        write_bytes(&mut self.contents, location, at, bytes)
    }
}

impl<F: Flash> Station for Machine<F> {
    ghost use Rattle.std.specs.Prelude.{ℕ};
    ghost use Rattle.ghes_ack.specs.declared.events.Side.TheVariants.{Reader as OfReader};
    ghost use Rattle.ghes_ack.specs.Handovers.{StandsFor};
    ghost use Rattle.erst_machine.specs.Events.{Turns as IsTurn};
    ghost use Rattle.erst_machine.specs.Stations.{one_turn, whole, taken_last, unchanged, apart};

    ghost stands = { λ machine m. StandsFor machine.handover machine.memory.shared m };

    ghost changes = { λ machine. machine.device.store.flash.steps };

    ghost reads = { λ old event new. IsTurn OfReader old event new };

    ghost last = { λ machine. machine.handover.last };

    ghost one_turn = { one_turn };

    ghost whole = { whole };

    ghost taken_last = { taken_last };

    ghost unchanged = { unchanged };

    ghost apart = { apart F.tells };

    fn reader_turn(&mut self) -> Event {
        self.turn(Side::Reader)
    }

    fn taken(&self) -> &[u8] {
        self.handover.taken()
    }

    fn reader_idle(&self) -> bool {
        self.handover.reader_idle()
    }

    fn steps(&self) -> u64 {
        self.device.store().flash().steps()
    }
}
