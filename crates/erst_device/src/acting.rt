// The serialization actions, over the registers and the store.
ghost use Rattle.std.specs.Prelude.{◌≡◌, ℕ, ◌-◌, ◌^◌, Some, true, List, length};
ghost use Rattle.base_model.specs.Layout.{room_of, reach_of};
ghost use Rattle.erst_entries.specs.declared.actions.Action.{Action};
ghost use Rattle.erst_entries.specs.declared.actions.Action.TheVariants.{EndOperation, ExecuteOperation, GetRecordIdentifier, GetRecordCount};
ghost use Rattle.erst_device.specs.DeviceState.{given_up, KnowsCopies};
ghost use Rattle.erst_device.specs.Actions.{Acts, begun_by, gives_up};
ghost use Rattle.erst_device.specs.Registers.{seen, is_nothing, Runs};

use crate::device::LOG_RANGE;
use crate::registers::{Operation, Registers, Running};
use crate::status::CommandStatus;
use crate::timings::execution_timings;
use erst_entries::Action;
use flash_model::Flash;
use record_store::Store;

impl Registers {
    /// Carries out an action.
    pub fn act<F: Flash>(&mut self, store: &mut Store<F>, action: Action, range: &mut [u8])
        requires runs { Runs F.tells self.old.running self.old.offset store.old }
        requires room { length range.old ≡ reach_of (room_of store.old.layout) }
        ensures does { Acts F.tells (seen self.old store.old) range.old (Some action)
            (seen self.new store.new) range.new }
        ensures copies { F.tells → gives_up (Some action) ≡ true → KnowsCopies store.old }
        ensures runs { Runs F.tells self.new.running self.new.offset store.new }
    {
        match action {
            Action::BeginWriteOperation => self.begin(store, Operation::Write),
            Action::BeginReadOperation => self.begin(store, Operation::Read),
            Action::BeginClearOperation => self.begin(store, Operation::Clear),
            Action::BeginDummyWriteOperation => self.begin(store, Operation::Dummy),
            Action::EndOperation => self.end(store),
            Action::SetRecordOffset => {
                if self.is_still() {
                    self.offset = self.value;
                }
            }
            Action::SetRecordIdentifier => {
                if self.is_still() {
                    self.id = self.value;
                }
            }
            Action::ExecuteOperation => self.execute(store, range),
            Action::CheckBusyStatus => self.go_on(store, range),
            Action::GetRecordIdentifier => self.find_next(store),
            Action::GetRecordCount => self.count(store),
            Action::GetCommandStatus => self.value = self.status.number(),
            Action::GetErrorLogAddressRange => self.value = LOG_RANGE,
            Action::GetErrorLogAddressRangeLength => self.value = range.len() as u64,
            Action::GetErrorLogAddressRangeAttributes => self.value = 0,
            Action::GetExecuteOperationTimings => {
                self.value = execution_timings(store.geometry());
            }
        }
    }

    // Whether no execution runs.
    fn is_still(&self) -> bool
        ensures { result ≡ is_nothing self.now.running }
    {
        matches!(self.running, Running::Nothing)
    }

    /// Abandons the execution that runs.
    pub fn give_up<F: Flash>(&mut self, store: &mut Store<F>)
        ensures does { seen self.new store.new ≡ given_up (seen self.old store.old) }
        ensures copies { F.tells → KnowsCopies store.old }
        ensures runs { Runs F.tells self.new.running self.new.offset store.new }
    {
        store.abandon();
        self.running = Running::Nothing;
    }

    fn begin<F: Flash>(&mut self, store: &mut Store<F>, operation: Operation)
        ensures does { (action : Action) → begun_by action ≡ Some operation → (range : List ℕ)
            → Acts F.tells (seen self.old store.old) range (Some action) (seen self.new store.new) range }
        ensures copies { F.tells → KnowsCopies store.old }
        ensures runs { Runs F.tells self.new.running self.new.offset store.new }
    {
        self.give_up(store);
        self.operation = Some(operation);
        self.offset = 0;
        self.id = 0;
        self.status = CommandStatus::Success;
    }

    fn end<F: Flash>(&mut self, store: &mut Store<F>)
        ensures does { (range : List ℕ) → Acts F.tells (seen self.old store.old) range (Some EndOperation)
            (seen self.new store.new) range }
        ensures copies { F.tells → KnowsCopies store.old }
        ensures runs { Runs F.tells self.new.running self.new.offset store.new }
    {
        self.give_up(store);
        self.operation = None;
    }

    fn execute<F: Flash>(&mut self, store: &mut Store<F>, range: &[u8])
        requires runs { Runs F.tells self.old.running self.old.offset store.old }
        requires room { length range.now ≡ reach_of (room_of store.old.layout) }
        ensures does { Acts F.tells (seen self.old store.old) range.now (Some ExecuteOperation)
            (seen self.new store.new) range.now }
        ensures runs { Runs F.tells self.new.running self.new.offset store.new }
    {
        if !self.is_still() {
            return;
        }
        match self.start(store, range) {
            Ok(running) => {
                self.status = CommandStatus::Success;
                self.running = running;
            }
            Err(status) => self.status = status,
        }
    }

    fn find_next<F: Flash>(&mut self, store: &mut Store<F>)
        ensures does { (range : List ℕ) → Acts F.tells (seen self.old store.old) range (Some GetRecordIdentifier)
            (seen self.new store.new) range }
        ensures copies { F.tells → KnowsCopies store.old }
        ensures runs { Runs F.tells self.new.running self.new.offset store.new }
    {
        self.give_up(store);
        match store.next(self.cursor) {
            Ok(Some(id)) => {
                self.value = id.get();
                self.cursor = self.value;
            }
            Ok(None) => {
                self.value = u64::MAX;
                self.cursor = 0;
            }
            Err(_) => self.value = 0,
        }
    }

    fn count<F: Flash>(&mut self, store: &mut Store<F>)
        ensures does { (range : List ℕ) → Acts F.tells (seen self.old store.old) range (Some GetRecordCount)
            (seen self.new store.new) range }
        ensures copies { F.tells → KnowsCopies store.old }
        ensures runs { Runs F.tells self.new.running self.new.offset store.new }
    {
        self.give_up(store);
        match store.count() {
            Ok(count) => self.value = u64::from(count),
            Err(_) => self.value = u64::from(u32::MAX),
        }
    }
}
