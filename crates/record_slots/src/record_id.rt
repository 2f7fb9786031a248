// The identifier of a record.
ghost use Rattle.std.specs.Prelude.{◌≡◌, true, false, MatchOption};
ghost use Rattle.record_model.specs.Records.{is_reserved};

use std::marker::Model;

/// The identifier of a record: any number of 64 bits but the first and the last. An operating system asks for the first
/// record by the first number, and is told by the last that there is none.
#[derive(Clone, Copy, Debug, PartialEq, Eq)]
pub struct RecordId {
    value: u64,
}

impl Model for RecordId {
    ghost use Rattle.std.specs.Prelude.{◌≡◌, ℕ, false};
    ghost use Rattle.record_model.specs.Records.{is_reserved};

    ghost Value = { ℕ };

    ghost view = { λ id. id.value };

    ghost invariant = { λ id. is_reserved id.value ≡ false };

    ghost inverse = { λ value. record { value = value } };
}

impl RecordId {
    /// The identifier of this value. The first and the last number are none.
    #[tactic(auto, using(std::proofs::lemmas::Bool::Decides::nat_tests), unfolding(record_model::specs::Records::is_reserved))]
    pub fn new(value: u64) -> Option<RecordId>
        ensures { MatchOption result (is_reserved value ≡ true) (λ id. (id ≡ value) × (is_reserved value ≡ false)) }
    {
        if value == 0 || value == u64::MAX {
            return None;
        }
        Some(RecordId { value })
    }

    /// Its value.
    pub fn get(&self) -> u64
        ensures value { result ≡ self.now }
        ensures allowed { is_reserved result ≡ false }
    {
        self.value
    }
}
