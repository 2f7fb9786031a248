// Laws on two ports that are equivalent: the functions do nothing, and their clauses are the laws.
ghost use Rattle.std.specs.Prelude.{◌≡◌, ℕ, ◌+◌, List, length, Result};
ghost use Rattle.apei_tables.specs.declared.widths.Width.{Width};
ghost use Rattle.erst_port.specs.declared.errors.PortError.{PortError};
ghost use Rattle.erst_port.specs.declared.windows.Location.{Location};
ghost use Rattle.erst_port.specs.PortState.{PortState, IsMade};
ghost use Rattle.erst_port.specs.Accesses.{number_read, NumberWritten, bytes_read, bytes_stored, Resets};
ghost use Rattle.base_model.specs.Layout.{room_of, reach_of};
ghost use Rattle.erst_port.specs.Saved.{head_size, IsSaved};
ghost use Rattle.erst_port.specs.Loaded.{AreOfDevice, AreOfLayout, GoesOn};
ghost use Rattle.port_laws.specs.Equivalence.{EquivalentPorts, AnswerAlike, FailedNothing};
ghost use Rattle.port_laws.specs.GoingOn.{Ask, AnswersAll};

/// The bytes as which a port was saved are taken over every flash that is divided as its own.
pub fn a_saved_port_is_taken()
    ensures { (port : PortState) (saved : List ℕ) → IsSaved port saved → AreOfDevice saved
        × AreOfLayout saved port.device.store.layout
        × (length saved ≡ head_size + reach_of (room_of port.device.store.layout)) }
{}

/// A port that goes on as one that was saved is equivalent to that one.
pub fn a_loaded_port_is_equivalent()
    ensures { (old new : PortState) (saved : List ℕ) → IsSaved old saved → GoesOn old new → EquivalentPorts old new }
{}

/// Two ports that are equivalent answer each read the same.
pub fn equivalent_ports_read_alike()
    ensures numbers { (one other : PortState) (location : Location) (width : Width) → EquivalentPorts one other
        → number_read location one width ≡ number_read location other width }
    ensures bytes { (one other : PortState) (location : Location) (before : List ℕ) → EquivalentPorts one other
        → bytes_read location one before ≡ bytes_read location other before }
{}

/// Two ports that are equivalent, whose mediums have made every change and whose flashes fail nothing, answer each write the same, an action too, and are
/// alike behind it.
pub fn equivalent_ports_write_alike()
    ensures numbers { (one other : PortState) (location : Location) (width : Width) (value : ℕ)
        → AnswerAlike (λ old answer new. NumberWritten location old width value answer new) one other }
    ensures bytes { (one other : PortState) (location : Location) (bytes : List ℕ) → EquivalentPorts one other
        → ((bytes_stored location one bytes).0 ≡ (bytes_stored location other bytes).0)
        × EquivalentPorts (bytes_stored location one bytes).1 (bytes_stored location other bytes).1 }
{}

/// Restarts of such ports are answered the same, and leave them alike.
pub fn equivalent_ports_reset_alike()
    ensures { (one other : PortState) → AnswerAlike Resets one other }
{}

/// So whatever is written to two such ports, or restarts them, one thing after another: they give the same answers, and are equivalent at the end.
/// Before each the mediums have made every change, and the flashes fail nothing.
pub fn equivalent_ports_go_on_alike()
    ensures { (one other : PortState) (asks : List Ask) (answers also : List (Result (Unit {0}) PortError))
        (one_last other_last : PortState) → EquivalentPorts one other → IsMade one → IsMade other
        → AnswersAll one asks answers one_last → FailedNothing one one_last → AnswersAll other asks also other_last
        → FailedNothing other other_last → (answers ≡ also) × EquivalentPorts one_last other_last }
{}
