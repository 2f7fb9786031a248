// A law on an execution that is ended without its client: the function does nothing, and its clause is the law.
ghost use Rattle.std.specs.Prelude.{◌≡◌, true, Ok};
ghost use Rattle.apei_tables.specs.declared.widths.Width.TheVariants.{B32, B64};
ghost use Rattle.erst_entries.specs.Actions.{code_of};
ghost use Rattle.erst_entries.specs.declared.actions.Action.TheVariants.{CheckBusyStatus};
ghost use Rattle.erst_port.specs.declared.windows.Window.TheVariants.{Registers};
ghost use Rattle.erst_port.specs.PortState.{PortState};
ghost use Rattle.erst_port.specs.Settling.{Settles};
ghost use Rattle.port_laws.specs.Calls.{Does, Writes};

/// An execution that goes on without its client does so by two calls: a poll, and a write of the number that stood in VALUE. So each law on a run of
/// calls holds of such a step too.
pub fn a_settled_step_is_a_poll()
    ensures { (old new : PortState) → Settles old (Ok true) new
        → (polled : PortState) × Does old (Writes Registers 0 B32 (code_of CheckBusyStatus) (Ok tt)) polled
        × Does polled (Writes Registers 8 B64 old.device.value (Ok tt)) new }
{}
