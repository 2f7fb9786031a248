// The player of a plan's machine.
ghost use Rattle.std.specs.Prelude.{◌≡◌, ⊤, IfOk, IfErr};
ghost use Rattle.apei_notify.specs.Chains.{members_of};
ghost use Rattle.apei_script.specs.Sessions.{state_of};
ghost use Rattle.apei_cli.specs.Orders.{order_of};
ghost use Rattle.apei_cli.specs.Runs.{boot_status, IsBootOf, HasBooted, HasNotBegun, IsOnGeometry, HasFlashCause};

use crate::Plan;
use crate::status::Status;
use apei_notify::{Chain, Listener};
use apei_script::{Player, PlayerRefused, own_client};
use erst_machine::{BootError, BootRefused, Machine};
use flash_model::{Flash, Geometry};
use std::alloc::Global;

/// Why no line was played, and what was handed in.
pub struct NotBegun<F: Flash> {
    pub status: Status,
    pub flash: F,
    pub listeners: Vec<Box<dyn Listener>>,
}

/// The status of a boot that was refused; `refused` is that of a flash of another size.
fn boot_status(why: BootError, refused: Status) -> Status
    ensures { result ≡ boot_status why refused }
{
    match why {
        BootError::Size { .. } => refused,
        BootError::Flash => Status::FlashFault,
        BootError::Memory => Status::Memory,
    }
}

/// Why no machine was booted, and the flash that was handed in.
struct NotBooted<F: Flash> {
    status: Status,
    flash: F,
}

/// Boots the machine of a flash on a plan's geometry.
fn boot_machine<F: Flash>(alloc: Global, plan: &Plan, flash: F) -> Result<Machine<F>, NotBooted<F>>
    requires { ⊤ }
    ensures booted { IfOk result (λ machine. IsBootOf F.tells (order_of plan.now) (F.state flash) machine) }
    ensures refused { IfErr result (λ none. HasNotBegun F.tells (order_of plan.now) (F.state flash)
        (F.state none.flash) none.status) }
    ensures geometry { IfErr result (λ none. IsOnGeometry (order_of plan.now) (F.state flash) none.status) }
    ensures cause { IfErr result (λ none. HasFlashCause (F.state flash).faults (F.state none.flash).faults
        none.status) }
{
    let refused = Status::BadGeometry {
        sector: plan.sector,
        per_slot: plan.per_slot,
        slots: plan.slots,
        size: flash.size(),
    };
    let Ok(geometry) = Geometry::new(plan.sector, plan.per_slot, plan.slots) else {
        return Err(NotBooted {
            status: refused,
            flash,
        });
    };
    match Machine::boot(alloc, flash, geometry) {
        Ok(machine) => Ok(machine),
        Err(BootRefused { why, flash }) => Err(NotBooted {
            status: boot_status(why, refused),
            flash,
        }),
    }
}

/// Boots the machine of a flash, attaches a client to its own table, and makes its player.
pub fn boot_player<F: Flash>(
    alloc: Global,
    plan: &Plan,
    flash: F,
    listeners: Vec<Box<dyn Listener>>,
) -> Result<Player<F>, NotBegun<F>>
    requires { ⊤ }
    ensures booted { IfOk result (λ player. HasBooted F.tells (order_of plan.now) (F.state flash)
        (state_of player.session)) }
    ensures members { IfOk result (λ player. members_of player.chain ≡ listeners.items) }
    ensures refused { IfErr result (λ none. HasNotBegun F.tells (order_of plan.now) (F.state flash)
        (F.state none.flash) none.status) }
    ensures listeners_back { IfErr result (λ none. none.listeners.items ≡ listeners.items) }
    ensures geometry { IfErr result (λ none. IsOnGeometry (order_of plan.now) (F.state flash) none.status) }
    ensures cause { IfErr result (λ none. HasFlashCause (F.state flash).faults (F.state none.flash).faults
        none.status) }
{
    let mut machine = match boot_machine(alloc, plan, flash) {
        Ok(machine) => machine,
        Err(NotBooted { status, flash }) => {
            return Err(NotBegun {
                status,
                flash,
                listeners,
            });
        }
    };
    let Ok(own) = own_client(alloc, &mut machine) else {
        return Err(NotBegun {
            status: Status::Memory,
            flash: machine.into_flash(),
            listeners,
        });
    };
    let chain = Chain::new(listeners);
    match Player::new(alloc, machine, own, chain, plan.steps) {
        Ok(player) => Ok(player),
        Err(
            PlayerRefused {
                machine,
                own: _,
                chain,
            },
        ) => Err(NotBegun {
            status: Status::Memory,
            flash: machine.into_flash(),
            listeners: chain.into_members(),
        }),
    }
}

/// The flash and the listeners of a player.
pub fn take_apart<F: Flash>(player: Player<F>) -> (F, Vec<Box<dyn Listener>>)
    requires { ⊤ }
    ensures flash { F.state result.0 ≡ (state_of player.session).machine.device.store.flash }
    ensures listeners { result.1.items ≡ members_of player.chain }
{
    let (machine, chain) = player.into_parts();
    (machine.into_flash(), chain.into_members())
}
