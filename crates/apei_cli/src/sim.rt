// The simulated flash of a plan.
ghost use Rattle.std.specs.Prelude.{◌≡◌, true, false, ◌*◌, [], IfOk, replicate, option_to_list};
ghost use Rattle.flash_model.specs.Limits.{IsGeometry};
ghost use Rattle.apei_cli.specs.Sim.{simulates, tear_numbered, cut_of, failing_of, new_flash};

use crate::{Job, Plan};
use apei_bytes::OutOfMemory;
use flash_model::{Cut, Geometry, SimFlash, Tear, erased};
use std::alloc::Global;

// The sector of the flash that is empty.
const NO_SECTOR: u32 = 256;

/// The flash that a `sim` or `gen` plays on: its bytes are erased, and its calls fail where the plan says, and for want of
/// memory. For another job, and where the geometry is outside its limits, it is empty.
pub fn sim_flash(alloc: Global, plan: &Plan) -> Result<SimFlash, OutOfMemory>
    ensures erased { simulates plan.now.job ≡ true → IsGeometry plan.now.sector plan.now.per_slot plan.now.slots
        → IfOk result (λ flash. flash ≡ new_flash plan.now plan.now.sector
        (replicate (plan.now.sector * plan.now.per_slot * plan.now.slots) 0xFF)) }
    ensures empty { ¬ IsGeometry plan.now.sector plan.now.per_slot plan.now.slots
        → IfOk result (λ flash. flash ≡ new_flash plan.now 256 []) }
    ensures other { simulates plan.now.job ≡ false → IfOk result (λ flash. flash ≡ new_flash plan.now 256 []) }
{
    let failing = failing_changes(alloc, plan)?;
    let failing_reads = failing_reads(alloc, plan)?;
    let (sector, image) = match Geometry::new(plan.sector, plan.per_slot, plan.slots) {
        Ok(geometry) if simulates(plan.job) => (
            geometry.sector() as u32,
            erased(alloc, &geometry)?,
        ),
        _ => (NO_SECTOR, Vec::new(alloc)),
    };
    let cut = lost_power(plan);
    Ok(SimFlash::new(alloc, sector, image, cut, failing, failing_reads))
}

// Whether a job plays on a simulated flash.
fn simulates(job: Job) -> bool
    ensures { result ≡ simulates job }
{
    match job {
        Job::Sim | Job::Gen => true,
        Job::Play | Job::Check | Job::Hub => false,
    }
}

// The change in which a plan has power lost.
fn lost_power(plan: &Plan) -> Option<Cut>
    ensures { result ≡ cut_of plan.now.cut plan.now.torn }
{
    match plan.cut {
        Some(step) => Some(Cut {
            step,
            tear: tear_numbered(plan.torn),
        }),
        None => None,
    }
}

// The changes that a plan has fail.
fn failing_changes(alloc: Global, plan: &Plan) -> Result<Vec<(u64, Tear)>, OutOfMemory>
    ensures { IfOk result (λ failing. failing.items ≡ failing_of plan.now.fail plan.now.torn) }
{
    match plan.fail {
        Some(step) => Ok(vec![in alloc; (step, tear_numbered(plan.torn))]?),
        None => Ok(Vec::new(alloc)),
    }
}

// The reads that a plan has fail.
fn failing_reads(alloc: Global, plan: &Plan) -> Result<Vec<u64>, OutOfMemory>
    ensures { IfOk result (λ failing. failing.items ≡ option_to_list plan.now.fail_read) }
{
    match plan.fail_read {
        Some(read) => Ok(vec![in alloc; read]?),
        None => Ok(Vec::new(alloc)),
    }
}

// The tear with this number.
fn tear_numbered(torn: u8) -> Tear
    ensures { result ≡ tear_numbered torn }
{
    if torn == 0 {
        Tear::Nothing
    } else if torn == 1 {
        Tear::Whole
    } else if torn == 2 {
        Tear::Zeros
    } else {
        Tear::Marks
    }
}
