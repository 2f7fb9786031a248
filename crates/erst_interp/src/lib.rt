//! The interpreter of serialization programs (ACPI 6.4, section 18.5.1.2).
#![tactic(auto)]

mod budgets;
mod configurations;
mod demands;
mod instructions;
mod laws;
mod runners;
mod runs;
mod states;
mod stops;
mod turns;
mod works;

pub use budgets::Budget;
pub use demands::Demand;
pub use laws::{a_straight_program_runs_through, a_told_run_ends, a_told_run_is_a_run};
pub use runners::{Runner, demanded, first_state};
pub use runs::run;
pub use states::RunState;
pub use stops::RunStop;
