// The job that generates its commands: records are written, cleared, read and named in an order that a seed gives, and one line sums up
// what came of it.

mod command;
mod generator;
mod record;
mod summary;
mod tally;

pub use generator::generate;
