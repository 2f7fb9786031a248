// Which lines of an item are shown, and the writing of its lines.

mod head;
mod line;
mod numbered;
mod parts;
mod refused;
mod show;
mod stop;

pub(crate) use line::write_line;
pub(crate) use numbered::{InOrder, Numbered};
pub(crate) use parts::Parts;
pub(crate) use refused::write_refused;
pub use show::Show;
pub use stop::CheckStop;
