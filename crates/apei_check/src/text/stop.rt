// Why a line of a check was not played to its end.

/// Why an item was not shown to its end.
#[derive(Clone, Copy, Debug, PartialEq, Eq)]
pub enum CheckStop {
    /// The sink refused a line.
    SinkFault,
    /// There was no memory for a table.
    Memory,
}
