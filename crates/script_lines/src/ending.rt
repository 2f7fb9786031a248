// How a script that is read line by line ends.

/// How such a script ends.
#[derive(Clone, Copy, Debug, PartialEq, Eq)]
pub enum ScriptEnd {
    /// It was read to its end.
    Done,
    /// The line with this number, from 1, is none of such a script: no line begins with its bytes up to this column, from 1.
    BadLine { line: u64, column: u32 },
    /// A read of the script failed.
    SourceFault,
    /// A write of what a line says failed.
    SinkFault,
    /// The line with this number, from 1, or the script up to its end is too long.
    TooLong { line: u64 },
    /// There was no memory.
    Memory,
}
