// The lengths of lines.

/// The most bytes that a line's text has.
pub const LONGEST_LINE: usize = 140_000;

/// The most bytes that the hexadecimal digits of a line stand for.
pub const LONGEST_BYTES: usize = LONGEST_LINE / 2;
