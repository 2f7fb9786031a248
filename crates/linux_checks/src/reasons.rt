// Why Linux refuses an entry.
ghost use Rattle.std.specs.Prelude.{◌≡◌};
ghost use Rattle.linux_checks.specs.Reasons.{reason_text};

/// Why Linux refuses an entry of a table, a source or a region.
#[derive(Clone, Copy, Debug, PartialEq, Eq)]
pub enum Reason {
    /// The instruction is none of the standard's 19 (`apei_exec_for_each_entry`, apei-base.c).
    Instruction,
    /// A register's address is 0 (`apei_check_gar`, apei-base.c).
    NoAddress,
    /// A register's access size is not 1 to 4 (`apei_check_gar`).
    AccessSize,
    /// A register has more bits than an access of its size, with the bit that it begins at (`apei_check_gar`).
    TooWide,
    /// A register stands neither in memory nor in I/O space (`apei_check_gar`).
    OtherSpace,
    /// A register in memory has no bits (`acpi_os_map_generic_address`, osl.c).
    NoBits,
    /// An address in memory needs more than 52 bits (`ioremap` on x86-64 and ARM64).
    TooHigh,
    /// No driver of Linux takes this type of notification (`ghes_probe`, ghes.c).
    Notification,
    /// A status block is shorter than its head (`ghes_probe`).
    ShortBlock,
    /// A polled source has a poll interval of 0 (`ghes_add_timer`, ghes.c).
    NeverPolled,
    /// A boot error region is shorter than a status block's head (`bert_check_table`, bert.c).
    ShortRegion,
}

/// What Linux refuses.
#[derive(Clone, Copy, Debug, PartialEq, Eq)]
pub struct Refusal {
    /// Where the refused number or register stands, from the entry's start.
    pub at: u8,
    pub reason: Reason,
}

impl Reason {
    /// The reason in words.
    pub fn text(self) -> &'static str
        ensures { result.now ≡ reason_text self }
    {
        match self {
            Reason::Instruction => "the instruction is none of the standard's",
            Reason::NoAddress => "the register's address is 0",
            Reason::AccessSize => "the register's access size is none of 8, 16, 32 and 64 bits",
            Reason::TooWide => "the register has more bits than one access",
            Reason::OtherSpace => "the register is neither in memory nor in I/O space",
            Reason::NoBits => "the register has no bits",
            Reason::TooHigh => "the address has more than 52 bits",
            Reason::Notification => "Linux has no driver for this notification",
            Reason::ShortBlock => "the error status block is shorter than its head of 20 bytes",
            Reason::NeverPolled => "the poll interval is 0",
            Reason::ShortRegion => "the region is shorter than the head of a block, 20 bytes",
        }
    }
}
