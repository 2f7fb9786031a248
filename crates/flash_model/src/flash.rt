// The trait of a flash.
ghost use Rattle.std.specs.Prelude.{true, ◌≡◌, ◌↔◌, ℕ, ◌+◌, ◌*◌, ◌<◌, ◌≤◌, length, replicate, Result, OnOk, IsErr};
ghost use Rattle.base_model.specs.Bytes.{part, put_at};
ghost use Rattle.base_model.specs.Flash.{FlashState, OnlyReads, AsksChange, IsErased, restart, next_count, unpowered_after};

/// The flash failed.
#[derive(Clone, Copy, Debug, PartialEq, Eq)]
pub struct FlashFailed;

/// Flash memory: bytes that are read at any place, programmed once, and erased by whole sectors.
///
/// A change is a call of `program` or `erase`. One that answers `Ok` stands. One that fails, or that power cuts, may
/// leave any bytes in its range; all other bytes stay. A change that is asked for when no more can be counted fails and
/// alters nothing. That a real flash behaves so is a premise.
pub trait Flash {
    /// Whether a flash of this type tells its content: clauses on content hold where it does.
    ghost tells: { Type 0 };

    /// What is seen of it. Power that is lost in a change stays lost until a restart; a flash that is never without it has
    /// it always.
    ghost state: { Self → FlashState };

    /// When a read fails, by the flash before it.
    ghost read_fails: { Self → Type 0 };

    /// When a change fails, by the flash before and after it.
    ghost change_fails: { Self → Self → Type 0 };

    /// The size in bytes, the same for good.
    fn size(&self) -> u64
        ensures { result ≡ (state self.now).size };

    /// The size of a sector in bytes, the same for good.
    fn sector_size(&self) -> u32
        ensures { result ≡ (state self.now).sector_size };

    /// Reads the bytes from `at` on. After a failure `buf` may hold anything.
    fn read(&mut self, at: u64, buf: &mut [u8]) -> Result<(), FlashFailed>
        requires { at + length buf.old ≤ (state self.old).size }
        ensures bytes { OnOk result (tells → buf.new ≡ part (state self.old).told.image at (length buf.old)) }
        ensures stays { OnlyReads tells 1 (state self.old) (state self.new) result }
        ensures counted { (state self.new).reads ≡ next_count (state self.old).reads }
        ensures unpowered { (state self.new).unpowered ≡ unpowered_after (state self.old) }
        ensures fails { IsErr result ↔ read_fails self.old };

    /// Programs 1 to 256 erased bytes from `at` on.
    fn program(&mut self, at: u64, bytes: &[u8]) -> Result<(), FlashFailed>
        requires some { 0 < length bytes.now }
        requires few { length bytes.now ≤ 256 }
        requires within { at + length bytes.now ≤ (state self.old).size }
        requires erased { tells → IsErased (state self.old).told.image at (length bytes.now) }
        ensures bytes { OnOk result (tells → (state self.new).told.image
            ≡ put_at (state self.old).told.image at bytes.now) }
        ensures change { AsksChange tells at (length bytes.now) (state self.old) (state self.new) result }
        ensures fails { IsErr result ↔ change_fails self.old self.new };

    /// Makes every byte of a sector 0xFF.
    fn erase(&mut self, sector: u32) -> Result<(), FlashFailed>
        requires { sector * (state self.old).sector_size + (state self.old).sector_size ≤ (state self.old).size }
        ensures bytes { OnOk result (tells → (state self.new).told.image
            ≡ put_at (state self.old).told.image (sector * (state self.old).sector_size)
            (replicate (state self.old).sector_size 0xFF)) }
        ensures change { AsksChange tells (sector * (state self.old).sector_size)
            (state self.old).sector_size (state self.old) (state self.new) result }
        ensures fails { IsErr result ↔ change_fails self.old self.new };

    /// The number of changes that were asked for so far, whatever they answered, up to 2^64 - 1.
    fn steps(&self) -> u64
        ensures { result ≡ (state self.now).steps };

    /// Ends a loss of power. No byte or past image changes, and no count but that of the restarts, up to 2^64 - 1.
    fn restart(&mut self)
        ensures { state self.new ≡ restart (state self.old) };

    /// An image has the flash's size.
    ghost sized: { (flash : Self) → tells → length (state flash).told.image ≡ (state flash).size };

    /// Each change so far is told.
    ghost counted: { (flash : Self) → tells → length (state flash).told.past ≡ (state flash).steps };
}
