// A change in parts: a medium programs one page at a time.
ghost use Rattle.std.specs.Prelude.{◌≡◌, ◌+◌, ◌-◌, ◌^◌, ◌%◌, ◌<◌, ◌≤◌};
ghost use Rattle.erst_port.specs.Parts.{page_size, part_size};

// The bytes of a page.
const PAGE: usize = 256;

/// What the medium has made: so many changes of the flash, and so many bytes of the next one.
#[derive(Clone, Copy, Debug, PartialEq, Eq)]
pub struct Made {
    pub changes: u64,
    pub bytes: usize,
}

/// Nothing.
pub const NOTHING: Made = Made {
    changes: 0,
    bytes: 0,
};

impl Made {
    ghost use Rattle.erst_port.specs.Parts.{made_behind};

    /// The same, and `n` more bytes of the next change, which has `size` bytes.
    #[tactic(auto, using(std::proofs::lemmas::Bool::Decides::nat_tests))]
    pub fn behind(self, n: usize, size: usize) -> Made
        requires countable { self.changes < 2 ^ 64 - 1 }
        requires within { self.bytes + n ≤ size }
        ensures { result ≡ made_behind self n size }
    {
        if self.bytes + n == size {
            return Made {
                changes: self.changes + 1,
                bytes: 0,
            };
        }
        Made {
            changes: self.changes,
            bytes: self.bytes + n,
        }
    }
}

/// The bytes of the next part of a change of `size` bytes at `start`, of which `begun` bytes are made.
#[tactic(auto, using(std::proofs::lemmas::Bool::Decides::nat_tests))]
pub fn part_size(start: usize, size: usize, begun: usize) -> usize
    requires begun { begun ≤ size }
    requires fits { start + size < 2 ^ 64 }
    ensures value { result ≡ part_size start size begun }
    ensures within { begun + result ≤ size }
    ensures page { size ≤ 256 → (start + begun) % page_size + result ≤ page_size }
    ensures some { begun < size → 0 < result }
{
    let left = size - begun;
    if size > PAGE {
        return left;
    }
    left.min(PAGE - (start + begun) % PAGE)
}
