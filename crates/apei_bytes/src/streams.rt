// Where bytes come from and go to.
ghost use Rattle.std.specs.Prelude.{◌≡◌, ℕ, ◌+◌, ◌<◌, ◌≤◌, List, [], ◌++◌, length, take, IfOk, OnOk, OnErr, MatchResult};
ghost use Rattle.base_model.specs.Faults.{HasCause};

/// A read that took no byte.
#[derive(Clone, Copy, Debug, PartialEq, Eq)]
pub struct ReadFailed;

/// A write that appended no byte.
#[derive(Clone, Copy, Debug, PartialEq, Eq)]
pub struct WriteFailed;

/// A sink refused some of the bytes; those before them were appended.
#[derive(Clone, Copy, Debug, PartialEq, Eq)]
pub struct SinkFault;

/// Bytes that come in pieces.
pub trait Source {
    // Whether a source of this type tells the bytes that it has left.
    ghost tells: { Type 0 };

    // The bytes that are left, where they are told.
    ghost rest: { Self → List ℕ };

    // How many reads failed so far.
    ghost faults: { Self → ℕ };

    /// Puts the next bytes at the start of `buf` and answers how many: 0 at the end of the input alone.
    fn read(&mut self, buf: &mut [u8]) -> Result<usize, ReadFailed>
        requires { 0 < length buf.old }
        ensures count { IfOk result (λ n. n ≤ length buf.new) }
        ensures bytes { tells → MatchResult result (λ n. rest self.old ≡ take n buf.new ++ rest self.new)
            (λ _. rest self.new ≡ rest self.old) }
        ensures end { tells → result ≡ Ok 0 → rest self.old ≡ [] }
        ensures cause { HasCause (faults self.old) (faults self.new) result };
}

/// What takes bytes in pieces.
pub trait Sink {
    // Whether a sink of this type tells the bytes that it took.
    ghost tells: { Type 0 };

    // The bytes that were written so far, where they are told.
    ghost written: { Self → List ℕ };

    // How many writes failed so far.
    ghost faults: { Self → ℕ };

    /// Appends the first bytes of `bytes` and answers how many, at least one.
    fn write(&mut self, bytes: &[u8]) -> Result<usize, WriteFailed>
        requires { 0 < length bytes.now }
        ensures some { IfOk result (λ n. 0 < n) }
        ensures count { IfOk result (λ n. n ≤ length bytes.now) }
        ensures bytes { tells → MatchResult result (λ n. written self.new ≡ written self.old ++ take n bytes.now)
            (λ _. written self.new ≡ written self.old) }
        ensures cause { HasCause (faults self.old) (faults self.new) result };
}

/// Appends all of `bytes`, by as many writes as the sink wants.
pub fn write_all<S: Sink>(sink: &mut S, bytes: &[u8]) -> Result<(), SinkFault>
    ensures all { OnOk result (S.tells → S.written sink.new ≡ S.written sink.old ++ bytes.now) }
    ensures part { OnErr result (S.tells → (n : ℕ) × (S.written sink.new ≡ S.written sink.old ++ take n bytes.now)) }
    ensures cause { HasCause (S.faults sink.old) (S.faults sink.new) result }
{
    let mut rest = bytes;
    while !rest.is_empty() {
        match sink.write(rest) {
            Ok(n) => rest = &rest[n..],
            Err(WriteFailed) => return Err(SinkFault),
        }
    }
    Ok(())
}
