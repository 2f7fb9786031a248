// The table.
ghost use Rattle.std.specs.Prelude.{◌≡◌, ℕ, ◌≤◌, length, take, Some, None, IfOk, IsOkAnd, MatchResult, codes};
ghost use Rattle.apei_tables.specs.Tables.{refusal};
ghost use Rattle.ghes_block.specs.declared.table.Bert.{Bert as AnyBert};
ghost use Rattle.ghes_block.specs.Table.{IsBert};

use apei_bytes::{get_u32, get_u64};
use apei_tables::{Header, TableError};

/// A Boot Error Record Table: where the boot error region is, and how many bytes it has.
#[derive(Clone, Copy, Debug, PartialEq, Eq)]
pub struct Bert {
    pub len: u32,
    pub region: u64,
}

impl Bert {
    /// The table that stands first in `bytes`, and how many bytes it has. Bytes behind it are left alone.
    pub fn decode(bytes: &[u8]) -> Result<(Bert, usize), TableError>
        // What is found is such a table.
        ensures found { IfOk result (λ x. (x.1 ≤ length bytes.now) × IsBert x.0 (take x.1 bytes.now)) }
        // What is such a table is found.
        ensures only { (bert : AnyBert) (n : ℕ) → n ≤ length bytes.now → IsBert bert (take n bytes.now)
            → IsOkAnd result (λ x. (x.0 ≡ bert) × (x.1 ≡ n)) }
        // The error is the first reason that applies.
        ensures refused { MatchResult result (λ _. refusal (codes "BERT") 48 bytes.now ≡ None)
            (λ error. refusal (codes "BERT") 48 bytes.now ≡ Some error) }
    {
        match Header::decode(bytes, *b"BERT", 48) {
            Ok((_, table)) => {
                let bert = Bert {
                    len: get_u32(table, 36),
                    region: get_u64(table, 40),
                };
                Ok((bert, table.len()))
            }
            Err(error) => Err(error),
        }
    }
}
