// Laws on windows: the functions do nothing, and their clauses are the laws.
ghost use Rattle.std.specs.Prelude.{◌≡◌, ℕ, ◌+◌, ◌<◌, ◌≤◌, ◌⊎◌, List, Ok};
ghost use Rattle.apei_tables.specs.declared.registers.Place.{Place as AnyPlace};
ghost use Rattle.apei_space.specs.declared.windows.Window.{Window as AnyWindow};
ghost use Rattle.apei_space.specs.Windows.{AreApart, total};
ghost use Rattle.apei_space.specs.RamState.{found, located};
ghost use Rattle.apei_space.specs.Mapped.{FindsBytes, AreMapped, AreDisjoint, further};

/// An access of plain memory finds its bytes exactly where windows hold all of them, and is refused at the address of the
/// first that no window holds.
pub fn unmapped_is_first()
    ensures { (windows : List AnyWindow) (at : AnyPlace) (n : ℕ) → AreApart windows
        → FindsBytes windows at n (found windows at n) }
{}

/// Bytes that windows hold are found, and lie among the bytes of all windows.
pub fn mapped_bytes_are_found()
    ensures { (windows : List AnyWindow) (at : AnyPlace) (n : ℕ) → AreApart windows → AreMapped windows at n →
        (start : ℕ) × ((located windows at n ≡ Ok start) × (start + n ≤ total windows)) }
{}

/// Byte k of an access that is found stands k behind its first, and so does a part of it that begins there.
pub fn bytes_stand_in_order()
    ensures { (windows : List AnyWindow) (at : AnyPlace) (n start k m : ℕ) → AreApart windows
        → located windows at n ≡ Ok start → 0 < m → k + m ≤ n → located windows (further at k) m ≡ Ok (start + k) }
{}

/// Where a byte stands tells its place: no two places have the same byte.
pub fn an_index_tells_its_place()
    ensures { (windows : List AnyWindow) (one other : AnyPlace) (index : ℕ) → located windows one 1 ≡ Ok index
        → located windows other 1 ≡ Ok index → one ≡ other }
{}

/// Accesses that have no byte in common are found apart from each other.
pub fn disjoint_accesses_are_apart()
    ensures { (windows : List AnyWindow) (one : AnyPlace) (n start : ℕ) (other : AnyPlace) (m begin : ℕ) → 0 < n
        → 0 < m → AreDisjoint one n other m → located windows one n ≡ Ok start → located windows other m ≡ Ok begin
        → (start + n ≤ begin) ⊎ (begin + m ≤ start) }
{}
