// A row that no kept candidate holds. Assumes nothing.
ghost use Rattle.std.specs.Prelude.{◌≡◌, ◌<◌, false};
ghost use Rattle.store.specs.Meaning.{holds_row};

use store::Store;

const ROWS: u8 = 129;

// The first free row from a likely one on, or else the first of all. There are more rows than any store may keep
// candidates.
pub fn free_row<S: Store>(store: &S, likely: u8) -> u8
    ensures free { holds_row result (S.kept store.now) ≡ false }
    ensures inside { result < 129 }
{
    let mut rows = (likely..ROWS).chain(0..ROWS);
    match rows.find(|row| !store.holds_row(*row)) {
        Some(row) => row,
        None => unreachable(),
    }
}
