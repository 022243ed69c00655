// Reading rows, and making a child's row from its parent's. Assumes nothing.
ghost use Rattle.std.specs.Prelude.{◌≡◌, ℕ, false};
ghost use Rattle.bits.specs.Row.{row_bit, set_bit};
ghost use Rattle.cost.specs.Rows.{path_at, with_path};

use super::{COUNT, Rows};
use bits::Row;

impl Rows {
    pub fn zero() -> Rows
        ensures { (row k : ℕ) → path_at result row k ≡ false }
    {
        let row = Row::zero();
        Rows { rows: [row; COUNT] }
    }

    // The path in a row; beyond the last every bit is false.
    pub fn path(&self, row: usize) -> Row
        ensures { row_bit result ≡ path_at self.now row }
    {
        self.rows.get(row).copied().unwrap_or(Row::zero())
    }

    // Sets bit k of a row; beyond the last nothing is written.
    pub fn set(&mut self, row: usize, k: usize, value: bool)
        ensures { path_at self.new ≡ with_path (path_at self.old) row (set_bit (path_at self.old row) k value) }
    {
        if row < COUNT {
            self.rows[row].set(k, value);
        }
    }

    // Makes row child the path in row parent with bit k set.
    pub fn branch(&mut self, parent: usize, child: usize, k: usize, value: bool)
        ensures { path_at self.new ≡ with_path (path_at self.old) child (set_bit (path_at self.old parent) k value) }
    {
        if child < COUNT {
            self.rows[child] = self.path(parent);
            self.rows[child].set(k, value);
        }
    }
}
