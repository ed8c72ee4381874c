// The keys and the quantities in bytes that are as long as their row count says.
ghost use Rattle.std.specs.Prelude.{◌≡◌, ℕ, ◌+◌, ◌*◌, ◌<◌, List, length, slice_index_or};
ghost use Rattle.sheet.specs.Rows.{key_at, quantity_at, row_at, row_count, rows};

use crate::row::{Key, Row};
use crate::rows::Rows;

// An accepted `Sheet` has the same two fields and no table, so that clauses say `sheet.bytes`.
#[derive(Clone, Copy)]
pub struct Table<'a> {
    pub(crate) bytes: &'a [u8],
    pub(crate) count: usize,
    ghost counted: { count ≡ row_count bytes.now },
    ghost measured: { length bytes.now ≡ 2 + 10 * count },
}

impl<'a> Table<'a> {
    ghost use Rattle.sheet.specs.Left.{rows_left};

    pub(crate) fn keys(&self) -> &'a [[u8; 6]]
        ensures long { length result.now ≡ row_count self.now.bytes.now }
        ensures each { (i : ℕ) (d : List ℕ) → i < row_count self.now.bytes.now → key_at (slice_index_or result.now i d) 0 ≡ (row_at self.now.bytes.now i).key }
    {
        self.bytes[2..2 + 6 * self.count].as_chunks::<6>().0
    }

    fn quantities(&self) -> &'a [[u8; 4]]
        ensures long { length result.now ≡ row_count self.now.bytes.now }
        ensures each { (i : ℕ) (d : List ℕ) → i < row_count self.now.bytes.now → quantity_at (slice_index_or result.now i d) 0 ≡ (row_at self.now.bytes.now i).quantity }
    {
        self.bytes[2 + 6 * self.count..].as_chunks::<4>().0
    }

    pub(crate) fn row(&self, i: usize) -> Row
        requires { i < row_count self.now.bytes.now }
        ensures { result ≡ row_at self.now.bytes.now i }
    {
        Row {
            key: Key::from(self.keys()[i]),
            quantity: i32::from_be_bytes(self.quantities()[i]),
        }
    }

    // All rows, from the first.
    pub(crate) fn rows(&self) -> Rows<'a>
        ensures all { rows_left result ≡ rows self.now.bytes.now }
        ensures long { length (rows_left result) ≡ self.now.count }
    {
        Rows {
            table: *self,
            next: 0,
        }
    }
}
