// An accepted sheet, read where the caller keeps it.
ghost use Rattle.std.specs.Prelude.{◌≡◌, ℕ, ◌<◌, ◌≤◌, true, false, All, drop, length, nat_lt, slice_index_or};
ghost use Rattle.sheet.specs.Rows.{PartIsByte, before_pair, row_at, row_count, rows};
ghost use Rattle.sheet.specs.Questions.{Accepted, in_range, within};

use crate::check::check;
use crate::fault::SheetFault;
use crate::pair::Pair;
use crate::row::{Key, Row};
use crate::rows::Rows;
use crate::table::Table;

// The count is kept beside the bytes, so that no read takes it from them again.
#[derive(Clone, Copy)]
pub struct Sheet<'a> {
    bytes: &'a [u8],
    count: usize,
    ghost counted: { count ≡ row_count bytes.now },
    ghost accepted: { Accepted bytes.now },
    ghost parts: { All PartIsByte (rows bytes.now) },
}

// The sheet in bytes that pass the five questions.
impl<'a> TryFrom<&'a [u8]> for Sheet<'a> {
    ghost use Rattle.sheet.specs.Sheets.{SheetOf};

    type Error = SheetFault;

    ghost try_from_gives = { λ bytes read. SheetOf bytes.now read };

    fn try_from(bytes: &'a [u8]) -> Result<Self, SheetFault> {
        let count = check(bytes)?;
        Ok(Sheet { bytes, count })
    }
}

impl<'a> Sheet<'a> {
    ghost use Rattle.sheet.specs.Left.{rows_left};
    ghost use Rattle.sheet.specs.Sheets.{Passes, sheet_rows};

    // The sheet in bytes that `check` has accepted. They are not checked again: only the count is read.
    pub fn accepted(bytes: &'a [u8]) -> Sheet<'a>
        requires { Accepted bytes.now }
        ensures { result.bytes.now ≡ bytes.now }
    {
        let count = usize::from(u16::from_be_bytes([bytes[0], bytes[1]]));
        Sheet { bytes, count }
    }

    fn table(&self) -> Table<'a>
        ensures { result.bytes.now ≡ self.now.bytes.now }
    {
        Table {
            bytes: self.bytes,
            count: self.count,
        }
    }

    #[tactic(auto, using(crate::proofs::Accepted::few_rows))]
    pub fn len(&self) -> usize
        ensures value { result ≡ row_count self.now.bytes.now }
        ensures few { result ≤ 2048 }
    {
        self.count
    }

    pub fn row(&self, i: usize) -> Row
        requires { i < row_count self.now.bytes.now }
        ensures value { result ≡ row_at self.now.bytes.now i }
        ensures ith { slice_index_or (rows self.now.bytes.now) i result ≡ result }
        ensures ranged { in_range result.key ≡ true }
        ensures bounded { within 4000000 result.quantity ≡ true }
    {
        self.table().row(i)
    }

    // All rows, from the first.
    pub fn rows(&self) -> Rows<'a>
        ensures all { rows_left result ≡ sheet_rows self.now }
        ensures few { length (rows_left result) ≤ 2048 }
        ensures passing { All Passes (rows_left result) }
    {
        self.table().rows()
    }

    // The rows from `first` on.
    pub fn rows_from(&self, first: usize) -> Rows<'a>
        ensures { rows_left result ≡ drop first (sheet_rows self.now) }
    {
        Rows {
            table: self.table(),
            next: first,
        }
    }

    // The first row that does not stand before the pair's, or the row count. Keys ascend.
    pub fn first_row(&self, pair: Pair) -> usize
        ensures inside { result ≤ row_count self.now.bytes.now }
        ensures place { (i : ℕ) → i < row_count self.now.bytes.now → before_pair pair.coordinator pair.resource (row_at self.now.bytes.now i) ≡ nat_lt i result }
    {
        self.table()
            .keys()
            .partition_point(|key| Key::from(*key).is_before(pair))
    }
}
