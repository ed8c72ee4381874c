// The rows of a sheet, in order.
ghost use Rattle.std.specs.Iterator.{YieldsFirst, item_count};
ghost use Rattle.sheet.specs.Left.{rows_left};

use crate::row::Row;
use crate::table::Table;

// The rows from `next` on are left. A number and no range, so that what is left is one `drop`.
#[derive(Clone, Copy)]
pub struct Rows<'a> {
    pub(crate) table: Table<'a>,
    pub(crate) next: usize,
}

impl<'a> Iterator for Rows<'a> {
    type Item = Row;

    ghost next_gives = { YieldsFirst rows_left };

    ghost remaining = { item_count rows_left };

    fn next(&mut self) -> Option<Row> {
        if self.next >= self.table.count {
            return None;
        }
        let row = self.table.row(self.next);
        self.next += 1;
        Some(row)
    }
}
