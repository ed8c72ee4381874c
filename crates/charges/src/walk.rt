// The walk over a pair's rows, for any figures.
ghost use Rattle.std.specs.Prelude.{◌≡◌, ◌+◌, ◌<◌, List};
ghost use Rattle.charges.specs.Running.{after, run, walk_at};
ghost use Rattle.sheet.specs.Rows.{PartIsByte, of_pair, pair_rows, row_at, row_count};
ghost use Rattle.sheet.specs.Sheets.{sheet_rows};
ghost use Rattle.sheet.specs.declared.row.Row.{Row};
ghost use Rattle.std.specs.List.{AllByRecursion};

use crate::figures::Figures;
use sheet::pair::Pair;
use sheet::sheet::Sheet;

// The running figures, the pair, and the next row of the sheet to read. It holds no iterator: a walk is lent the sheet at
// each of its calls, and has plain numbers beside its figures.
#[derive(Drop)]
pub struct Walk<F> {
    pub figures: F,
    pub pair: Pair,
    pub next: usize,
}

impl<F: Figures> Walk<F> {
    pub fn new(pair: Pair) -> Self
        ensures { (rs : List Row) → result ≡ walk_at F.Figures.running pair rs 0 }
    {
        Walk {
            figures: F::default(),
            pair,
            next: 0,
        }
    }

    // Reads one row, adds it if it is the pair's, and says whether it is.
    pub fn step(&mut self, sheet: Sheet<'_>) -> bool
        requires left { self.old.next < row_count sheet.bytes.now }
        requires begun { self.old ≡ walk_at F.Figures.running self.old.pair (sheet_rows sheet) self.old.next }
        ensures more { self.new ≡ walk_at F.Figures.running self.old.pair (sheet_rows sheet.entry) (self.old.next + 1) }
        ensures own { result ≡ of_pair self.old.pair.coordinator self.old.pair.resource (row_at sheet.entry.bytes.now self.old.next) }
        ensures part { PartIsByte (row_at sheet.entry.bytes.now self.old.next) }
    {
        let row = sheet.row(self.next);
        let own = row.is_of(self.pair);
        if own {
            self.figures.add(row);
        }
        self.next += 1;
        own
    }
}

// The walk over the pair's rows, which stand together since keys ascend.
pub fn walk_over<F: Figures + Drop>(sheet: Sheet<'_>, pair: Pair) -> Walk<F>
    ensures figures { result.figures ≡ after F.Figures.running (pair_rows pair.coordinator pair.resource (sheet_rows sheet.entry)) }
    ensures parts { AllByRecursion PartIsByte (sheet_rows sheet.entry) }
{
    let mut walk: Walk<F> = Walk::new(pair);
    walk.next = sheet.first_row(pair);
    for _i in walk.next..sheet.len() {
        if !walk.step(sheet) {
            break;
        }
    }
    walk
}

// What the figures of the pair's rows come to.
pub fn total_of<F: Figures + Drop>(sheet: Sheet<'_>, pair: Pair) -> u64
    ensures value { result ≡ run F.Figures.running (pair_rows pair.coordinator pair.resource (sheet_rows sheet.entry)) }
    ensures parts { AllByRecursion PartIsByte (sheet_rows sheet.entry) }
{
    let walk: Walk<F> = walk_over(sheet, pair);
    walk.figures.total()
}
