// Running figures over rows: their default is the start; one row more, and what they come to.
ghost use Rattle.std.specs.Prelude.{◌≡◌, ℕ, ◌*◌, ◌≤◌, List, length};
ghost use Rattle.charges.specs.Running.{Reached, Running, run};
ghost use Rattle.sheet.specs.Sheets.{Passes};
ghost use Rattle.sheet.specs.declared.row.Row.{Row};
ghost use Rattle.std.specs.List.{AllByRecursion};

use sheet::row::Row;

pub trait Figures: Default {
    ghost running: { Running Self };

    // what a row adds at most
    ghost most: { ℕ };

    fn add(&mut self, row: Row)
        requires reached { Reached running 2047 self.old }
        requires passes { Passes row }
        ensures { self.new ≡ running.add self.old row };

    fn total(&self) -> u64
        requires { Reached running 2048 self.now }
        ensures { result ≡ running.total self.now };

    ghost starts: { (s : Self) → Self.is_default s → s ≡ running.start };

    ghost low: { most ≤ 100000000 };

    ghost bounded: { (rs : List Row) → AllByRecursion Passes rs → run running rs ≤ most * length rs };
}
