// A charge rule: a code, and a charge quantity for each coordinator, resource and list of the pair's rows.
// The sheet and the pair are two parameters all the way, since one sheet is asked for many pairs. Clauses on a rule say
// `meaning (R.code ..) (R.quantity ..)` each time, since a definition cannot name a bound's members.
// The five charges have an impl each and share `total_of`: one impl for all would need a law for what the figures arrive
// at, whose proof would have to stand among the definitions.
ghost use Rattle.std.specs.Prelude.{◌≡◌, ℕ, ◌<◌, List};
ghost use Rattle.charges.specs.Rules.{Bounded};
ghost use Rattle.sheet.specs.Rows.{pair_rows};
ghost use Rattle.sheet.specs.Sheets.{sheet_rows};
ghost use Rattle.sheet.specs.declared.row.Row.{Row};

use sheet::pair::Pair;
use sheet::sheet::Sheet;

pub trait ChargeRule {
    ghost code: { Self → ℕ };

    ghost quantity: { Self → ℕ → ℕ → List Row → ℕ };

    // A number, since anyone may write a rule: a book posts by codes below 16.
    fn tell_code(&self) -> u8
        ensures { result ≡ code self.now };

    fn tell_quantity(&self, sheet: Sheet<'_>, pair: Pair) -> u64
        ensures { result ≡ quantity self.now pair.coordinator pair.resource (pair_rows pair.coordinator pair.resource (sheet_rows sheet.entry)) };

    ghost code_low: { (x : Self) → code x < 16 };

    ghost bounded: { (x : Self) → Bounded (quantity x) };
}
