// What a rule bills a coordinator: the quantity over its resources, and the line at a rate.
ghost use Rattle.std.specs.Prelude.{◌≡◌, ℕ, ◌<◌, ◌≤◌, false, length, nat_lt, slice_index_or};
ghost use Rattle.charges.specs.Rules.{line, meaning, quantity_of};
ghost use Rattle.sheet.specs.Rows.{own_rows, pair_rows};
ghost use Rattle.sheet.specs.Sheets.{sheet_rows};

use crate::rule::ChargeRule;
use sheet::pair::Pair;
use sheet::sheet::Sheet;

// The resources under which the coordinator has a row: an array, since nothing here is on the heap. Its rows stand
// together, since keys ascend.
fn resources_of(sheet: Sheet<'_>, coordinator: usize) -> [bool; 256]
    ensures long { length result ≡ 256 }
    ensures marks { (resource : ℕ) → resource < 256 → slice_index_or result resource false ≡ nat_lt 0 (length (pair_rows coordinator resource (sheet_rows sheet.entry))) }
{
    let mut present = [false; 256];
    let first = sheet.first_row(Pair {
        coordinator,
        resource: 0,
    });
    for row in sheet.rows_from(first) {
        if usize::from(row.key.coordinator) != coordinator {
            break;
        }
        present[usize::from(row.key.resource)] = true;
    }
    present
}

// Whether the coordinator may have a row: where the answer is no, it has none.
fn may_have_rows(sheet: Sheet<'_>, coordinator: usize) -> bool
    ensures { result ≡ false → (resource : ℕ) → nat_lt 0 (length (pair_rows coordinator resource (sheet_rows sheet.entry))) ≡ false }
{
    let first = sheet.first_row(Pair {
        coordinator,
        resource: u8::MIN,
    });
    let Some(row) = sheet.rows_from(first).next() else {
        return false;
    };
    usize::from(row.key.coordinator) == coordinator
}

// A pair without rows has quantity zero under every rule, so only the others cost a walk. A function of its own, since a
// proof loses what is known of the pair where two branches meet in a loop.
fn quantity_if<R: ChargeRule>(present: bool, rule: &R, sheet: Sheet<'_>, pair: Pair) -> u64
    requires { present ≡ nat_lt 0 (length (pair_rows pair.coordinator pair.resource (sheet_rows sheet))) }
    ensures { result ≡ R.quantity rule.now pair.coordinator pair.resource (pair_rows pair.coordinator pair.resource (sheet_rows sheet.entry)) }
{
    if present {
        rule.tell_quantity(sheet, pair)
    } else {
        0
    }
}

// The sum over the resources. Most coordinators have no row on a short sheet, and they cost no pass over all resources.
pub fn coordinator_quantity<R: ChargeRule>(rule: &R, sheet: Sheet<'_>, coordinator: usize) -> u64
    ensures value { result ≡ quantity_of (meaning (R.code rule.now) (R.quantity rule.now)) coordinator (own_rows coordinator (sheet_rows sheet.entry)) }
    ensures low { result ≤ 819200000000 }
{
    if !may_have_rows(sheet, coordinator) {
        return 0;
    }
    let present = resources_of(sheet, coordinator);
    let mut sum = 0;
    for resource in 0..=u8::MAX {
        let pair = Pair {
            coordinator,
            resource,
        };
        sum += quantity_if(present[usize::from(resource)], rule, sheet, pair);
    }
    sum
}

// In cents, to the nearest cent, a half up. Quantity and line are plain numbers: they are added up and answered as such.
pub fn line_at(quantity: u64, rate: u32) -> u64
    requires few { quantity ≤ 819200000000 }
    requires cheap { rate ≤ 10000000 }
    ensures value { result ≡ line quantity rate }
    ensures low { result ≤ 819200000000 }
{
    (quantity * u64::from(rate) + 5_000_000) / 10_000_000
}
