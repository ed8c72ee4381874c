// The five questions, asked in turn.
ghost use Rattle.std.specs.Prelude.{◌≡◌, ◌+◌, ◌*◌, All, OnOk, length};
ghost use Rattle.questions.specs.Questions.{acceptance, answer, in_turn, told};
ghost use Rattle.sheet.specs.Faults.{row_fault, sheet_fault};
ghost use Rattle.sheet.specs.FirstNo.{FirstNo, FirstAskedNo, FirstAskedNoDecides};
ghost use Rattle.sheet.specs.Questions.{ascends, count_refusal, in_range, known_kind, row_questions, row_refusal, sheet_refusal};
ghost use Rattle.sheet.specs.Rows.{PartIsByte, row_count, rows};

use crate::fault::{RowFault, SheetFault};
use crate::kind::Kind;
use crate::row::{Key, Row};
use crate::table::Table;

pub const MOST_ROWS: usize = 2048;

// The longest sheet: the row count, and six and four bytes for each row.
pub const MOST_BYTES: usize = 2 + 10 * MOST_ROWS;

const MOST_KWH: u32 = 4_000_000;

fn known_kind(kind: u8) -> bool
    ensures { result ≡ known_kind kind }
{
    Kind::try_from(kind).is_ok()
}

fn in_range(key: &Key) -> bool
    ensures { result ≡ in_range key.now }
{
    key.coordinator <= 63
        && (1..=25).contains(&key.hour)
        && key.interval <= 12
        && known_kind(key.kind)
}

fn ascending(previous: Option<Key>, key: &Key) -> bool
    ensures { result ≡ ascends previous key.now }
{
    previous.is_none_or(|before| before < *key)
}

// Questions 3, 4 and 5 of row `i`, after a row with the key `previous`.
#[tactic(auto, unfolding(questions::specs::Questions::ask, crate::specs::Questions::row_questions))]
fn check_row(i: usize, previous: Option<Key>, row: &Row) -> Result<(), RowFault>
    ensures { told row_fault result ≡ acceptance (row_questions i previous row.now) }
{
    if !ascending(previous, &row.key) {
        return Err(RowFault::NotAbove(i));
    }
    if !in_range(&row.key) {
        return Err(RowFault::OutOfRange(i));
    }
    if row.quantity.unsigned_abs() > MOST_KWH {
        return Err(RowFault::TooLarge(i));
    }
    Ok(())
}

// Question 1: are there two bytes, with a count of at most 2,048?
#[tactic(auto, unfolding(questions::specs::Questions::ask, crate::specs::Questions::count_refusal))]
fn read_count(bytes: &[u8]) -> Result<usize, SheetFault>
    ensures { told sheet_fault result ≡ answer (count_refusal bytes.now) (row_count bytes.now) }
{
    let [high, low, ..] = *bytes else {
        return Err(SheetFault::Count);
    };
    let count = usize::from(u16::from_be_bytes([high, low]));
    if count > MOST_ROWS {
        return Err(SheetFault::Count);
    }
    Ok(count)
}

// Questions 3, 4 and 5, asked of each row in turn.
fn check_rows(table: Table<'_>) -> Result<(), RowFault>
    ensures answered { told row_fault result ≡ acceptance (in_turn (row_count table.entry.bytes.now) (row_refusal table.entry.bytes.now)) }
    ensures parts { OnOk result (All PartIsByte (rows table.entry.bytes.now)) }
{
    let mut previous = None;
    for (i, row) in table.rows().enumerate() {
        check_row(i, previous, &row)?;
        previous = Some(row.key);
    }
    Ok(())
}

// The row count of a sheet that passes the five questions.
pub fn check(bytes: &[u8]) -> Result<usize, SheetFault>
    ensures answered { told sheet_fault result ≡ answer (sheet_refusal bytes.now) (row_count bytes.now) }
    ensures meaning { FirstNo bytes.now (told sheet_fault result) }
    ensures asked { FirstAskedNo bytes.now (told sheet_fault result) }
    ensures parts { OnOk result (All PartIsByte (rows bytes.now)) }
{
    let count = read_count(bytes)?;
    if bytes.len() != 2 + 10 * count {
        return Err(SheetFault::Length);
    }
    check_rows(Table { bytes, count })?;
    Ok(count)
}

// What `check` answers is the only answer that its meaning allows.
pub fn first_asked_no_decides()
    ensures { FirstAskedNoDecides }
{}
