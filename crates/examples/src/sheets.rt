// Sheets that are refused, and one that is not.
use crate::rows::{Row, sheet_of};
use crate::verdict::verdict;
use questions::fault::Fault;
use sheet::check::check;
use sheet::fault::{RowFault, SheetFault};
use std::alloc::Global;

#[derive(Clone, Copy)]
struct SheetExample {
    name: &'static str,
    rows: &'static [Row],
    fault: SheetFault,
    question: u8,
}

const EXAMPLES: [SheetExample; 2] = [
    SheetExample {
        name: "quantity 4,000,001",
        rows: &[Row {
            resource: 7,
            part: 0,
            kind: 1,
            quantity: 4_000_001,
        }],
        fault: SheetFault::Row(RowFault::TooLarge(0)),
        question: 5,
    },
    SheetExample {
        name: "equal keys",
        rows: &[
            Row {
                resource: 7,
                part: 0,
                kind: 1,
                quantity: 1,
            },
            Row {
                resource: 7,
                part: 0,
                kind: 1,
                quantity: 2,
            },
        ],
        fault: SheetFault::Row(RowFault::NotAbove(1)),
        question: 3,
    },
];

// Checks the sheet that holds the rows. A fault is expected with its question's number.
fn show_check(
    rt: &HostRuntime,
    name: &str,
    rows: &[Row],
    expected: Result<usize, (SheetFault, u8)>,
) -> anyhow::Result<()> {
    let sheet = sheet_of(rt.alloc(), rows)?;
    let answer = check(sheet.as_slice());
    let told = answer.map_err(|fault| (fault, fault.question()));
    let verdict = verdict(told == expected);
    match answer {
        Ok(rows) => println!(rt; "{name}: {rows} rows: {verdict}")?,
        Err(fault) => println!(rt; "{name}: refused {fault}: {verdict}")?,
    }
    Ok(())
}

fn many_rows(heap: Global, count: u16) -> anyhow::Result<Vec<Row>> {
    let rows = (0..count)
        .map(|number| {
            let [resource, part] = number.to_be_bytes();
            Row {
                resource,
                part,
                kind: 1,
                quantity: 1,
            }
        })
        .collect(heap)?;
    Ok(rows)
}

pub fn show(rt: &HostRuntime) -> anyhow::Result<()> {
    let rows = many_rows(rt.alloc(), 2048)?;
    show_check(rt, "a sheet of 2048 rows", rows.as_slice(), Ok(2048))?;
    let rows = many_rows(rt.alloc(), 2049)?;
    let fault = Err((SheetFault::Count, 1));
    show_check(rt, "a sheet of 2049 rows", rows.as_slice(), fault)?;
    for example in EXAMPLES {
        let fault = Err((example.fault, example.question));
        show_check(rt, example.name, example.rows, fault)?;
    }
    Ok(())
}
