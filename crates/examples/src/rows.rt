// Sheets made of rows.
use std::alloc::Global;

// A row of coordinator 0 in hour 1 and interval 1. The library's would repeat these in each example.
#[derive(Clone, Copy)]
pub struct Row {
    pub resource: u8,
    pub part: u8,
    // A byte, as the worked examples give it.
    pub kind: u8,
    pub quantity: i32,
}

fn push_keys(sheet: &mut Vec<u8>, rows: &[Row]) -> anyhow::Result<()> {
    for row in rows {
        sheet.extend_from_slice(&[0, row.resource, 1, 1, row.part, row.kind])?;
    }
    Ok(())
}

fn push_quantities(sheet: &mut Vec<u8>, rows: &[Row]) -> anyhow::Result<()> {
    for row in rows {
        sheet.extend_from_slice(&row.quantity.to_be_bytes())?;
    }
    Ok(())
}

// The sheet that holds the rows in their order.
pub fn sheet_of(heap: Global, rows: &[Row]) -> anyhow::Result<Vec<u8>> {
    let count = u16::try_from(rows.len())?;
    let mut sheet = Vec::new(heap);
    sheet.extend_from_slice(&count.to_be_bytes())?;
    push_keys(&mut sheet, rows)?;
    push_quantities(&mut sheet, rows)?;
    Ok(sheet)
}
