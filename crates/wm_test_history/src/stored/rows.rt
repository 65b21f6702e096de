// Rows, as text.
use anyhow::Result;
use wm_traits::Row;

fn write_row(sign: &str, row: &Row, answer: &mut String) -> Result<()> {
    writeln!(answer, "{sign}{}|{}|{}", row.tab, row.key, row.body)?;
    Ok(())
}

/// Adds the rows of all tables.
pub fn write_rows(rows: &[Row], answer: &mut String) -> Result<()> {
    for row in rows {
        write_row("", row, answer)?;
    }
    Ok(())
}

/// Adds the rows of one table.
pub fn write_table(rows: &[Row], tab: u8, answer: &mut String) -> Result<()> {
    for row in rows {
        if row.tab == tab {
            write_row("", row, answer)?;
        }
    }
    Ok(())
}

/// Adds those rows that aren't among the others, behind a sign.
pub fn write_missing(sign: &str, rows: &[Row], others: &[Row], answer: &mut String) -> Result<()> {
    for row in rows {
        if !others.contains(row) {
            write_row(sign, row, answer)?;
        }
    }
    Ok(())
}
