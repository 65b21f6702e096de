// What table.txt asks:
//
// > table    the command table, which .ci/run compares with docs/FORMATS.md
use anyhow::{Result, ensure};
use wm_cases::Subject;
use wm_command::{
    CHANGES, READS, Row, RowDefault, ValueKind, change_rows, change_word, read_rows, read_word,
};

/// The command table.
#[derive(Drop)]
pub struct TableCases;

impl Subject for TableCases {
    fn begin(&mut self) -> Result<()> {
        Ok(())
    }

    fn answer(&mut self, question: &str, answer: &mut String) -> Result<()> {
        ensure!(question == "table", "no question: {question}");
        push_changes(answer)?;
        push_reads(answer)
    }
}

fn push_changes(page: &mut String) -> Result<()> {
    for verb in CHANGES {
        push_command(change_word(verb), change_rows(verb), page)?;
    }
    Ok(())
}

fn push_reads(page: &mut String) -> Result<()> {
    for verb in READS {
        push_command(read_word(verb), read_rows(verb), page)?;
    }
    Ok(())
}

fn push_command(word: &str, rows: &[Row], page: &mut String) -> Result<()> {
    if rows.is_empty() {
        writeln!(page, "| {word} | no keys | | |")?;
    }
    for row in rows {
        push_row(word, row, page)?;
    }
    Ok(())
}

fn push_row(word: &str, row: &Row, page: &mut String) -> Result<()> {
    let special = row.special.word();
    write!(page, "| {word} | {} | ", row.key)?;
    push_kind(row.kind, page)?;
    push_special(special, page)?;
    push_default(row.otherwise, special, page)
}

fn push_special(word: &str, page: &mut String) -> Result<()> {
    if !word.is_empty() {
        page.push_str(r" or \")?;
        page.push_str(word)?;
    }
    Ok(())
}

fn push_kind(kind: ValueKind, page: &mut String) -> Result<()> {
    match kind {
        ValueKind::Text(least, most) => write!(page, "text of {least} to {most}")?,
        ValueKind::Number(least, most) => write!(page, "{least} to {most}")?,
        _ => page.push_str(kind_word(kind))?,
    }
    Ok(())
}

fn kind_word(kind: ValueKind) -> &'static str {
    match kind {
        ValueKind::Object => "object",
        ValueKind::Program => "program",
        ValueKind::Name => "name",
        ValueKind::Path => "path",
        ValueKind::Flag => r"\*YES or \*NO",
        ValueKind::Ending => r"\*CNTRLD or \*IMMED",
        ValueKind::Job => "job",
        ValueKind::Compare => "compare value",
        ValueKind::Date => "date",
        ValueKind::Time => "time",
        ValueKind::Call => "CALL",
        ValueKind::Anything => "dropped",
        ValueKind::Text(..) | ValueKind::Number(..) => "",
    }
}

fn push_default(default: RowDefault, special: &str, page: &mut String) -> Result<()> {
    match default {
        RowDefault::Special => writeln!(page, r" | \{special} |")?,
        RowDefault::Number(n) => writeln!(page, " | {n} |")?,
        _ => writeln!(page, " | {} |", default_word(default))?,
    }
    Ok(())
}

fn default_word(default: RowDefault) -> &'static str {
    match default {
        RowDefault::Required => "required",
        RowDefault::Nothing => "none",
        RowDefault::Yes => r"\*YES",
        RowDefault::No => r"\*NO",
        RowDefault::Cntrld => r"\*CNTRLD",
        RowDefault::Qbatch => "QGPL/QBATCH",
        RowDefault::Qdftjobd => "QGPL/QDFTJOBD",
        RowDefault::Qcmdi => "'QCMDI'",
        RowDefault::Qcmdb => "'QCMDB'",
        RowDefault::Today | RowDefault::Now => r"\*CURRENT",
        RowDefault::Special | RowDefault::Number(_) => "",
    }
}
