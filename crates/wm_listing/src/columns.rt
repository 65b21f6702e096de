// Columns of a line.
ghost use Rattle.std.specs.Prelude.{◌≡◌, ◌++◌, OnOk};
ghost use Rattle.wm_listing.specs.Columns.{blanks, padded, aligned};

use wm_base::NoMemory;

fn push_blanks(out: &mut Vec<u8>, count: usize) -> Result<(), NoMemory>
    ensures { OnOk result (out.new.items ≡ out.old.items ++ blanks count) }
{
    for _ in 0..count {
        out.push(b' ')?;
    }
    Ok(())
}

/// Adds a text with blanks behind it up to a width.
pub(crate) fn push_padded(out: &mut Vec<u8>, width: usize, text: &[u8]) -> Result<(), NoMemory>
    ensures { OnOk result (out.new.items ≡ out.old.items ++ padded width text.now) }
{
    out.extend_from_slice(text)?;
    push_blanks(out, width.saturating_sub(text.len()))?;
    Ok(())
}

/// Adds a text with blanks before it up to a width.
pub(crate) fn push_aligned(out: &mut Vec<u8>, width: usize, text: &[u8]) -> Result<(), NoMemory>
    ensures { OnOk result (out.new.items ≡ out.old.items ++ aligned width text.now) }
{
    push_blanks(out, width.saturating_sub(text.len()))?;
    out.extend_from_slice(text)?;
    Ok(())
}
