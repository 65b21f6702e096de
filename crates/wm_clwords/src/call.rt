// The CALL that a job's request holds.
ghost use Rattle.std.specs.Prelude.{◌≡◌, ◌≤◌, ◌++◌, length, IfOk, OnOk};
ghost use Rattle.std.specs.List.{flat_map};
ghost use Rattle.wm_base.specs.Name.{IsName};
ghost use Rattle.wm_base.specs.QName.{qname_text};
ghost use Rattle.wm_base.specs.Text.{IsText};
ghost use Rattle.wm_clwords.specs.Call.{SpellsCall};
ghost use Rattle.wm_clwords.specs.CallText.{call_text, next_value, parms_text};
ghost use Rattle.wm_clwords.specs.Printed.{AreTexts};
ghost use Rattle.wm_clwords.specs.Quote.{doubled, quoted};

use std::alloc::Global;
use wm_base::{Args, Name, NoMemory, QName, Text};

/// The bytes of a name, which are a text.
fn name_bytes(name: &Name) -> &[u8]
    ensures value { result.now ≡ name.now }
    ensures text { IsText result.now }
    ensures name { IsName name.now }
{
    name.as_bytes()
}

/// Adds a qualified name.
pub fn push_qname(out: &mut Text, name: &QName) -> Result<(), NoMemory>
    ensures ok { OnOk result (out.new ≡ out.old ++ qname_text name.now) }
    ensures lib { OnOk result (IsName name.now.lib) }
    ensures name { OnOk result (IsName name.now.name) }
{
    out.push_bytes(name_bytes(&name.lib))?;
    out.push_bytes(b"/")?;
    out.push_bytes(name_bytes(&name.name))?;
    Ok(())
}

/// Adds a text with each apostrophe doubled.
fn push_doubled(out: &mut Text, text: &Text) -> Result<(), NoMemory>
    ensures ok { OnOk result (out.new ≡ out.old ++ doubled text.now) }
    ensures text { IsText text.now }
{
    for byte in text.as_bytes() {
        if *byte == b'\'' {
            out.push_bytes(b"''")?;
        } else {
            out.push_bytes(&[*byte])?;
        }
    }
    Ok(())
}

/// Adds a text in apostrophes.
pub fn push_quoted(out: &mut Text, text: &Text) -> Result<(), NoMemory>
    ensures ok { OnOk result (out.new ≡ out.old ++ quoted text.now) }
    ensures text { OnOk result (IsText text.now) }
{
    out.push_bytes(b"'")?;
    push_doubled(out, text)?;
    out.push_bytes(b"'")?;
    Ok(())
}

/// Adds the values after the first.
fn push_others(out: &mut Text, parms: &[Text]) -> Result<(), NoMemory>
    ensures ok { OnOk result (out.new ≡ out.old ++ flat_map next_value parms.now) }
    ensures texts { OnOk result (AreTexts parms.now) }
{
    for parm in parms {
        out.push_bytes(b" ")?;
        push_quoted(out, parm)?;
    }
    Ok(())
}

/// Adds the values of PARM, if there are any.
fn push_parms(out: &mut Text, parms: &[Text]) -> Result<(), NoMemory>
    ensures ok { OnOk result (out.new ≡ out.old ++ parms_text parms.now) }
    ensures texts { OnOk result (AreTexts parms.now) }
{
    let Some((first, others)) = parms.split_first() else {
        return Ok(());
    };
    out.push_bytes(b" PARM(")?;
    push_quoted(out, first)?;
    push_others(out, others)?;
    out.push_bytes(b")")?;
    Ok(())
}

/// The canonical text of a CALL of this program with these values: the form that a job's request is kept in.
pub fn call_text(alloc: Global, pgm: &QName, parms: &Args) -> Result<Text, NoMemory>
    ensures text { IfOk result (λ text. text ≡ call_text pgm.now parms.now) }

    // The text is a CALL of the same program with the same values, so `read_call` reads it as that.
    ensures spells { IfOk result (λ text. length parms.now ≤ 40 → length text ≤ 8192 → SpellsCall text pgm.now parms.now) }
{
    let mut text = Text::new(alloc);
    text.push_bytes(b"CALL PGM(")?;
    push_qname(&mut text, pgm)?;
    text.push_bytes(b")")?;
    push_parms(&mut text, parms.as_slice())?;
    Ok(text)
}
