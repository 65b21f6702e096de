// What words of questions say.
use anyhow::{Context, Result};
use wm_base::{Name, QName};

/// The first word, and what stands behind it.
pub fn first_word(words: &str) -> (&str, &str) {
    match words.split_once(' ') {
        None => (words, ""),
        Some(split) => split,
    }
}

pub fn name_of(word: &str) -> Result<Name> {
    let name = Name::read(word.as_bytes()).context(format_args!("{word}"))?;
    Ok(name)
}

/// `LIB/NAME`.
pub fn qname_of(word: &str) -> Option<QName> {
    let (lib, name) = word.split_once('/')?;
    Some(QName {
        lib: Name::read(lib.as_bytes()).ok()?,
        name: Name::read(name.as_bytes()).ok()?,
    })
}

pub fn number_of(word: &str) -> Result<u64> {
    let number = word.parse::<u64>().context(format_args!("{word}"))?;
    Ok(number)
}
