// What stands at an item.
ghost use Rattle.std.specs.Prelude.{◌≡◌, Some};
ghost use Rattle.std.specs.Option.{option_copied};
ghost use Rattle.wm_command.specs.Written.{place_of, word_of, text_of, is_bare, key_of, listed, is_word};

use wm_base::Text;
use wm_clwords::Item;

/// Where an item begins.
pub fn place_of(item: &Item) -> u32
    ensures { result ≡ place_of item.now }
{
    match item {
        Item::Word(span, _) | Item::Quoted(span, _) | Item::List(span, _) => span.place,
        Item::Keyed(span, _, _) => span.place,
    }
}

/// The word that an item is.
pub fn word_of(item: &Item) -> Option<&Text>
    ensures { option_copied result ≡ word_of item.now }
{
    match item {
        Item::Word(_, text) => Some(text),
        _ => None,
    }
}

/// The characters of a word or of a text in apostrophes.
pub fn text_of(item: &Item) -> Option<&Text>
    ensures { option_copied result ≡ text_of item.now }
{
    match item {
        Item::Word(_, text) | Item::Quoted(_, text) => Some(text),
        _ => None,
    }
}

/// Whether an item is a word, and no text in apostrophes.
pub fn is_bare(item: &Item) -> bool
    ensures { result ≡ is_bare item.now }
{
    word_of(item).is_some()
}

/// The key of an item.
pub fn key_of(item: &Item) -> Option<&Text>
    ensures { option_copied result ≡ key_of item.now }
{
    match item {
        Item::Keyed(_, key, _) => Some(key),
        _ => None,
    }
}

/// The values behind the key of an item.
pub fn listed(item: &Item) -> &[Item]
    ensures { result.now ≡ listed item.now }
{
    match item {
        Item::Keyed(_, _, items) => items,
        _ => &[],
    }
}

/// Whether an item is this word.
pub fn is_word(item: &Item, word: &[u8]) -> bool
    ensures { result ≡ is_word item.now word.now }
{
    match word_of(item) {
        Some(text) => text.as_bytes() == word,
        None => false,
    }
}
