// The options of words, each in one word.
ghost use Rattle.std.specs.Prelude.{◌≡◌, ◌∷◌, None, Some, Err, true, IfOk, map, string_bytes};
ghost use Rattle.std.specs.List.{list_all};
ghost use Rattle.wm_plan.specs.Options.{has_value, is_option, is_value, is_whole, joined, with_value};

use crate::WordFault;
use std::alloc::Global;
use wm_base::NoMemory;

// Whether a word begins with two hyphens.
fn is_option(word: &str) -> bool
    ensures { result ≡ is_option word.now }
{
    match word.as_bytes() {
        [first, second, ..] => *first == b'-' && *second == b'-',
        _ => false,
    }
}

// Whether a word has the sign `=`.
fn has_value(word: &str) -> bool
    ensures { result ≡ has_value word.now }
{
    word.as_bytes().iter().any(|byte| *byte == b'=')
}

// Whether a word is an option with its value.
fn is_whole(word: &str) -> bool
    ensures { result ≡ is_whole word.now }
{
    is_option(word) && has_value(word)
}

// Whether a word may be the value of the option before it.
fn is_value(word: &str) -> bool
    ensures { result ≡ is_value word.now }
{
    match word.as_bytes() {
        [] => true,
        [first, ..] => *first != b'-',
    }
}

// An option and its value, in one word. An `Err` is want of memory.
fn with_value(alloc: Global, option: &str, value: &str) -> Result<String, NoMemory>
    ensures { IfOk result (λ word. string_bytes word ≡ with_value option.now value.now) }
{
    let mut word = String::from_str(alloc, option)?;
    word.push_str("=")?;
    word.push_str(value)?;
    Ok(word)
}

// The options of the words so far, each in one word, and the option that wants the next word as its value.
#[derive(Drop)]
struct Joining<'a> {
    options: Vec<String>,
    asked: Option<&'a str>,
}

impl<'a> Joining<'a> {
    ghost use Rattle.std.specs.Prelude.{◌≡◌, ◌∷◌, Err, List, None, OnOk, map, string_bytes, true, ℕ};
    ghost use Rattle.std.specs.List.{list_all};
    ghost use Rattle.std.specs.Option.{option_copied};
    ghost use Rattle.wm_plan.specs.Joining.{AsksOption, joined_from};
    ghost use Rattle.wm_plan.specs.Options.{is_whole};

    // Takes one word more. `Bad` comes where it is neither an option nor the value that one wants.
    fn take(&mut self, alloc: Global, word: &'a str) -> Result<(), WordFault>
        requires whole { list_all is_whole (map string_bytes self.old.options.items) ≡ true }
        requires asks { AsksOption (option_copied self.old.asked) }
        ensures ok { OnOk result ((words : List (List ℕ)) → joined_from (map string_bytes self.new.options.items) (option_copied self.new.asked) words
            ≡ joined_from (map string_bytes self.old.options.items) (option_copied self.old.asked) (word.entry.now ∷ words)) }
        ensures bad { result ≡ Err WordFault.Bad → (words : List (List ℕ)) →
            joined_from (map string_bytes self.old.options.items) (option_copied self.old.asked) (word.entry.now ∷ words) ≡ None }
        ensures whole { OnOk result (list_all is_whole (map string_bytes self.new.options.items) ≡ true) }
        ensures asks { OnOk result (AsksOption (option_copied self.new.asked)) }
    {
        match self.asked {
            Some(option) if is_value(word) => {
                self.options.push(with_value(alloc, option, word)?)?;
                self.asked = None;
                Ok(())
            }
            None if is_whole(word) => {
                self.options.push(String::from_str(alloc, word)?)?;
                Ok(())
            }
            None if is_option(word) => {
                self.asked = Some(word);
                Ok(())
            }
            _ => Err(WordFault::Bad),
        }
    }
}

/// The options of words, each in one word. `Bad` comes where the words are no options with their values.
pub fn joined(alloc: Global, words: &[String]) -> Result<Vec<String>, WordFault>
    ensures ok { IfOk result (λ options. joined (map string_bytes words.now) ≡ Some (map string_bytes options.items)) }
    ensures whole { IfOk result (λ options. list_all is_whole (map string_bytes options.items) ≡ true) }
    ensures bad { result ≡ Err WordFault.Bad → joined (map string_bytes words.now) ≡ None }
{
    let mut joining = Joining {
        options: Vec::new(alloc),
        asked: None,
    };
    for word in words {
        if let Err(fault) = joining.take(alloc, word.as_str()) {
            return Err(fault);
        }
    }
    match joining.asked {
        None => Ok(joining.options),
        Some(_) => Err(WordFault::Bad),
    }
}
