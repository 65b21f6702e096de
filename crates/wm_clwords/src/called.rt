// Reading a CALL.
ghost use Rattle.std.specs.Prelude.{◌≡◌, ◌≢◌, ◌⊎◌, ◌↔◌, ◌++◌, ◌∷◌, [], ℕ, codes, List, Some, None, IfOk, IfErr, IfSome, IfNone, MatchOption, MatchResult};
ghost use Rattle.std.specs.List.{list_all};
ghost use Rattle.wm_base.specs.declared.qname.QName.{QName};
ghost use Rattle.wm_clwords.specs.declared.fault.ClFault.{ClFault};
ghost use Rattle.wm_clwords.specs.declared.tree.Item.{Item};
ghost use Rattle.wm_clwords.specs.Grammar.{Token, Key, Close};
ghost use Rattle.wm_clwords.specs.Call.{IsCall, IsParm, IsParms, IsPgm, IsPositional, item_tokens, list_tokens};
ghost use Rattle.wm_clwords.specs.CallReading.{are_parms, is_value, text_of, texts_of};
ghost use Rattle.wm_clwords.specs.Called.{call_of, called, CalledIsGood, CalledIsSpelled, PrintedCallIsCalled, SpelledIsCalled};
ghost use Rattle.wm_clwords.specs.Printed.{PrintedCallIsSpelled};

use crate::command::read_command;
use crate::fault::ClFault;
use crate::reference::read_program;
use crate::tree::{Item, Tree};
use std::alloc::{AllocError, Global};
use thiserror::Error;
use wm_base::{Args, NoMemory, QName, Text};

/// How many values PARM has at the most.
const MAX_PARMS: usize = 40;

/// A CALL: its program and the values of PARM, none where there is no PARM.
#[derive(Drop)]
pub struct CallText {
    pub pgm: QName,
    pub parms: Args,
}

/// Why no CALL was read.
#[derive(Clone, Copy, Debug, Error)]
pub enum CallFault {
    #[error("no CALL")]
    NotCall,
    #[error("out of memory")]
    NoMemory,
}

impl From<AllocError> for CallFault {
    ghost use Rattle.std.specs.Prelude.{◌≡◌};
    ghost use Rattle.wm_clwords.specs.declared.called.CallFault.TheVariants.{NoMemory};

    ghost from_gives = { λ _ e. e ≡ NoMemory };

    fn from(_e: AllocError) -> CallFault {
        CallFault::NoMemory
    }
}

fn is_value(item: &Item) -> bool
    ensures { result ≡ is_value item.now }
{
    match item {
        Item::Word(..) => true,
        Item::Quoted(..) => true,
        Item::List(..) => false,
        Item::Keyed(..) => false,
    }
}

/// The characters of a value.
fn text_of(item: &Item) -> Option<&Text>
    ensures some { IfSome result (λ text. text_of item.now ≡ Some text.now) }
    ensures none { IfNone result (text_of item.now ≡ None) }
{
    match item {
        Item::Word(_, text) => Some(text),
        Item::Quoted(_, text) => Some(text),
        Item::List(..) => None,
        Item::Keyed(..) => None,
    }
}

fn all_values(items: &[Item]) -> bool
    ensures { result ≡ list_all is_value items.now }
{
    items.iter().all(|item| is_value(item))
}

fn are_parms(items: &[Item]) -> bool
    ensures { result ≡ are_parms items.now }
{
    !items.is_empty() && items.len() <= MAX_PARMS && all_values(items)
}

/// The list of an item that has this key.
fn keyed<'a>(key: &[u8], item: &'a Item) -> Option<&'a [Item]>
    ensures some { IfSome result (λ items. item_tokens item.now ≡ Key key.now ∷ list_tokens items.now ++ Close ∷ []) }
    ensures none { IfNone result ((rest : List Token) → item_tokens item.now ≢ Key key.now ∷ rest) }
{
    match item {
        Item::Word(..) => None,
        Item::Quoted(..) => None,
        Item::List(..) => None,
        Item::Keyed(_, word, items) => {
            if word.as_bytes() == key {
                Some(items.as_slice())
            } else {
                None
            }
        }
    }
}

/// The one item.
fn only(items: &[Item]) -> Option<&Item>
    ensures some { IfSome result (λ item. items.now ≡ item.now ∷ []) }
    ensures none { IfNone result ((item : Item) → items.now ≢ item ∷ []) }
{
    match items {
        [item] => Some(item),
        _ => None,
    }
}

/// The program of `PGM(q)`.
fn keyed_program(item: &Item) -> Option<QName>
    ensures some { IfSome result (λ pgm. IsPgm (item_tokens item.now) pgm) }
    ensures all { (pgm : QName) → IsPgm (item_tokens item.now) pgm → result ≡ Some pgm }
{
    let values = keyed(b"PGM", item)?;
    read_program(only(values)?)
}

/// The program, with its key or without.
fn program(item: &Item) -> Option<QName>
    ensures some { IfSome result (λ pgm. IsPositional (item_tokens item.now) pgm ⊎ IsPgm (item_tokens item.now) pgm) }
    ensures positional { (pgm : QName) → IsPositional (item_tokens item.now) pgm → result ≡ Some pgm }
    ensures keyed { (pgm : QName) → IsPgm (item_tokens item.now) pgm → result ≡ Some pgm }
{
    match keyed_program(item) {
        Some(pgm) => Some(pgm),
        None => read_program(item),
    }
}

/// The values of `PARM(t ..)`.
fn parms(item: &Item) -> Option<&[Item]>
    ensures some { IfSome result (λ values. IsParm (item_tokens item.now) (texts_of values.now)) }
    ensures all { (parms : List (List ℕ)) → IsParm (item_tokens item.now) parms
        → MatchOption result ⊥ (λ values. texts_of values.now ≡ parms) }
{
    let values = keyed(b"PARM", item)?;
    if are_parms(values) {
        Some(values)
    } else {
        None
    }
}

/// The program of `PGM(q)` alone.
fn program_alone(items: &[Item]) -> Option<QName>
    ensures some { IfSome result (λ pgm. IsPgm (list_tokens items.now) pgm) }
    ensures all { (pgm : QName) → IsPgm (list_tokens items.now) pgm → result ≡ Some pgm }
{
    keyed_program(only(items)?)
}

/// The values of `PARM(t ..)` alone, or none.
fn parms_alone(items: &[Item]) -> Option<&[Item]>
    ensures some { IfSome result (λ values. IsParms (list_tokens items.now) (texts_of values.now)) }
    ensures all { (parms : List (List ℕ)) → IsParms (list_tokens items.now) parms
        → MatchOption result ⊥ (λ values. texts_of values.now ≡ parms) }
{
    if items.is_empty() {
        return Some(items);
    }
    parms(only(items)?)
}

/// The texts of values.
fn texts(alloc: Global, values: &[Item]) -> Result<Args, NoMemory>
    ensures { IfOk result (λ texts. texts ≡ texts_of values.now) }
{
    // no room is left over, since the history keeps them
    let mut texts = Vec::with_capacity(alloc, values.len())?;
    for value in values {
        if let Some(text) = text_of(value) {
            texts.push(text.clone()?)?;
        }
    }
    Ok(Args::from(texts))
}

/// The CALL of a program with these values.
fn call_with(alloc: Global, pgm: QName, values: &[Item]) -> Result<CallText, CallFault>
    ensures ok { IfOk result (λ call. (call.pgm ≡ pgm) × (call.parms ≡ texts_of values.now)) }
    ensures err { IfErr result (λ e. e ≡ CallFault.NoMemory) }
{
    let parms = texts(alloc, values)?;
    Ok(CallText { pgm, parms })
}

/// Reads the items of a CALL, those behind the word CALL. Any other items are `NotCall`.
pub fn read_call_items(alloc: Global, items: &[Item]) -> Result<CallText, CallFault>
    ensures ok { IfOk result (λ call. IsCall (list_tokens items.now) call.pgm call.parms) }
    ensures call { (pgm : QName) (parms : List (List ℕ)) → IsCall (list_tokens items.now) pgm parms
        → MatchResult result (λ call. (call.pgm ≡ pgm) × (call.parms ≡ parms)) (λ e. e ≡ CallFault.NoMemory) }

    // The same by a function: what is read, and that there is no other CALL.
    ensures value { IfOk result (λ call. call_of items.now ≡ Some call) }
    ensures none { IfErr result (λ e. e ≡ CallFault.NotCall → call_of items.now ≡ None) }
{
    let Some((first, others)) = items.split_first() else {
        return Err(CallFault::NotCall);
    };
    if let Some(values) = parms(first) {
        let Some(pgm) = program_alone(others) else {
            return Err(CallFault::NotCall);
        };
        return call_with(alloc, pgm, values);
    }
    let Some(pgm) = program(first) else {
        return Err(CallFault::NotCall);
    };
    let Some(values) = parms_alone(others) else {
        return Err(CallFault::NotCall);
    };
    call_with(alloc, pgm, values)
}

/// Reads the CALL of a command's tree.
fn call_of_tree(alloc: Global, tree: &Tree) -> Result<CallText, CallFault>
    ensures ok { IfOk result (λ call. (tree.now.name ≡ codes "CALL") × IsCall (list_tokens tree.now.items.items) call.pgm call.parms) }
    ensures call { (pgm : QName) (parms : List (List ℕ)) → tree.now.name ≡ codes "CALL" → IsCall (list_tokens tree.now.items.items) pgm parms
        → MatchResult result (λ call. (call.pgm ≡ pgm) × (call.parms ≡ parms)) (λ e. e ≡ CallFault.NoMemory) }
{
    if tree.name.as_bytes() == b"CALL".as_slice() {
        read_call_items(alloc, &tree.items)
    } else {
        Err(CallFault::NotCall)
    }
}

/// Why a text that is no command is no CALL either.
fn call_fault(fault: ClFault) -> CallFault
    ensures { (result ≡ CallFault.NoMemory) ↔ (fault ≡ ClFault.NoMemory) }
{
    match fault {
        ClFault::NoMemory => CallFault::NoMemory,
        _ => CallFault::NotCall,
    }
}

/// Reads a CALL command, of at most 8,192 bytes: what the bytes call by the function `called`. Every text that calls
/// nothing is `NotCall`. That this is the CALL which the bytes spell is the law `call_has_one_meaning`.
pub fn read_call(alloc: Global, bytes: &[u8]) -> Result<CallText, CallFault>
    // What is read is what the bytes call.
    ensures value { IfOk result (λ call. called bytes.now ≡ Some call) }

    // NotCall is answered only where they call nothing.
    ensures none { IfErr result (λ e. e ≡ CallFault.NotCall → called bytes.now ≡ None) }
{
    match read_command(alloc, bytes) {
        Ok(tree) => call_of_tree(alloc, &tree),
        Err(fault) => Err(call_fault(fault)),
    }
}

/// A CALL has one meaning: what bytes call by the function `called` is the CALL that they spell by the grammar, and
/// each CALL that they spell is what they call. What is called has names, and its values are at most 40 texts.
pub fn call_has_one_meaning()
    ensures spelled { CalledIsSpelled }
    ensures each { SpelledIsCalled }
    ensures good { CalledIsGood }
{}

/// The text that is printed of a CALL is a CALL of the same program with the same values, so `read_call` reads it
/// as that.
#[tactic(auto, using(crate::proofs::CallPrinted::printed_call, crate::proofs::CallMeaning::printed_called))]
pub fn printed_call_is_read()
    ensures spelled { PrintedCallIsSpelled }
    ensures read { PrintedCallIsCalled }
{}
