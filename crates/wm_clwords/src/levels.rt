// The lists that are open, with the items so far.

ghost use Rattle.std.specs.Prelude.{◌≡◌, ◌≤◌, ◌+◌, ◌-◌, ◌∷◌, [], ◌++◌, length};
ghost use Rattle.wm_clwords.specs.Grammar.{Key, Open, Close};
ghost use Rattle.wm_clwords.specs.Reading.{mark};
ghost use Rattle.wm_clwords.specs.Items.{item_marks, key_mark, list_marks};

use crate::fault::ClFault;
use crate::tree::{Item, Span};
use std::alloc::Global;
use std::mem;
use wm_base::Text;

/// A list that is open: where it begins, its key, and what stands before it.
#[derive(Drop)]
pub struct Frame {
    pub start: u32,
    pub opening: u32,
    pub key: Option<Text>,
    pub before: Vec<Item>,
    ghost ordered: { start ≤ opening },
}

#[derive(Drop)]
pub struct Levels {
    pub frames: Vec<Frame>,
    pub items: Vec<Item>,
}

fn list_of(span: Span, items: Vec<Item>) -> Item
    ensures { item_marks result ≡ mark span.place (span.place + 1) Open ∷ list_marks items.items ++ mark (span.place + span.len - 1) (span.place + span.len) Close ∷ [] }
{
    Item::List(span, items)
}

fn keyed_of(span: Span, key: Text, items: Vec<Item>) -> Item
    ensures { item_marks result ≡ mark span.place (span.place + length key + 1) (Key key) ∷ list_marks items.items ++ mark (span.place + span.len - 1) (span.place + span.len) Close ∷ [] }
{
    Item::Keyed(span, key, items)
}

impl Levels {
    ghost use Rattle.std.specs.Prelude.{◌≡◌, ◌≢◌, ◌<◌, ◌≤◌, ◌+◌, ◌∷◌, [], ◌++◌, length, drop, nat_le, IsTrue, OnOk, IfOk, IfErr, Err, IfSome, IfNone};
    ghost use Rattle.std.specs.List.{list_all};
    ghost use Rattle.wm_clwords.specs.Grammar.{Word, Quoted, Key, Open, Close};
    ghost use Rattle.wm_clwords.specs.Reading.{mark, all_closed};
    ghost use Rattle.wm_clwords.specs.Items.{item_marks, key_mark, list_marks};
    ghost use Rattle.wm_clwords.specs.Levels.{level_marks, level_opens};

    pub fn new(alloc: Global) -> Levels
        ensures marks { level_marks result ≡ [] }
        ensures opens { level_opens result ≡ [] }
    {
        Levels {
            frames: Vec::new(alloc),
            items: Vec::new(alloc),
        }
    }

    /// How many lists are open.
    pub fn depth(&self) -> usize
        ensures { result ≡ length (level_opens self.now) }
    {
        self.frames.len()
    }

    /// Adds an item behind those of the innermost list.
    fn add(&mut self, item: Item) -> Result<(), ClFault>
        ensures marks { OnOk result (level_marks self.new ≡ level_marks self.old ++ item_marks item) }
        ensures opens { OnOk result (level_opens self.new ≡ level_opens self.old) }
        ensures err { IfErr result (λ e. e ≡ ClFault.NoMemory) }
    {
        self.items.push(item)?;
        Ok(())
    }

    /// Adds a word that stands from `start` to before `end`.
    pub fn add_word(&mut self, start: u32, end: u32, text: Text) -> Result<(), ClFault>
        requires { start ≤ end }
        ensures marks { OnOk result (level_marks self.new ≡ level_marks self.old ++ mark start end (Word text) ∷ []) }
        ensures opens { OnOk result (level_opens self.new ≡ level_opens self.old) }
        ensures err { IfErr result (λ e. e ≡ ClFault.NoMemory) }
    {
        let len = end - start;
        self.add(Item::Word(Span { place: start, len }, text))?;
        Ok(())
    }

    /// Adds a quoted text that stands from `start` to before `end`.
    pub fn add_quoted(&mut self, start: u32, end: u32, text: Text) -> Result<(), ClFault>
        requires { start ≤ end }
        ensures marks { OnOk result (level_marks self.new ≡ level_marks self.old ++ mark start end (Quoted text) ∷ []) }
        ensures opens { OnOk result (level_opens self.new ≡ level_opens self.old) }
        ensures err { IfErr result (λ e. e ≡ ClFault.NoMemory) }
    {
        let len = end - start;
        self.add(Item::Quoted(Span { place: start, len }, text))?;
        Ok(())
    }

    /// Begins a list with its parenthesis at `opening`, and with its key at `start`.
    pub fn open_list(
        &mut self,
        alloc: Global,
        start: u32,
        opening: u32,
        key: Option<Text>,
    ) -> Result<(), ClFault>
        requires { start ≤ opening }
        ensures marks { OnOk result (level_marks self.new ≡ level_marks self.old ++ key_mark start key ∷ []) }
        ensures opens { OnOk result (level_opens self.new ≡ opening ∷ level_opens self.old) }
        ensures err { IfErr result (λ e. e ≡ ClFault.NoMemory) }
    {
        let before = mem::replace(&mut self.items, Vec::new(alloc));
        self.frames.push(Frame {
            start,
            opening,
            key,
            before,
        })?;
        Ok(())
    }

    /// Takes the innermost open list out.
    pub fn pop_frame(&mut self) -> Option<Frame>
        ensures some { IfSome result (λ frame. self.old.frames.items ≡ self.new.frames.items ++ frame ∷ []) }
        ensures items { self.new.items.items ≡ self.old.items.items }
        ensures opens { IfSome result (λ frame. level_opens self.old ≡ frame.opening ∷ level_opens self.new) }
        ensures ordered { IfSome result (λ frame. frame.start ≤ frame.opening) }
        ensures none { IfNone result (level_opens self.old ≡ []) }
    {
        self.frames.pop()
    }

    /// The items, where every list is closed.
    pub fn into_items(mut self) -> Result<Vec<Item>, ClFault>
        ensures ok { IfOk result (λ items. (level_opens self ≡ []) × (list_marks items.items ≡ level_marks self)) }
        ensures err { IfErr result (λ e. all_closed (level_opens self) [] ≡ Err e) }
    {
        if let Some(frame) = self.pop_frame() {
            return Err(ClFault::OpenParen(frame.opening));
        }
        let Levels { frames: _, items } = self;
        Ok(items)
    }

    /// Ends the innermost list with a parenthesis at `place`.
    pub fn close_list(&mut self, place: u32) -> Result<(), ClFault>
        requires fits { place ≤ 8192 }
        requires behind { IsTrue (list_all (λ opening. nat_le opening place) (level_opens self.old)) }
        ensures marks { OnOk result (level_marks self.new ≡ level_marks self.old ++ mark place (place + 1) Close ∷ []) }
        ensures opens { OnOk result (level_opens self.new ≡ drop 1 (level_opens self.old)) }
        ensures some { OnOk result (0 < length (level_opens self.old)) }
        ensures err { IfErr result (λ e. e ≢ ClFault.NoMemory → (e ≡ ClFault.StrayParen place) × (level_opens self.old ≡ [])) }
    {
        let Some(frame) = self.pop_frame() else {
            return Err(ClFault::StrayParen(place));
        };
        let Frame {
            start,
            opening: _,
            key,
            before,
        } = frame;
        let items = mem::replace(&mut self.items, before);
        self.add(closed_item(start, place, key, items))?;
        Ok(())
    }
}

/// The item of a list from `start` to the parenthesis at `place`.
fn closed_item(start: u32, place: u32, key: Option<Text>, items: Vec<Item>) -> Item
    requires fits { place ≤ 8192 }
    requires ordered { start ≤ place }
    ensures { item_marks result ≡ key_mark start key ∷ list_marks items.items ++ mark place (place + 1) Close ∷ [] }
{
    let span = Span {
        place: start,
        len: place + 1 - start,
    };
    match key {
        None => list_of(span, items),
        Some(key) => keyed_of(span, key, items),
    }
}
