// What a command's text is read as.

use wm_base::{Name, Text};

/// Where an item stands in the text.
#[derive(Clone, Copy)]
pub struct Span {
    /// The place of its first byte, counted from 0.
    pub place: u32,
    /// How many bytes it has, apostrophes and parentheses among them.
    pub len: u32,
}

/// An item of a command. Words and keys are in capitals.
#[derive(Drop)]
pub enum Item {
    Word(Span, Text),
    /// The text without its apostrophes, where a doubled one stands for one.
    Quoted(Span, Text),
    List(Span, Vec<Item>),
    /// A word with a list just behind it.
    Keyed(Span, Text, Vec<Item>),
}

/// A command: its name, and the items behind it.
#[derive(Drop)]
pub struct Tree {
    pub name: Name,
    pub items: Vec<Item>,
}
