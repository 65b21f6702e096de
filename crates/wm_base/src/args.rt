// The arguments of a program.
ghost use Rattle.std.specs.Prelude.{◌≡◌, ◌↔◌, ◌++◌, [], ◌∷◌, List, ℕ, IsTrue, OnOk, OnErr, length, nat_eq};

use crate::{NoMemory, Text};
use std::alloc::Global;
use std::marker::Model;

/// A list of texts.
#[derive(Drop)]
pub struct Args {
    items: Vec<Text>,
}

impl Model for Args {
    ghost Value = { List (List ℕ) };

    ghost view = { λ a. a.items.items };
}

impl Args {
    pub fn new(alloc: Global) -> Args
        ensures { result ≡ [] }
    {
        Args {
            items: Vec::new(alloc),
        }
    }

    pub fn push(&mut self, arg: Text) -> Result<(), NoMemory>
        ensures ok { OnOk result (self.new ≡ self.old ++ arg ∷ []) }
        ensures err { OnErr result (self.new ≡ self.old) }
    {
        self.items.push(arg)?;
        Ok(())
    }

    pub fn len(&self) -> usize
        ensures { result ≡ length self.now }
    {
        self.items.len()
    }

    pub fn is_empty(&self) -> bool
        ensures { IsTrue result ↔ (self.now ≡ []) }
    {
        self.items.is_empty()
    }

    pub fn as_slice(&self) -> &[Text]
        ensures { result.now ≡ self.now }
    {
        &self.items
    }
}

impl From<Vec<Text>> for Args {
    ghost from_gives = { λ items args. args ≡ items.items };

    fn from(items: Vec<Text>) -> Args {
        Args { items }
    }
}

impl From<Args> for Vec<Text> {
    ghost from_gives = { λ args items. items.items ≡ args };

    fn from(args: Args) -> Vec<Text> {
        args.items
    }
}

impl Clone for Args {
    ghost is_clone = { λ args copy. copy ≡ args };

    fn clone(&self) -> Result<Args, NoMemory> {
        Ok(Args {
            items: self.items.clone()?,
        })
    }
}
