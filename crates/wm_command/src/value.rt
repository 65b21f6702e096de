// The values of keys.
ghost use Rattle.std.specs.Prelude.{◌≡◌, IfOk};

use crate::row::Special;
use std::alloc::Global;
use std::marker::Model;
use wm_base::{Key, Name, NoMemory, QName, Text};
use wm_desc::Cmp;
use wm_law::{EndOption, JobRef};
use wm_when::{DateSpec, TimeSpec};

/// What a key has.
#[derive(Drop)]
pub enum Value {
    /// Nothing: it wasn't given, or what was given is dropped.
    Nothing,
    /// The special word of its row.
    Special(Special),
    Object(QName),
    Name(Name),
    Text(Text),
    Number(u32),
    Flag(bool),
    Ending(EndOption),
    Job(JobRef),
    Compare(Cmp),
    Date(DateSpec),
    Time(TimeSpec),
}

/// A key with its value.
#[derive(Drop)]
pub struct Given {
    pub key: Key,
    pub value: Value,
}

/// Keys with their values, in the order in which they came. A contract sees it as their list.
#[derive(Drop)]
pub struct Values {
    alloc: Global,
    items: Vec<Given>,
}

impl Model for Values {
    ghost use Rattle.std.specs.Prelude.{List};
    ghost use Rattle.wm_command.specs.declared.value.Given.{Given};

    ghost Value = { List Given };

    ghost view = { λ v. v.items.items };
}

impl Values {
    ghost use Rattle.std.specs.Prelude.{◌≡◌, ◌++◌, ◌∷◌, [], IfOk, OnOk, OnErr};

    /// No value, with room for so many. An `Err` is want of memory.
    pub fn with_room(alloc: Global, most: usize) -> Result<Values, NoMemory>
        ensures { IfOk result (λ values. values ≡ []) }
    {
        Ok(Values {
            alloc,
            items: Vec::with_capacity(alloc, most)?,
        })
    }

    /// Adds a key with its value at the end. An `Err` is want of memory, and they are as before.
    pub fn push(&mut self, key: Key, value: Value) -> Result<(), NoMemory>
        ensures ok { OnOk result (self.new ≡ self.old ++ record { key = key; value = value } ∷ []) }
        ensures err { OnErr result (self.new ≡ self.old) }
    {
        self.items.push(Given { key, value })?;
        Ok(())
    }

    pub fn as_slice(&self) -> &[Given]
        ensures { result.now ≡ self.now }
    {
        &self.items
    }

    /// Where they take memory from.
    pub fn allocator(&self) -> Global {
        self.alloc
    }
}

/// Values in one vector. An `Err` is want of memory.
pub fn gathered<T: Drop, const N: usize>(alloc: Global, items: [T; N]) -> Result<Vec<T>, NoMemory>
    ensures { IfOk result (λ v. v.items ≡ items) }
{
    Ok(Vec::from_array(alloc, items)?)
}
