// The command of a name, made of its keys' values, and the values of a command's keys, by families.
ghost use Rattle.std.specs.Prelude.{◌≡◌, IfOk};
ghost use Rattle.wm_command.specs.Made.{change_made};
ghost use Rattle.wm_command.specs.Shown.{values_of, verb_of};
ghost use Rattle.wm_command.specs.Table.{change_word};

use crate::control::{control_made, control_values};
use crate::entries::{entry_made, entry_values};
use crate::jobs::{job_made, job_values};
use crate::objects::{object_made, object_values};
use crate::table::{change_word, family_of, verb_of};
use crate::value::{Given, Values};
use crate::verb::{ChangeVerb, Family};
use std::alloc::Global;
use wm_base::NoMemory;
use wm_law::Command;

/// The command with these values. An `Err` is want of memory.
pub fn change_made(verb: ChangeVerb, values: &Values) -> Result<Command, NoMemory>
    ensures { IfOk result (λ c. c ≡ change_made verb values.now) }
{
    match family_of(verb) {
        Family::Objects => object_made(verb, values),
        Family::Entries => entry_made(verb, values),
        Family::Jobs => job_made(verb, values),
        Family::Control => control_made(verb, values),
    }
}

/// All keys but CMD, TEXT and POOLS, with their values. An `Err` is want of memory.
pub fn values_of(alloc: Global, command: &Command) -> Result<Vec<Given>, NoMemory>
    ensures { IfOk result (λ v. v.items ≡ values_of command.now) }
{
    match family_of(verb_of(command)) {
        Family::Objects => object_values(alloc, command),
        Family::Entries => entry_values(alloc, command),
        Family::Jobs => job_values(alloc, command),
        Family::Control => control_values(alloc, command),
    }
}

/// The word of a command.
pub fn command_word(command: &Command) -> &'static str
    ensures { result.now ≡ change_word (verb_of command.now) }
{
    change_word(verb_of(command))
}
