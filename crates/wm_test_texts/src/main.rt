//! The cases of texts: names, numbers and refusals, logical lines, trees, CALLs, commands, their keys, the command table,
//! and the words of a command line.
//!
//! Each file of `data/` has the cases of one of these, and one module answers what the file asks. The module says at its
//! head which questions there are. An answer that isn't the wanted one is printed with both.
#![tactic(auto)]

mod asked;
mod base;
mod calls;
mod causes;
mod commands;
mod faults;
mod keys;
mod lines;
mod names;
mod numbers;
mod plans;
mod properties;
mod table;
mod trees;

use anyhow::Result;
use wm_cases::play;

fn main(rt: HostRuntime) -> Result<()> {
    play(&rt, "base.txt", &mut base::BaseCases::new(rt.alloc()))?;
    play(&rt, "lines.txt", &mut lines::LineCases::new(rt.alloc())?)?;
    play(&rt, "trees.txt", &mut trees::TreeCases::new(rt.alloc()))?;
    play(&rt, "calls.txt", &mut calls::CallCases::new(rt.alloc()))?;
    play(
        &rt,
        "commands.txt",
        &mut commands::CommandCases::new(rt.alloc()),
    )?;
    play(&rt, "keys.txt", &mut keys::KeyCases::new(rt.alloc()))?;
    play(&rt, "table.txt", &mut table::TableCases)?;
    play(&rt, "plans.txt", &mut plans::PlanCases::new(rt.alloc()))?;
    Ok(())
}
