// Settling's third part over the started subsystems, in the order of their simple names.
ghost use Rattle.std.specs.Prelude.{◌≡◌, filter, if◌then◌else◌, not, position, IfOk, OnOk};
ghost use Rattle.std.specs.Ordering.{is_lt, nat_cmp};
ghost use Rattle.std.specs.Cmp.Lexicographic.{slice_cmp};
ghost use Rattle.wm_law.specs.Choice.{is_sbs_active};
ghost use Rattle.wm_law.specs.Supply.{in_order, inserted};

use crate::Machine;
use std::alloc::Global;
use wm_base::{NoMemory, QName};
use wm_law::{Sbs, SbsPhase};

fn is_sbs_active(phase: &SbsPhase) -> bool
    ensures { result ≡ is_sbs_active phase.now }
{
    match phase {
        SbsPhase::Active => true,
        SbsPhase::Ending(_) | SbsPhase::Now => false,
    }
}

// The place of the first that doesn't come before a name, in the order of simple names.
fn place_of(names: &[QName], name: &QName) -> Option<usize>
    ensures { result ≡ position (λ other. not (is_lt (slice_cmp nat_cmp other.name name.now.name))) names.now }
{
    names.iter().position(|other| !(other.name < name.name))
}

// Adds a name, before the first that doesn't come before it in the order of simple names.
fn insert_name(names: &mut Vec<QName>, name: QName) -> Result<(), NoMemory>
    ensures { OnOk result (names.new.items ≡ inserted name names.old.items) }
{
    let at = place_of(names, &name).unwrap_or(names.len());
    names.insert(at, name)?;
    Ok(())
}

// Adds the name of a subsystem, where it is Active.
fn add_active(names: &mut Vec<QName>, sbs: &Sbs) -> Result<(), NoMemory>
    ensures { OnOk result (names.new.items ≡ (if is_sbs_active sbs.now.phase then inserted sbs.now.sbsd names.old.items else names.old.items)) }
{
    if is_sbs_active(&sbs.phase) {
        insert_name(names, sbs.sbsd)?;
    }
    Ok(())
}

// The names of the Active subsystems, in the order of their simple names.
fn active_names(alloc: Global, started: &[Sbs]) -> Result<Vec<QName>, NoMemory>
    ensures { IfOk result (λ names. names.items ≡ in_order (filter (λ b. is_sbs_active b.phase) started.now)) }
{
    let mut names = Vec::new(alloc);
    for at in (0..started.len()).rev() {
        add_active(&mut names, &started[at])?;
    }
    Ok(names)
}

impl Machine {
    ghost use Rattle.std.specs.Prelude.{◌≡◌, fold, OnOk};
    ghost use Rattle.wm_law.specs.Supply.{supply, supply_in};
    ghost use Rattle.wm_core.specs.Aside.{aside_of};

    fn supply_all(&mut self, alloc: Global, names: &[QName]) -> Result<(), NoMemory>
        ensures ok { OnOk result (self.new.state ≡ fold supply_in self.old.state names.now) }
        ensures aside { aside_of self.new.state ≡ aside_of self.old.state }
        ensures marks { self.new.marks ≡ self.old.marks }
    {
        for sbs in names {
            self.supply_in(alloc, sbs)?;
        }
        Ok(())
    }

    /// Waiting requests go to idle prestart jobs, and prestart entries get the jobs that they lack. An `Err` is want of memory,
    /// perhaps in the middle.
    pub(crate) fn supply(&mut self, alloc: Global) -> Result<(), NoMemory>
        ensures ok { OnOk result (self.new.state ≡ supply self.old.state) }
        ensures aside { aside_of self.new.state ≡ aside_of self.old.state }
        ensures marks { self.new.marks ≡ self.old.marks }
    {
        let names = active_names(alloc, self.started.as_slice())?;
        self.supply_all(alloc, &names)?;
        Ok(())
    }
}
