// The machine that a run opens with, and what it writes then.
ghost use Rattle.std.specs.Prelude.{◌≡◌, ℕ, ◌≤◌, [], length, Err, IfOk};
ghost use Rattle.wm_core.specs.Stored.{kept_state};
ghost use Rattle.wm_law.specs.Submitting.{serials_end};
ghost use Rattle.wm_traits.specs.Rows.{changed};
ghost use Rattle.wm_restart.specs.Parts.{parts_state};
ghost use Rattle.wm_restart.specs.declared.restart.RestartFault.TheVariants.{BadRow};
ghost use Rattle.wm_tables.specs.Opened.{PutsNew};
ghost use Rattle.wm_tables.specs.Restart.{IsBad, IsRestart};
ghost use Rattle.wm_tables.specs.Tables.{tables};

use crate::ended::job_changes;
use crate::first::first_changes;
use crate::reading::ReadParts;
use crate::restart::{RestartFault, read_rows};
use std::alloc::Global;
use wm_base::NoMemory;
use wm_core::{Core, Kept, Setup};
use wm_traits::{Row, RowChange};

/// What a run opens with.
#[derive(Drop)]
pub struct Opened {
    pub core: Core,
    /// What makes the found rows those of the machine's state.
    pub changes: Vec<RowChange>,
}

// What is kept of a state that rows make.
fn kept_of(read: ReadParts) -> Kept
    requires serial { read.next_serial ≤ serials_end }
    requires place { read.next_place ≤ serials_end }
    ensures { kept_state result ≡ parts_state read }
{
    Kept {
        objects: read.objects,
        held: read.held,
        jobs: read.jobs,
        next_number: read.next_number,
        next_serial: read.next_serial as u64,
        next_place: read.next_place as u64,
        offset: read.offset,
    }
}

// The machine of no rows.
fn open_none(alloc: Global, setup: &Setup) -> Result<Opened, NoMemory>
    ensures ok { IfOk result (λ opened. IsRestart setup.now.offset [] opened.core.state) }
    ensures changes { IfOk result (λ opened. changed opened.changes.items [] ≡ tables opened.core.state) }
    ensures new { IfOk result (λ opened. PutsNew [] opened.changes.items) }
{
    let changes = first_changes(alloc)?;
    let core = Core::opening(alloc, setup)?;
    Ok(Opened { core, changes })
}

// The machine of one row or more.
fn open_found(alloc: Global, rows: &[Row], setup: &Setup) -> Result<Opened, RestartFault>
    requires { 1 ≤ length rows.now }
    ensures ok { IfOk result (λ opened. IsRestart setup.now.offset rows.now opened.core.state) }
    ensures changes { IfOk result (λ opened. changed opened.changes.items rows.now ≡ tables opened.core.state) }
    ensures new { IfOk result (λ opened. PutsNew rows.now opened.changes.items) }
    ensures bad { (n : ℕ) → result ≡ Err (BadRow n) → IsBad setup.now.offset rows.now n }
{
    match read_rows(alloc, rows, setup.offset) {
        Err(fault) => Err(fault),
        Ok(reading) => {
            let read = reading.parts();
            let changes = job_changes(alloc, rows, &read.jobs)?;
            let core = Core::stored(alloc, kept_of(read))?;
            Ok(Opened { core, changes })
        }
    }
}

/// The machine that a run opens with, and what it writes then: that of the opening commands where there are no rows, with all
/// rows of it; else that of the rows, with those of jobs that were active. An `Err` is want of memory, or more jobs than a
/// machine takes, or has the number of the first row that isn't good.
pub fn open_rows(alloc: Global, rows: &[Row], setup: &Setup) -> Result<Opened, RestartFault>
    ensures ok { IfOk result (λ opened. IsRestart setup.now.offset rows.now opened.core.state) }
    // Where its changes are made, the found rows are those of the machine's state; and no row is put that stands there.
    ensures changes { IfOk result (λ opened. changed opened.changes.items rows.now ≡ tables opened.core.state) }
    ensures new { IfOk result (λ opened. PutsNew rows.now opened.changes.items) }
    ensures bad { (n : ℕ) → result ≡ Err (BadRow n) → IsBad setup.now.offset rows.now n }
{
    if rows.is_empty() {
        let opened = open_none(alloc, setup)?;
        Ok(opened)
    } else {
        open_found(alloc, rows, setup)
    }
}
