// The children that are out, as the spawner knows them.
ghost use Rattle.std.specs.Prelude.{◌≡◌, ◌↔◌, ◌==◌, IsTrue, Contains, IfOk, position};
ghost use Rattle.std.specs.List.{list_any};
ghost use Rattle.wm_children.specs.Kills.{LeavesNothing};
ghost use Rattle.wm_children.specs.Programs.{serials_of};

use wm_base::Serial;
use wm_traits::Failed;

/// A child that is out: its job, and its number in the system.
#[derive(Clone, Copy)]
pub struct Started {
    pub serial: Serial,
    pub number: u32,
}

// Whether a kill that answered so leaves nothing to kill. There is no such child any more where a thread has waited for it:
// before the call, ECHILD, or within it, ESRCH.
fn leaves_nothing(code: i32, errno: i32) -> bool
    ensures { IsTrue result ↔ LeavesNothing code errno }
{
    code == 0 || errno == libc::ECHILD || errno == libc::ESRCH
}

// Kills a child by its number. Where it has ended there is nothing to kill.
fn kill_number(number: u32) -> Result<(), Failed> {
    let code = os::kill_child(number.cast_signed());
    if leaves_nothing(code, os::errno()) {
        Ok(())
    } else {
        Err(Failed)
    }
}

fn is_out(children: &[Started], job: Serial) -> bool
    ensures { result ≡ list_any (λ serial. serial == job) (serials_of children.now) }
{
    children
        .iter()
        .map(|child| child.serial)
        .any(|serial| serial == job)
}

/// Kills a job's child, and answers whether it is out.
pub fn kill_child(children: &[Started], job: Serial) -> Result<bool, Failed>
    ensures { IfOk result (λ was_out. IsTrue was_out ↔ Contains (serials_of children.now) job) }
{
    for child in children {
        if child.serial == job {
            kill_number(child.number)?;
        }
    }
    Ok(is_out(children, job))
}

/// The place of a job's child.
pub fn place_of(children: &[Started], job: Serial) -> Option<usize>
    ensures { result ≡ position (λ child. child.serial == job) children.now }
{
    children.iter().position(|child| child.serial == job)
}
