// The commands that make objects: each made of its keys' values, and its values in the order of the table.
ghost use Rattle.std.specs.Prelude.{◌≡◌, IfOk};
ghost use Rattle.wm_command.specs.Made.{change_made};
ghost use Rattle.wm_command.specs.Shown.{values_of, verb_of};
ghost use Rattle.wm_command.specs.Table.{family_of};
ghost use Rattle.wm_command.specs.declared.verb.Family.TheVariants as family;

use crate::family::{cloned, given, held, made, shown, shown_as};
use crate::fields::{limit_value, text_or};
use crate::row::Special;
use crate::value::{Given, Value, Values, gathered};
use crate::verb::ChangeVerb;
use std::alloc::Global;
use wm_base::{Key, NoMemory};
use wm_law::{Command, Crtcls, Crtjobd, Crtjobq, Crtpgmref, Crtsbsd};

/// The fields of each command, in the order of the table.
macro_rules! objects {
    ($write:ident $given:tt $more:tt) => {
        $write! { $given $more
            Crtcls []: cls = object Cls, runpty = number Runpty, timeslice = number Timeslice, dftwait = limit Dftwait;
            Crtjobq []: jobq = object Jobq;
            Crtpgmref [path]: pgm = object Pgm, path = text Path;
            Crtjobd [rtgdta, rqsdta None]: jobd = object Jobd, jobq = object Jobq, jobpty = priority Jobpty,
                rtgdta = text Rtgdta, rqsdta = text Rqsdta None, hold = flag Hold;
            Crtsbsd []: sbsd = object Sbsd, maxjobs = limit Maxjobs;
        }
    };
}

/// The command with these values. An `Err` is want of memory.
#[tactic(auto, unfolding(crate::specs::Objects::crtcls, crate::specs::Objects::crtpgmref, crate::specs::Objects::crtjobd, crate::specs::Objects::crtsbsd))]
pub fn object_made(verb: ChangeVerb, values: &Values) -> Result<Command, NoMemory>
    requires { family_of verb ≡ family.Objects }
    ensures { IfOk result (λ c. c ≡ change_made verb values.now) }
{
    objects!(made (verb, values) {})
}

/// All keys but TEXT and POOLS, with their values. An `Err` is want of memory.
#[tactic(auto, unfolding(crate::specs::Objects::crtcls_values, crate::specs::Objects::crtpgmref_values, crate::specs::Objects::crtjobd_values, crate::specs::Objects::crtsbsd_values))]
pub fn object_values(alloc: Global, command: &Command) -> Result<Vec<Given>, NoMemory>
    requires { family_of (verb_of command.now) ≡ family.Objects }
    ensures { IfOk result (λ v. v.items ≡ values_of command.now) }
{
    objects!(shown (alloc, command) {})
}
