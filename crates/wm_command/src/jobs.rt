// The commands that submit and control jobs: each made of its keys' values, and its values in the order of the table.
ghost use Rattle.std.specs.Prelude.{◌≡◌, IfOk};
ghost use Rattle.wm_command.specs.Made.{change_made};
ghost use Rattle.wm_command.specs.Shown.{values_of, verb_of};
ghost use Rattle.wm_command.specs.Table.{family_of};
ghost use Rattle.wm_command.specs.declared.verb.Family.TheVariants as family;

use crate::family::{cloned, given, held, made, shown, shown_as};
use crate::fields::{maybe, priority_value, text_or, word_or};
use crate::row::Special;
use crate::value::{Given, Value, Values, gathered};
use crate::verb::ChangeVerb;
use std::alloc::Global;
use wm_base::{Key, NoMemory};
use wm_law::{Chgjob, Command, Endjob, Hldjob, Rlsjob, Sbmjob};

/// The fields of each command, in the order of the table.
macro_rules! jobs {
    ($write:ident $given:tt $more:tt) => {
        $write! { $given $more
            Sbmjob [rqsdta Jobd, rtgdta Jobd]: rqsdta = request Rqsdta Jobd, job = name Job Jobd, jobd = object Jobd,
                jobq = object Jobq Jobd, jobpty = priority Jobpty Jobd, rtgdta = text Rtgdta Jobd,
                hold = flag Hold Jobd, scddate = date Scddate, scdtime = time Scdtime;
            Hldjob []: job = job Job;
            Rlsjob []: job = job Job;
            Chgjob []: job = job Job, jobpty = priority Jobpty Same, jobq = object Jobq Same,
                scddate = date Scddate Same, scdtime = time Scdtime Same;
            Endjob []: job = job Job, option = ending Option, delay = number Delay;
        }
    };
}

/// The command with these values. An `Err` is want of memory.
#[tactic(auto, unfolding(crate::specs::Jobs::sbmjob, crate::specs::Jobs::chgjob, crate::specs::Jobs::endjob))]
pub fn job_made(verb: ChangeVerb, values: &Values) -> Result<Command, NoMemory>
    requires { family_of verb ≡ family.Jobs }
    ensures { IfOk result (λ c. c ≡ change_made verb values.now) }
{
    jobs!(made (verb, values) {})
}

/// All keys but CMD, with their values. An `Err` is want of memory.
#[tactic(auto, unfolding(crate::specs::Jobs::sbmjob_values, crate::specs::Jobs::chgjob_values, crate::specs::Jobs::endjob_values))]
pub fn job_values(alloc: Global, command: &Command) -> Result<Vec<Given>, NoMemory>
    requires { family_of (verb_of command.now) ≡ family.Jobs }
    ensures { IfOk result (λ v. v.items ≡ values_of command.now) }
{
    jobs!(shown (alloc, command) {})
}
