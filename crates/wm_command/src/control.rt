// The commands that control subsystems, queues and prestart jobs: each made of its keys' values, and its values in the order of the table.
ghost use Rattle.std.specs.Prelude.{◌≡◌, IfOk};
ghost use Rattle.wm_command.specs.Made.{change_made};
ghost use Rattle.wm_command.specs.Shown.{values_of, verb_of};
ghost use Rattle.wm_command.specs.Table.{family_of};
ghost use Rattle.wm_command.specs.declared.verb.Family.TheVariants as family;

use crate::family::{given, held, made, shown, shown_as};
use crate::fields::{maybe, word_or};
use crate::row::Special;
use crate::value::{Given, Value, Values, gathered};
use crate::verb::ChangeVerb;
use std::alloc::Global;
use wm_base::{Key, NoMemory};
use wm_law::{
    Clrjobq, Command, Endpj, Endsbs, Enduse, EvokeCommand as Evoke, Hldjobq, Pwrdwnsys, Rlsjobq,
    Strpj, Strsbs,
};

/// The fields of each command, in the order of the table.
macro_rules! controls {
    ($write:ident $given:tt $more:tt) => {
        $write! { $given $more
            Strsbs []: sbsd = object Sbsd;
            Endsbs []: sbs = name Sbs, option = ending Option, delay = number Delay Nolimit;
            Hldjobq []: jobq = object Jobq;
            Rlsjobq []: jobq = object Jobq;
            Clrjobq []: jobq = object Jobq;
            Strpj []: sbs = name Sbs, pgm = object Pgm;
            Endpj []: sbs = name Sbs, pgm = object Pgm, option = ending Option, delay = number Delay Nolimit;
            Evoke []: sbs = name Sbs, pgm = object Pgm;
            Enduse []: job = job Job;
            Pwrdwnsys []: option = ending Option, delay = number Delay Nolimit;
        }
    };
}

/// The command with these values. An `Err` is want of memory.
#[tactic(auto, unfolding(crate::specs::Control::endsbs, crate::specs::Control::strpj, crate::specs::Control::endpj, crate::specs::Control::evoke, crate::specs::Control::pwrdwnsys))]
pub fn control_made(verb: ChangeVerb, values: &Values) -> Result<Command, NoMemory>
    requires { family_of verb ≡ family.Control }
    ensures { IfOk result (λ c. c ≡ change_made verb values.now) }
{
    controls!(made (verb, values) {})
}

/// All keys with their values. An `Err` is want of memory.
#[tactic(auto, unfolding(crate::specs::Control::endsbs_values, crate::specs::Control::strpj_values, crate::specs::Control::endpj_values, crate::specs::Control::evoke_values, crate::specs::Control::pwrdwnsys_values))]
pub fn control_values(alloc: Global, command: &Command) -> Result<Vec<Given>, NoMemory>
    requires { family_of (verb_of command.now) ≡ family.Control }
    ensures { IfOk result (λ v. v.items ≡ values_of command.now) }
{
    controls!(shown (alloc, command) {})
}
