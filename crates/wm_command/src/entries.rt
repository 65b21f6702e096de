// The commands that change subsystem descriptions: each made of its keys' values, and its values in the order of the table.
ghost use Rattle.std.specs.Prelude.{◌≡◌, IfOk};
ghost use Rattle.wm_command.specs.Made.{change_made};
ghost use Rattle.wm_command.specs.Shown.{values_of, verb_of};
ghost use Rattle.wm_command.specs.Table.{family_of};
ghost use Rattle.wm_command.specs.declared.verb.Family.TheVariants as family;

use crate::family::{cloned, given, held, made, shown, shown_as};
use crate::fields::limit_value;
use crate::value::{Given, Value, Values, gathered};
use crate::verb::ChangeVerb;
use std::alloc::Global;
use wm_base::{Key, NoMemory};
use wm_law::{Addaje, Addjobqe, Addpje, Addrtge, Command, Rmvaje, Rmvjobqe, Rmvpje, Rmvrtge};

/// The fields of each command, in the order of the table.
macro_rules! entries {
    ($write:ident $given:tt $more:tt) => {
        $write! { $given $more
            Addrtge [cmpval]: sbsd = object Sbsd, seqnbr = number Seqnbr, cmpval = compare Cmpval, pgm = object Pgm,
                cls = class Cls, maxact = limit Maxact, poolid = number Poolid;
            Addaje []: sbsd = object Sbsd, job = name Job, jobd = object Jobd;
            Addpje []: sbsd = object Sbsd, pgm = object Pgm, strjobs = flag Strjobs, inljobs = number Inljobs,
                threshold = number Threshold, adljobs = number Adljobs, maxjobs = limit Maxjobs,
                maxuse = limit Maxuse, wait = flag Wait, cls = class Cls, poolid = number Poolid;
            Rmvjobqe []: sbsd = object Sbsd, jobq = object Jobq;
            Rmvrtge []: sbsd = object Sbsd, seqnbr = number Seqnbr;
            Rmvaje []: sbsd = object Sbsd, job = name Job;
            Rmvpje []: sbsd = object Sbsd, pgm = object Pgm;
        }
    };
}

/// The command with these values. An `Err` is want of memory.
#[tactic(auto, unfolding(crate::specs::Entries::addjobqe, crate::specs::Entries::addrtge, crate::specs::Entries::addaje, crate::specs::Entries::addpje, crate::specs::Entries::rmvjobqe, crate::specs::Entries::rmvrtge, crate::specs::Entries::rmvaje, crate::specs::Entries::rmvpje))]
pub fn entry_made(verb: ChangeVerb, values: &Values) -> Result<Command, NoMemory>
    requires { family_of verb ≡ family.Entries }
    ensures { IfOk result (λ c. c ≡ change_made verb values.now) }
{
    entries!(made (verb, values) {
        ChangeVerb::Addjobqe => Ok(Command::Addjobqe(Addjobqe {
            sbsd: values.object(Key::Sbsd),
            jobq: values.object(Key::Jobq),
            maxact: values.limit(Key::Maxact),
            seqnbr: values.number(Key::Seqnbr),
            maxpty: values.maxpty(),
        })),
    })
}

/// All keys with their values. An `Err` is want of memory.
#[tactic(auto, unfolding(crate::specs::Entries::addjobqe_values, crate::specs::Entries::addrtge_values, crate::specs::Entries::addaje_values, crate::specs::Entries::addpje_values, crate::specs::Entries::rmvjobqe_values, crate::specs::Entries::rmvrtge_values, crate::specs::Entries::rmvaje_values, crate::specs::Entries::rmvpje_values))]
pub fn entry_values(alloc: Global, command: &Command) -> Result<Vec<Given>, NoMemory>
    requires { family_of (verb_of command.now) ≡ family.Entries }
    ensures { IfOk result (λ v. v.items ≡ values_of command.now) }
{
    entries!(shown (alloc, command) {
        Command::Addjobqe(c) => gathered(
            alloc,
            [
                given!(c sbsd object Sbsd),
                given!(c jobq object Jobq),
                given!(c maxact limit Maxact),
                given!(c seqnbr number Seqnbr),
                Given { key: Key::Maxpty1, value: limit_value(c.maxpty[0]) },
                Given { key: Key::Maxpty2, value: limit_value(c.maxpty[1]) },
                Given { key: Key::Maxpty3, value: limit_value(c.maxpty[2]) },
                Given { key: Key::Maxpty4, value: limit_value(c.maxpty[3]) },
                Given { key: Key::Maxpty5, value: limit_value(c.maxpty[4]) },
                Given { key: Key::Maxpty6, value: limit_value(c.maxpty[5]) },
                Given { key: Key::Maxpty7, value: limit_value(c.maxpty[6]) },
                Given { key: Key::Maxpty8, value: limit_value(c.maxpty[7]) },
                Given { key: Key::Maxpty9, value: limit_value(c.maxpty[8]) },
            ],
        ),
    })
}
