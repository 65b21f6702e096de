// The command table.
ghost use Rattle.std.specs.Prelude.{◌≡◌};
ghost use Rattle.wm_command.specs.Shown.{verb_of};
ghost use Rattle.wm_command.specs.Table.{change_rows, change_word, family_of, read_rows, read_word};

use crate::row::{Default, Kind, Row, Special};
use crate::verb::{ChangeVerb, Family, ReadVerb};
use wm_base::Key;
use wm_law::Command;

/// The commands that change the state, in the order of the table, each with its word, its family and its rows, one for each key.
macro_rules! changes {
    ($($asked:tt)*) => {
        of_each! { ChangeVerb ($($asked)*)
            Crtcls CRTCLS: Objects [
                { key: Cls, kind: Object, special: Never, otherwise: Required }
                { key: Runpty, kind: Number(1, 99), special: Never, otherwise: Number(50) }
                { key: Timeslice, kind: Number(1, 9_999_999), special: Never, otherwise: Number(2_000) }
                { key: Dftwait, kind: Number(1, 9_999_999), special: Nomax, otherwise: Number(30) }
                { key: Text, kind: Anything, special: Never, otherwise: Nothing }
            ]
            Crtjobq CRTJOBQ: Objects [
                { key: Jobq, kind: Object, special: Never, otherwise: Required }
                { key: Text, kind: Anything, special: Never, otherwise: Nothing }
            ]
            Crtpgmref CRTPGMREF: Objects [
                { key: Pgm, kind: Program, special: Never, otherwise: Required }
                { key: Path, kind: Path, special: Never, otherwise: Required }
                { key: Text, kind: Anything, special: Never, otherwise: Nothing }
            ]
            Crtjobd CRTJOBD: Objects [
                { key: Jobd, kind: Object, special: Never, otherwise: Required }
                { key: Jobq, kind: Object, special: Never, otherwise: Qbatch }
                { key: Jobpty, kind: Number(1, 9), special: Never, otherwise: Number(5) }
                { key: Rtgdta, kind: Text(1, 80), special: Never, otherwise: Qcmdi }
                { key: Rqsdta, kind: Text(0, 1_000), special: None, otherwise: Special }
                { key: Hold, kind: Flag, special: Never, otherwise: No }
                { key: Text, kind: Anything, special: Never, otherwise: Nothing }
            ]
            Crtsbsd CRTSBSD: Objects [
                { key: Sbsd, kind: Object, special: Never, otherwise: Required }
                { key: Maxjobs, kind: Number(0, 1_000), special: Nomax, otherwise: Special }
                { key: Pools, kind: Anything, special: Never, otherwise: Nothing }
                { key: Text, kind: Anything, special: Never, otherwise: Nothing }
            ]
            Addjobqe ADDJOBQE: Entries [
                { key: Sbsd, kind: Object, special: Never, otherwise: Required }
                { key: Jobq, kind: Object, special: Never, otherwise: Required }
                { key: Maxact, kind: Number(0, 1_000), special: Nomax, otherwise: Number(1) }
                { key: Seqnbr, kind: Number(1, 9_999), special: Never, otherwise: Number(10) }
                { key: Maxpty1, kind: Number(0, 99), special: Nomax, otherwise: Special }
                { key: Maxpty2, kind: Number(0, 99), special: Nomax, otherwise: Special }
                { key: Maxpty3, kind: Number(0, 99), special: Nomax, otherwise: Special }
                { key: Maxpty4, kind: Number(0, 99), special: Nomax, otherwise: Special }
                { key: Maxpty5, kind: Number(0, 99), special: Nomax, otherwise: Special }
                { key: Maxpty6, kind: Number(0, 99), special: Nomax, otherwise: Special }
                { key: Maxpty7, kind: Number(0, 99), special: Nomax, otherwise: Special }
                { key: Maxpty8, kind: Number(0, 99), special: Nomax, otherwise: Special }
                { key: Maxpty9, kind: Number(0, 99), special: Nomax, otherwise: Special }
            ]
            Addrtge ADDRTGE: Entries [
                { key: Sbsd, kind: Object, special: Never, otherwise: Required }
                { key: Seqnbr, kind: Number(1, 9_999), special: Never, otherwise: Required }
                { key: Cmpval, kind: Compare, special: Never, otherwise: Required }
                { key: Pgm, kind: Program, special: Never, otherwise: Required }
                { key: Cls, kind: Object, special: Sbsd, otherwise: Special }
                { key: Maxact, kind: Number(0, 1_000), special: Nomax, otherwise: Special }
                { key: Poolid, kind: Number(1, 10), special: Never, otherwise: Number(1) }
            ]
            Addaje ADDAJE: Entries [
                { key: Sbsd, kind: Object, special: Never, otherwise: Required }
                { key: Job, kind: Name, special: Never, otherwise: Required }
                { key: Jobd, kind: Object, special: Never, otherwise: Qdftjobd }
            ]
            Addpje ADDPJE: Entries [
                { key: Sbsd, kind: Object, special: Never, otherwise: Required }
                { key: Pgm, kind: Program, special: Never, otherwise: Required }
                { key: Strjobs, kind: Flag, special: Never, otherwise: Yes }
                { key: Inljobs, kind: Number(1, 9_999), special: Never, otherwise: Number(3) }
                { key: Threshold, kind: Number(1, 9_999), special: Never, otherwise: Number(2) }
                { key: Adljobs, kind: Number(0, 999), special: Never, otherwise: Number(2) }
                { key: Maxjobs, kind: Number(1, 9_999), special: Nomax, otherwise: Special }
                { key: Maxuse, kind: Number(1, 1_000), special: Nomax, otherwise: Number(200) }
                { key: Wait, kind: Flag, special: Never, otherwise: Yes }
                { key: Cls, kind: Object, special: Sbsd, otherwise: Special }
                { key: Poolid, kind: Number(1, 10), special: Never, otherwise: Number(1) }
            ]
            Rmvjobqe RMVJOBQE: Entries [
                { key: Sbsd, kind: Object, special: Never, otherwise: Required }
                { key: Jobq, kind: Object, special: Never, otherwise: Required }
            ]
            Rmvrtge RMVRTGE: Entries [
                { key: Sbsd, kind: Object, special: Never, otherwise: Required }
                { key: Seqnbr, kind: Number(1, 9_999), special: Never, otherwise: Required }
            ]
            Rmvaje RMVAJE: Entries [
                { key: Sbsd, kind: Object, special: Never, otherwise: Required }
                { key: Job, kind: Name, special: Never, otherwise: Required }
            ]
            Rmvpje RMVPJE: Entries [
                { key: Sbsd, kind: Object, special: Never, otherwise: Required }
                { key: Pgm, kind: Program, special: Never, otherwise: Required }
            ]
            Strsbs STRSBS: Control [
                { key: Sbsd, kind: Object, special: Never, otherwise: Required }
            ]
            Endsbs ENDSBS: Control [
                { key: Sbs, kind: Name, special: Never, otherwise: Required }
                { key: Option, kind: Ending, special: Never, otherwise: Cntrld }
                { key: Delay, kind: Number(1, 99_999), special: Nolimit, otherwise: Special }
            ]
            Sbmjob SBMJOB: Jobs [
                { key: Cmd, kind: Call, special: Never, otherwise: Nothing }
                { key: Rqsdta, kind: Text(0, 1_000), special: Jobd, otherwise: Nothing }
                { key: Job, kind: Name, special: Jobd, otherwise: Special }
                { key: Jobd, kind: Object, special: Never, otherwise: Qdftjobd }
                { key: Jobq, kind: Object, special: Jobd, otherwise: Special }
                { key: Jobpty, kind: Number(1, 9), special: Jobd, otherwise: Special }
                { key: Rtgdta, kind: Text(1, 80), special: Jobd, otherwise: Qcmdb }
                { key: Hold, kind: Flag, special: Jobd, otherwise: Special }
                { key: Scddate, kind: Date, special: Never, otherwise: Today }
                { key: Scdtime, kind: Time, special: Never, otherwise: Now }
            ]
            Hldjob HLDJOB: Jobs [{ key: Job, kind: Job, special: Never, otherwise: Required }]
            Rlsjob RLSJOB: Jobs [{ key: Job, kind: Job, special: Never, otherwise: Required }]
            Chgjob CHGJOB: Jobs [
                { key: Job, kind: Job, special: Never, otherwise: Required }
                { key: Jobpty, kind: Number(1, 9), special: Same, otherwise: Special }
                { key: Jobq, kind: Object, special: Same, otherwise: Special }
                { key: Scddate, kind: Date, special: Same, otherwise: Special }
                { key: Scdtime, kind: Time, special: Same, otherwise: Special }
            ]
            Endjob ENDJOB: Jobs [
                { key: Job, kind: Job, special: Never, otherwise: Required }
                { key: Option, kind: Ending, special: Never, otherwise: Cntrld }
                { key: Delay, kind: Number(1, 999_999), special: Never, otherwise: Number(30) }
            ]
            Hldjobq HLDJOBQ: Control [
                { key: Jobq, kind: Object, special: Never, otherwise: Required }
            ]
            Rlsjobq RLSJOBQ: Control [
                { key: Jobq, kind: Object, special: Never, otherwise: Required }
            ]
            Clrjobq CLRJOBQ: Control [
                { key: Jobq, kind: Object, special: Never, otherwise: Required }
            ]
            Strpj STRPJ: Control [
                { key: Sbs, kind: Name, special: Never, otherwise: Required }
                { key: Pgm, kind: Program, special: Never, otherwise: Required }
            ]
            Endpj ENDPJ: Control [
                { key: Sbs, kind: Name, special: Never, otherwise: Required }
                { key: Pgm, kind: Program, special: Never, otherwise: Required }
                { key: Option, kind: Ending, special: Never, otherwise: Cntrld }
                { key: Delay, kind: Number(1, 99_999), special: Nolimit, otherwise: Special }
            ]
            Evoke EVOKE: Control [
                { key: Sbs, kind: Name, special: Never, otherwise: Required }
                { key: Pgm, kind: Program, special: Never, otherwise: Required }
            ]
            Enduse ENDUSE: Control [{ key: Job, kind: Job, special: Never, otherwise: Required }]
            Pwrdwnsys PWRDWNSYS: Control [
                { key: Option, kind: Ending, special: Never, otherwise: Cntrld }
                { key: Delay, kind: Number(1, 99_999), special: Nolimit, otherwise: Number(3_600) }
            ]
        }
    };
}

/// The commands that read, in the order of the table, each with its word and its rows.
macro_rules! reads {
    ($($asked:tt)*) => {
        of_each! { ReadVerb ($($asked)*)
            Wrkactjob WRKACTJOB []
            Wrksbmjob WRKSBMJOB []
            Wrksbs WRKSBS []
            Dsplog DSPLOG []
            Wrkjobq WRKJOBQ [{ key: Jobq, kind: Object, special: Never, otherwise: Required }]
            Dspjob DSPJOB [{ key: Job, kind: Job, special: Never, otherwise: Required }]
        }
    };
}

/// A row.
macro_rules! row {
    ({
        key: $key:ident,
        kind: $kind:ident $(($($bound:literal),*))?,
        special: $special:ident,
        otherwise: $otherwise:ident $(($number:literal))?
    }) => {
        Row {
            key: Key::$key,
            kind: Kind::$kind $(($($bound),*))?,
            special: Special::$special,
            otherwise: Default::$otherwise $(($number))?,
        }
    };
}

/// The list of the commands, or of one its word, its rows, its family or its name.
macro_rules! of_each {
    ($verbs:ident (list) $($verb:ident $word:ident $(: $family:ident)? [$($row:tt)*])*) => {
        [$($verbs::$verb),*]
    };
    ($verbs:ident (word $of:ident) $($verb:ident $word:ident $(: $family:ident)? [$($row:tt)*])*) => {
        match $of { $($verbs::$verb => stringify!($word),)* }
    };
    ($verbs:ident (rows $of:ident) $($verb:ident $word:ident $(: $family:ident)? [$($row:tt)*])*) => {
        match $of { $($verbs::$verb => &[$(row!($row)),*],)* }
    };
    ($verbs:ident (family $of:ident) $($verb:ident $word:ident: $family:ident [$($row:tt)*])*) => {
        match $of { $($verbs::$verb => Family::$family,)* }
    };
    ($verbs:ident (name $of:ident) $($verb:ident $word:ident $(: $family:ident)? [$($row:tt)*])*) => {
        match $of { $(Command::$verb(_) => $verbs::$verb,)* }
    };
}

/// The commands that change the state, in the order of the table.
pub const CHANGES: [ChangeVerb; 28] = changes!(list);

/// The commands that read, in the order of the table.
pub const READS: [ReadVerb; 6] = reads!(list);

/// The command's name.
#[tactic(auto, unfolding(crate::specs::Table::change_word))]
pub fn change_word(verb: ChangeVerb) -> &'static str
    ensures { result.now ≡ change_word verb }
{
    changes!(word verb)
}

/// The command's name.
#[tactic(auto, unfolding(crate::specs::Table::read_word))]
pub fn read_word(verb: ReadVerb) -> &'static str
    ensures { result.now ≡ read_word verb }
{
    reads!(word verb)
}

/// Which command it is.
pub fn verb_of(command: &Command) -> ChangeVerb
    ensures { result ≡ verb_of command.now }
{
    changes!(name command)
}

pub fn family_of(verb: ChangeVerb) -> Family
    ensures { result ≡ family_of verb }
{
    changes!(family verb)
}

/// The keys of a command in their order.
#[tactic(auto, unfolding(crate::specs::Table::change_rows))]
pub fn change_rows(verb: ChangeVerb) -> &'static [Row]
    ensures { result.now ≡ change_rows verb }
{
    changes!(rows verb)
}

/// The keys of a command in their order.
#[tactic(auto, unfolding(crate::specs::Table::read_rows))]
pub fn read_rows(verb: ReadVerb) -> &'static [Row]
    ensures { result.now ≡ read_rows verb }
{
    reads!(rows verb)
}
