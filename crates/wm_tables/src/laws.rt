// Laws of tables and of restarts, each for all states and rows. They are no calls.
ghost use Rattle.wm_tables.specs.Laws.{NewRowsMakeTables, OnlyEndedJobsAreNew, OpeningIsInRange, RestartIsInRange, RestartIsPrestartSound, RestartIsSound, RestartIsWithinMaxuse, RowCommandsFit, StepKeepsRanges, TablesMakeTheirState};

/// A run opens with a sound state, whatever good rows it finds: with one that is sound of prestart jobs, too, and in which
/// each prestart entry lets its jobs be used, and no job was used more often.
pub fn restarts_are_sound()
    ensures sound { RestartIsSound }
    ensures prestart { RestartIsPrestartSound }
    ensures maxuse { RestartIsWithinMaxuse }
{}

/// The tables of a sound state in range are good rows, and a run that opens with them has of that state what a stop
/// leaves of it: its objects, its held queues, its jobs and its counters.
#[tactic(auto, using(crate::proofs::Rebuilt::tables_make_their_state))]
pub fn tables_make_their_state()
    ensures { TablesMakeTheirState }
{}

/// A run opens with a state that keeps its ranges, whether it finds rows or none.
pub fn restarts_are_in_range()
    ensures opening { OpeningIsInRange }
    ensures restart { RestartIsInRange }
{}

/// Every step of a call in range, at a moment that there is, keeps a sound state in range.
pub fn steps_keep_ranges()
    ensures { StepKeepsRanges }
{}

/// The rows that a run finds become the tables of its state where the new ones are put. All of the opening state are new; of
/// found rows only those of jobs that were active change.
pub fn new_rows_make_tables()
    ensures tables { NewRowsMakeTables }
    ensures ended { OnlyEndedJobsAreNew }
{}

/// A row's command that keeps the forms and ranges of the machine keeps those of the command table too, so its row is read.
pub fn row_commands_fit()
    ensures { RowCommandsFit }
{}
