// Laws of rows and of runs over one store, each for all. They are no calls.
ghost use Rattle.wm_tables.specs.ChainLaws.{BadRowsMakeNone, NoJobStartsTwice, OneRowIsBad, RowsMakeOneState, RunsStartOnce};

use wm_command::printed_command_is_read;

/// Good rows make one state, wherever local time is.
pub fn rows_make_one_state()
    ensures { RowsMakeOneState }
{
    printed_command_is_read();
}

/// Where a row isn't good, or a counter lacks, the rows make no state, and no other row is the first that isn't good.
pub fn bad_rows_make_no_state()
    ensures none { BadRowsMakeNone }
    ensures one { OneRowIsBad }
{
    printed_command_is_read();
}

/// From the state that rows make, a legal history orders each serial to start at most once: one whose job waits in the rows,
/// or one that isn't below their next serial. From the order on no job of it waits in the tables, and their next serial is
/// above it.
#[tactic(auto, using(crate::proofs::Starting::runs_start_once))]
pub fn runs_start_once()
    ensures { RunsStartOnce }
{}

/// Over all runs of one store, each of which finds the rows that the one before it has left, no job is started twice.
pub fn no_job_starts_twice()
    ensures { NoJobStartsTwice }
{
    rows_make_one_state();
}
