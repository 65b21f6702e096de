// What follows from the history of a run. They are no calls.
ghost use Rattle.wm_run.specs.Laws.{BadRowsDontOpen, RunsMakeChains};

use wm_tables::bad_rows_make_no_state;

/// The runs over one store that tells its rows make a chain, from the rows that each finds to those that it leaves. So no job
/// is started twice in all of them.
#[tactic(auto, using(crate::proofs::Linked::runs_make_chains))]
pub fn runs_make_chains()
    ensures { RunsMakeChains }
{}

/// Where one of the rows that the store tells isn't good, or a counter lacks, a run doesn't open: it ends with 9, or before
/// that with 2, 5 or 6.
pub fn bad_rows_do_not_open()
    ensures { BadRowsDontOpen }
{
    bad_rows_make_no_state();
}
