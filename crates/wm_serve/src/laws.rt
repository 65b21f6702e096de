// What follows from what a server leaves. They are no calls.
ghost use Rattle.wm_serve.specs.Laws.{BadRowsDontServe, ServersMakeChains};

use wm_tables::bad_rows_make_no_state;

/// Servers over one store that tells its rows make a chain, with runs among them, from the rows that each finds to those that
/// it leaves. So no job is started twice in all of them (`no_job_starts_twice` of `wm_tables`).
#[tactic(auto, using(crate::proofs::Linked::servers_make_chains))]
pub fn servers_make_chains()
    ensures { ServersMakeChains }
{}

/// Where one of the rows that the store tells isn't good, or a counter lacks, a server has no entry: it ends with 9, or before
/// that with 2, 5 or 6.
pub fn bad_rows_do_not_serve()
    ensures { BadRowsDontServe }
{
    bad_rows_make_no_state();
}
