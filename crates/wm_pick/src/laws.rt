// Laws of the choice: what its definitions come to, each for all states. They are no calls.
ghost use Rattle.wm_pick.specs.Heads.{HeadsAreFirst};

/// Where Waiting jobs have distinct places and priorities from 1 to 9, and entries stand by their numbers, the head of a
/// subsystem's first open entry is the first of all its jobs.
#[tactic(auto, using(crate::proofs::ByHeads::heads_are_first))]
pub fn heads_are_first()
    ensures { HeadsAreFirst }
{}
