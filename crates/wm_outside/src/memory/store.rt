// A store in memory.
ghost use Rattle.std.specs.Prelude.{◌≡◌, ◌↔◌, ◌<◌, [], ◌∷◌, map, string_bytes, Some, None, IsErr, IfOk, IfSome, OnErr, IsErrOf};
ghost use Rattle.wm_traits.specs.Cause.{HasKeepCause, PassesOn, raised};
ghost use Rattle.wm_traits.specs.Told.{Grows, told_if};
ghost use Rattle.wm_traits.specs.declared.fault.KeepFault.TheVariants.{Failed, NoMemory};

use super::keeper::MemKeeper;
use wm_traits::{KeepFault, Keeper, Store};

/// A store of one keeper in memory. Its opening fails exactly while the keeper is out. Where memory is wanting to record a
/// path, it ceases to tell the paths, and goes on.
#[derive(Drop)]
pub struct MemStore {
    keeper: Option<MemKeeper>,
    faults: u64,
    opened: Vec<String>,
    tells: bool,
}

// Records a path, while it tells.
fn record_path(opened: &mut Vec<String>, tells: &mut bool, path: &str)
    ensures { Grows (told_if tells.old (map string_bytes opened.old.items)) (told_if tells.new (map string_bytes opened.new.items)) (path.now ∷ []) }
{
    if !*tells {
        return;
    }
    match String::from_str(*opened.allocator(), path) {
        Ok(path) => *tells = opened.push(path).is_ok(),
        Err(_) => *tells = false,
    }
}

impl MemStore {
    ghost use Rattle.wm_outside.specs.Keeping.{store_keeper, store_faults, store_opened};

    /// A store that has this keeper.
    pub fn new(keeper: MemKeeper) -> MemStore
        ensures keeper { store_keeper result ≡ Some keeper }
        ensures faults { store_faults result ≡ 0 }
        ensures opened { store_opened result ≡ Some [] }
    {
        let opened = Vec::new(keeper.alloc());
        MemStore {
            keeper: Some(keeper),
            faults: 0,
            opened,
            tells: true,
        }
    }

    /// How many openings failed, and how many keepers came back that had failed.
    pub fn faults(&self) -> u64
        ensures { result ≡ store_faults self.now }
    {
        self.faults
    }
}

impl Store for MemStore {
    ghost use Rattle.wm_outside.specs.Keeping.{keeper_tables, keeper_trail, keeper_calls, store_keeper, store_tables, store_trail, store_faults, store_opened};
    ghost use Rattle.wm_outside.specs.Calls.{opened_again};
    ghost use Rattle.wm_outside.specs.InOrder.{kept_in_order, kept_with_tables};

    type K = MemKeeper;

    ghost faults = { store_faults };

    ghost tables = { store_tables };

    ghost trail = { store_trail };

    ghost opened = { store_opened };

    fn open(&mut self, path: &str) -> Result<MemKeeper, KeepFault>
        ensures exactly { IsErr result ↔ (store_keeper self.old ≡ None) }
        ensures failed { IsErrOf result NoMemory → ⊥ }
        ensures tables { IfOk result (λ keeper. store_tables self.old ≡ Some (keeper_tables keeper)) }
        ensures trail { IfOk result (λ keeper. store_trail self.old ≡ Some (keeper_trail keeper)) }
        ensures calls { IfOk result (λ keeper. IfSome (store_keeper self.old) (λ kept. keeper_calls keeper ≡ opened_again (keeper_calls kept))) }
        ensures opened { Grows (store_opened self.old) (store_opened self.new) (path.now ∷ []) }
        ensures out { store_keeper self.new ≡ None }
        ensures cause { HasKeepCause (store_faults self.old) (store_faults self.new) result }
        ensures err_faults { OnErr result (store_faults self.new ≡ raised (store_faults self.old)) }
    {
        record_path(&mut self.opened, &mut self.tells, path);
        match self.keeper.take() {
            Some(keeper) => Ok(keeper.opened()),
            None => {
                self.faults = self.faults.saturating_add(1);
                Err(KeepFault::Failed)
            }
        }
    }

    fn close(&mut self, keeper: MemKeeper)
        ensures keeper { store_keeper self.new ≡ Some keeper }
        ensures opened { store_opened self.new ≡ store_opened self.old }
        ensures faults { PassesOn (keeper_calls keeper).failed (store_faults self.old) (store_faults self.new) }
        ensures by_one { 0 < (keeper_calls keeper).failed → store_faults self.new ≡ raised (store_faults self.old) }
    {
        if keeper.faults() > 0 {
            self.faults = self.faults.saturating_add(1);
        }
        self.keeper = Some(keeper);
    }

    ghost tables_in_order = { λ s. kept_in_order s.keeper };

    ghost trail_with_tables = { λ s. kept_with_tables s.keeper };
}
