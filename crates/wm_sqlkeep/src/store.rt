// A store over the files of a system.
ghost use Rattle.std.specs.Prelude.{◌≡◌, None, refl};

use crate::faults::counted;
use crate::{OpenedKeeper, opened};
use std::rt::HostRuntime;
use wm_traits::{KeepFault, Store};

/// A store of rows in files of SQLite. Each opening of `:memory:` gives a keeper without rows, which end with it.
#[derive(Drop)]
pub struct SqlStore {
    rt: HostRuntime,
    faults: u64,
}

impl SqlStore {
    ghost use Rattle.wm_sqlkeep.specs.Faults.{store_faults};

    pub fn new(rt: &HostRuntime) -> SqlStore
        ensures { store_faults result ≡ 0 }
    {
        SqlStore { rt: *rt, faults: 0 }
    }

    /// How many openings failed, but for want of memory, and how many keepers came back that had failed.
    pub fn faults(&self) -> u64
        ensures { result ≡ store_faults self.now }
    {
        self.faults
    }
}

impl Store for SqlStore {
    ghost use Rattle.wm_sqlkeep.specs.Faults.{store_faults};

    type K = OpenedKeeper;

    ghost faults = { store_faults };

    ghost tables = { λ _. None };

    ghost trail = { λ _. None };

    ghost opened = { λ _. None };

    fn open(&mut self, path: &str) -> Result<OpenedKeeper, KeepFault> {
        let opened = opened::open(&self.rt, path);
        counted(&mut self.faults, opened)
    }

    fn close(&mut self, keeper: OpenedKeeper) {
        if keeper.faults() > 0 {
            self.faults = self.faults.saturating_add(1);
        }
        keeper.close();
    }

    ghost tables_in_order = { λ _. tt };

    ghost trail_with_tables = { λ _. refl };
}
