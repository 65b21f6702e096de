//! What stands behind the traits of `wm_traits`: forms in memory, and adapters of std's readers, writers and clock. A keeper
//! over SQLite is a crate of its own (`wm_sqlkeep`), and so is what starts the system's programs (`wm_children`).
//!
//! The contract for the layer above is that of the traits. The forms in memory (`memory/`) tell all that they do, and fail
//! exactly at the calls that their lists name: `specs/Memory.antt`, `specs/MemSpawner.antt` and `specs/Keeping.antt` say
//! what is seen of them. The adapters (`system/`) tell nothing and are the trusted edge.
#![tactic(auto)]

mod memory;
mod system;

pub use memory::{
    ImageKeeper, ImageStore, MemClock, MemKeeper, MemSink, MemSource, MemSpawner, MemStore,
};
pub use system::{ReadSource, SysClock, WriteSink};
