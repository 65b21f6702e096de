// Forms in memory of which no call fails, so that a drill ends for no fault of these.
mod keeper;
mod sink;
mod source;
mod spawner;

pub use keeper::SteadyKeeper;
pub use sink::SteadySink;
pub use source::SteadySource;
pub use spawner::SteadySpawner;
