// The forms in memory. They tell all that they do, fail exactly at the calls that their lists name, and take memory
// only to record what they were given, and for the rows that are loaded.
mod calls;
mod change_log;
mod children;
mod clock;
mod image_store;
mod images;
mod keeper;
mod replay;
mod sign;
mod sink;
mod source;
mod spawner;
mod store;
mod tables;
mod writing;

pub use clock::MemClock;
pub use image_store::ImageStore;
pub use images::ImageKeeper;
pub use keeper::MemKeeper;
pub use sink::MemSink;
pub use source::MemSource;
pub use spawner::MemSpawner;
pub use store::MemStore;
