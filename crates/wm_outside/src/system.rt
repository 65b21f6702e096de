// The real things: std's readers, writers and clock. They tell nothing, and count each call that fails.
mod clock;
mod reader;
mod writer;

pub use clock::SysClock;
pub use reader::ReadSource;
pub use writer::WriteSink;
