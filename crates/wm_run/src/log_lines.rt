// The bytes of the listing of a floor's history.
ghost use Rattle.std.specs.Prelude.{◌≡◌, ◌++◌, IfOk, OnOk};
ghost use Rattle.wm_listing.specs.Log.{entry_lines, log_text};

use std::alloc::Global;
use wm_base::NoMemory;
use wm_floor::Log;
use wm_listing::{push_end, push_entry};

// The lines of the entries of a history.
fn push_entries(alloc: Global, out: &mut Vec<u8>, log: &Log) -> Result<(), NoMemory>
    ensures { OnOk result (out.new.items ≡ out.old.items ++ entry_lines 1 log.now) }
{
    for at in 0..log.len() {
        let Some(entry) = log.entry(at) else {
            unreachable!()
        };
        push_entry(alloc, out, at + 1, entry)?;
    }
    Ok(())
}

/// The bytes of the listing of a history. An `Err` is want of memory.
pub fn log_bytes(alloc: Global, log: &Log) -> Result<Vec<u8>, NoMemory>
    ensures { IfOk result (λ bytes. bytes.items ≡ log_text log.now) }
{
    let mut out = Vec::new(alloc);
    push_entries(alloc, &mut out, log)?;
    push_end(&mut out)?;
    Ok(out)
}
