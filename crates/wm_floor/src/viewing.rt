// What is shown of the machine.
ghost use Rattle.std.specs.Prelude.{◌≡◌, IfOk};
ghost use Rattle.wm_views.specs.Parts.{parts_of};
ghost use Rattle.wm_views.specs.Views.{shown};

use std::alloc::Global;
use wm_base::NoMemory;
use wm_core::Core;
use wm_law::Ask;
use wm_views::{Parts, Shown};

// The parts of the state that are shown.
fn parts(core: &Core) -> Parts<'_>
    ensures { result ≡ parts_of core.now.state }
{
    Parts::new(core.objects(), core.jobs(), core.started(), core.held())
}

/// What a reading command shows of the state. An `Err` is want of memory.
pub(crate) fn view(core: &Core, alloc: Global, ask: &Ask) -> Result<Shown, NoMemory>
    ensures { IfOk result (λ view. view ≡ shown core.now.state ask.now) }
{
    parts(core).view(alloc, ask)
}
