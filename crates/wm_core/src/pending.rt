// What a monitor asks of the state.
use crate::Machine;
use wm_law::Pending;
use wm_subsystems::soonest;

impl Machine {
    ghost use Rattle.std.specs.Prelude.{◌≡◌};
    ghost use Rattle.wm_law.specs.Pending.{pending};

    /// What waits for a monitor. It takes no memory.
    pub fn pending(&self, monitor: u32) -> Pending
        ensures { result ≡ pending self.now.state monitor }
    {
        let active = self.table.active();
        let wishes = soonest(self.table.next_due(), self.table.next_wish());
        Pending {
            orders: self.table.kills(monitor) + self.table.orders(),
            next: soonest(wishes, self.next_ending()),
            active,
            busy: self.table.busy(),
            power: self.power,
        }
    }
}
