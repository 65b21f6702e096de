// The gate of a server of the system.
use std::sync::Wait;
use wm_children::Bell;
use wm_web::Gate;

/// Rings the bells of all monitors behind each response, so that one that waits looks at once for what it ordered.
#[derive(Drop)]
pub struct BellGate<'r, R> {
    rt: &'r R,
    bells: Vec<Bell>,
}

impl<'r, R: Wait> BellGate<'r, R> {
    pub fn new(rt: &'r R, bells: Vec<Bell>) -> BellGate<'r, R> {
        BellGate { rt, bells }
    }
}

impl<R: Wait> Gate for BellGate<'_, R> {
    fn before(&self, _worker: u32) {}

    fn after(&self, _worker: u32) {
        for bell in &self.bells {
            bell.ring(self.rt);
        }
    }
}
