// A child program that is out.
use std::process::Child;
use wm_base::Serial;

/// A child with the job that it was started for. Who owns it may wait for it.
#[derive(Drop)]
pub struct Running {
    pub serial: Serial,
    pub child: Child,
}
