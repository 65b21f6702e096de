// The calls of a form in memory.
ghost use Rattle.std.specs.Prelude.{◌≡◌, is_err};

use wm_traits::Failed;

/// How many calls there were, how many failed, and the numbers, from 1, of those that fail.
/// Both numbers stay at the greatest u64 once they are there.
#[derive(Drop)]
pub struct Calls {
    pub made: u64,
    pub failed: u64,
    pub failing: Vec<u32>,
}

impl Calls {
    ghost use Rattle.wm_outside.specs.Calls.{CountsCall, is_new};

    pub fn new(failing: Vec<u32>) -> Calls
        ensures { result ≡ is_new failing }
    {
        Calls {
            made: 0,
            failed: 0,
            failing,
        }
    }

    /// Counts a call, and answers `Failed` exactly where the list names its number.
    pub fn count(&mut self) -> Result<(), Failed>
        ensures { CountsCall self.old self.new (is_err result) }
    {
        self.made = self.made.saturating_add(1);
        let number = self.made;
        if self.failing.iter().any(|&call| u64::from(call) == number) {
            self.failed = self.failed.saturating_add(1);
            return Err(Failed);
        }
        Ok(())
    }
}
