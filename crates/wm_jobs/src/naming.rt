// The job that a command names.
use crate::JobTable;
use wm_base::Refusal;
use wm_law::{Job, JobRef};

impl JobTable {
    ghost use Rattle.std.specs.Prelude.{◌≡◌, filter, Ok, Err, MatchResult};
    ghost use Rattle.wm_law.specs.Named.{is_named, only_one};

    /// The one job that a reference names. None is NOJOB, several are AMBIGUOUS with their number. No walk is made over the
    /// jobs.
    pub fn named(&self, reference: &JobRef) -> Result<&Job, Refusal>
        ensures { MatchResult result (λ job. only_one (filter (is_named reference.now) self.now.jobs) ≡ Ok job.now) (λ x. only_one (filter (is_named reference.now) self.now.jobs) ≡ Err x) }
    {
        let serial = self.names.find(reference)?;
        let Some(job) = self.job(serial) else {
            unreachable!()
        };
        Ok(job)
    }
}
