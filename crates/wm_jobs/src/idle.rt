// Prestart jobs that are available or idle.
use crate::JobTable;
use wm_base::QName;
use wm_indexes::PrestartEntry;
use wm_law::Job;

impl JobTable {
    ghost use Rattle.std.specs.Prelude.{◌≡◌};
    ghost use Rattle.std.specs.Option.{option_copied};
    ghost use Rattle.wm_law.specs.Prestart.{count_available, first_idle};

    /// How many available jobs the prestart entry of a subsystem for a program has. It is one look.
    pub fn count_available(&self, sbs: &QName, pgm: &QName) -> u32
        ensures { result ≡ count_available sbs.now pgm.now self.now.jobs }
    {
        self.prestart.available(&PrestartEntry {
            sbs: *sbs,
            pgm: *pgm,
        })
    }

    /// The idle job of least number of the prestart entry of a subsystem for a program. It is one look.
    pub fn first_idle(&self, sbs: &QName, pgm: &QName) -> Option<&Job>
        ensures { option_copied result ≡ first_idle sbs.now pgm.now self.now.jobs }
    {
        let serial = self.prestart.first_idle(&PrestartEntry {
            sbs: *sbs,
            pgm: *pgm,
        })?;
        self.job(serial)
    }
}
