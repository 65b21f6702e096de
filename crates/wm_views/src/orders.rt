// The orders in which jobs and subsystems are shown.
ghost use Rattle.wm_views.specs.Ranks.{name_ranks, number_ranks};
ghost use Rattle.wm_views.specs.Views.{by_name, by_number};

use crate::JobLine;
use crate::sorting::Ordered;
use wm_law::Sbs;

impl Ordered for Sbs {
    ghost before = { by_name };

    ghost ranks = { name_ranks };

    fn before(&self, other: &Sbs) -> bool {
        self.sbsd.name.cmp(&other.sbsd.name).is_lt()
    }
}

impl Ordered for JobLine {
    ghost before = { by_number };

    ghost ranks = { number_ranks };

    fn before(&self, other: &JobLine) -> bool {
        self.job.number < other.job.number
    }
}
