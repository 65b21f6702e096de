// Which prestart entries make no jobs.
ghost use Rattle.std.specs.Prelude.{◌≡◌, ◌&&◌, not, filter, OnOk, OnErr};
ghost use Rattle.wm_desc.specs.Table.{same_qname};
ghost use Rattle.wm_law.specs.Prestart.{is_stop_among};
ghost use Rattle.wm_law.specs.Prestarting.{without_stop};
ghost use Rattle.wm_law.specs.Reports.{stop_added, stops_with};

use wm_base::{How, NoMemory, QName};
use wm_law::{Stop, Stops};

// Whether it is the entry of the subsystem for the program.
fn is_stop_of(stop: &Stop, sbs: &QName, pgm: &QName) -> bool
    ensures { result ≡ (same_qname stop.now.sbs sbs.now && same_qname stop.now.pgm pgm.now) }
{
    stop.sbs == *sbs && stop.pgm == *pgm
}

/// Whether an entry is one of those that are stopped.
pub fn is_stopped(stopped: &Stops, sbs: &QName, pgm: &QName) -> bool
    ensures { result ≡ is_stop_among sbs.now pgm.now stopped.now }
{
    stopped
        .as_slice()
        .iter()
        .any(|stop| is_stop_of(stop, sbs, pgm))
}

/// Stops an entry, where it isn't stopped yet. An `Err` is want of memory and leaves the list.
pub fn add_stop_of(stopped: &mut Stops, sbs: &QName, pgm: &QName) -> Result<(), NoMemory>
    ensures ok { OnOk result (stopped.new ≡ stop_added sbs.now pgm.now stopped.old) }
    ensures err { OnErr result (stopped.new ≡ stopped.old) }
{
    if !is_stopped(stopped, sbs, pgm) {
        stopped.push(Stop {
            sbs: *sbs,
            pgm: *pgm,
        })?;
    }
    Ok(())
}

/// Stops the entry that a how names, if it names one. An `Err` is want of memory and leaves the list.
pub fn add_stop(stopped: &mut Stops, how: &How) -> Result<(), NoMemory>
    ensures ok { OnOk result (stopped.new ≡ stops_with how.now stopped.old) }
    ensures err { OnErr result (stopped.new ≡ stopped.old) }
{
    match how {
        How::NotYet | How::FromQueue { .. } | How::Auto { .. } => Ok(()),
        How::Pre { sbs, pgm } => {
            add_stop_of(stopped, sbs, pgm)?;
            Ok(())
        }
    }
}

fn drop_each_of(stopped: &mut Vec<Stop>, sbs: &QName, pgm: &QName)
    ensures { stopped.new.items ≡ filter (λ e. not (same_qname e.sbs sbs.now && same_qname e.pgm pgm.now)) stopped.old.items }
{
    stopped.retain(|stop| !is_stop_of(stop, sbs, pgm));
}

/// The entry is no longer stopped.
pub fn drop_stop(stopped: &mut Stops, sbs: &QName, pgm: &QName)
    ensures { stopped.new ≡ without_stop sbs.now pgm.now stopped.old }
{
    drop_each_of(&mut stopped.items, sbs, pgm);
}
