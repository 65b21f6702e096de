// The references that name a job without its number, which they do until it has ended.
ghost use Rattle.std.specs.Prelude.{◌≡◌, ◌+◌, ◌≤◌, false};
ghost use Rattle.std.specs.HashMap.{spare};
ghost use Rattle.wm_law.specs.declared.command.JobRef.TheVariants.{Simple, ByUser};
ghost use Rattle.wm_law.specs.Named.{is_ended, is_named};
ghost use Rattle.wm_indexes.specs.declared.keys.SimpleName.{SimpleName};
ghost use Rattle.wm_indexes.specs.declared.keys.UserName.{UserName};
ghost use Rattle.wm_indexes.specs.Names.{same_simple, same_by_user};
ghost use Rattle.wm_indexes.specs.Namesakes.{joined, parted, namesakes_at, AreFew, HaveJobs, IsAmong};
ghost use Rattle.wm_indexes.specs.Refs.{simple_name_of, user_name_of};

use crate::keys::{SimpleName, UserName};
use crate::name_rows::{join, leave};
use crate::namesakes::Namesakes;
use std::collections::HashMap;
use wm_law::{Job, Phase};

fn is_ended(phase: &Phase) -> bool
    ensures { result ≡ is_ended phase.now }
{
    matches!(phase, Phase::Ended(_))
}

fn simple_name(job: &Job) -> SimpleName
    ensures { result ≡ simple_name_of job.now }
{
    SimpleName { name: job.job.name }
}

fn user_name(job: &Job) -> UserName
    ensures { result ≡ user_name_of job.now }
{
    UserName {
        user: job.job.user,
        name: job.job.name,
    }
}

/// Adds a job to the rows of the references without its number, where it hasn't ended.
pub(crate) fn join_open(
    by_user: &mut HashMap<UserName, Namesakes>,
    simple: &mut HashMap<SimpleName, Namesakes>,
    job: &Job,
)
    requires by_user_spare { 1 ≤ spare by_user.old }
    requires simple_spare { 1 ≤ spare simple.old }
    requires by_user_few { AreFew same_by_user by_user.old.entries }
    requires simple_few { AreFew same_simple simple.old.entries }
    ensures by_user { (name : UserName) → namesakes_at same_by_user name by_user.new.entries ≡ joined (is_named (ByUser name.user name.name) job.now) job.now.serial (namesakes_at same_by_user name by_user.old.entries) }
    ensures simple { (name : SimpleName) → namesakes_at same_simple name simple.new.entries ≡ joined (is_named (Simple name.name) job.now) job.now.serial (namesakes_at same_simple name simple.old.entries) }
    ensures by_user_kept { HaveJobs same_by_user by_user.old.entries → HaveJobs same_by_user by_user.new.entries }
    ensures simple_kept { HaveJobs same_simple simple.old.entries → HaveJobs same_simple simple.new.entries }
    ensures by_user_spare { spare by_user.old ≤ spare by_user.new + 1 }
    ensures simple_spare { spare simple.old ≤ spare simple.new + 1 }
{
    if is_ended(&job.phase) {
        return;
    }
    join(by_user, user_name(job), job.serial);
    join(simple, simple_name(job), job.serial);
}

/// Takes a job that hasn't ended out of the rows of the references without its number.
pub(crate) fn leave_open(
    by_user: &mut HashMap<UserName, Namesakes>,
    simple: &mut HashMap<SimpleName, Namesakes>,
    job: &Job,
)
    requires lasts { is_ended job.now.phase ≡ false }
    requires by_user { IsAmong job.now.serial (namesakes_at same_by_user (user_name_of job.now) by_user.old.entries) }
    requires simple { IsAmong job.now.serial (namesakes_at same_simple (simple_name_of job.now) simple.old.entries) }
    ensures by_user { (name : UserName) → namesakes_at same_by_user name by_user.new.entries ≡ parted (is_named (ByUser name.user name.name) job.now) job.now.serial (namesakes_at same_by_user name by_user.old.entries) }
    ensures simple { (name : SimpleName) → namesakes_at same_simple name simple.new.entries ≡ parted (is_named (Simple name.name) job.now) job.now.serial (namesakes_at same_simple name simple.old.entries) }
    ensures by_user_kept { HaveJobs same_by_user by_user.old.entries → HaveJobs same_by_user by_user.new.entries }
    ensures simple_kept { HaveJobs same_simple simple.old.entries → HaveJobs same_simple simple.new.entries }
    ensures by_user_spare { spare by_user.old ≤ spare by_user.new }
    ensures simple_spare { spare simple.old ≤ spare simple.new }
{
    leave(by_user, &user_name(job), job.serial);
    leave(simple, &simple_name(job), job.serial);
}
