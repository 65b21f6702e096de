// ENDSBS and PWRDWNSYS: subsystems end, and their jobs are told.
use crate::Machine;
use wm_base::{Name, NoMemory, Refusal};
use wm_law::{EndOption, Endsbs, Pwrdwnsys, Reply, Sbs};
use wm_subsystems::{
    Telling, Those, down_by, drop_evokes, end_phase, end_sbss, is_down, is_ending_by,
    reserve_for_active, tell_all,
};

impl Machine {
    ghost use Rattle.std.specs.Prelude.{◌≡◌, OnOk, OnErr, IfOk};
    ghost use Rattle.std.specs.Option.{option_copied};
    ghost use Rattle.wm_law.specs.Endings.{end_subsystem, end_those, power_down, started_named};
    ghost use Rattle.wm_subsystems.specs.Telling.{passes};
    ghost use Rattle.wm_subsystems.specs.Walks.{AreInLine};

    // The started subsystem of a simple name.
    pub(crate) fn started_named(&self, name: &Name) -> Option<&Sbs>
        ensures { option_copied result ≡ started_named self.now.state name.now }
    {
        self.started
            .as_slice()
            .iter()
            .find(|sbs| sbs.sbsd.name == *name)
    }

    // Those subsystems end: their jobs are told, and the requests that wait there go. All memory is taken before anything is
    // changed.
    fn end_those(
        &mut self,
        those: &Those,
        option: EndOption,
        delay: Option<u32>,
    ) -> Result<(), NoMemory>
        requires line { AreInLine self.old.state.next_serial self.old.state.jobs }
        ensures ok { OnOk result (self.new.state ≡ end_those self.old.state option delay (passes those.now)) }
        ensures marks { OnOk result (self.new.marks ≡ self.old.marks) }
        ensures err { OnErr result (self.new ≡ self.old) }
    {
        reserve_for_active(&mut self.table)?;
        let clock = self.table.clock();
        let started = &self.started;
        tell_all(
            &mut self.table,
            &Telling::By(option, *those),
            clock,
            started,
        );
        drop_evokes(&mut self.evokes, those, started);
        end_sbss(&mut self.started, those, &end_phase(clock, option, delay));
        Ok(())
    }

    /// ENDSBS. An `Err` is want of memory and leaves the state.
    pub(crate) fn end_subsystem(&mut self, command: &Endsbs) -> Result<Reply, NoMemory>
        requires line { AreInLine self.old.state.next_serial self.old.state.jobs }
        ensures reply { IfOk result (λ r. r ≡ (end_subsystem self.old.state command.now).reply) }
        ensures state { OnOk result (self.new.state ≡ (end_subsystem self.old.state command.now).state) }
        ensures marks { OnOk result (self.new.marks ≡ self.old.marks) }
        ensures err { OnErr result (self.new ≡ self.old) }
    {
        let Some(sbs) = self.started_named(&command.sbs) else {
            return Ok(Reply::No(Refusal::SbsNotActive));
        };
        if is_ending_by(command.option, &sbs.phase) {
            return Ok(Reply::No(Refusal::AlreadyEnding));
        }
        let name = sbs.sbsd;
        let those = Those::Named(sbs.sbsd);
        self.end_those(&those, command.option, command.delay)?;
        Ok(Reply::SbsEnding(name))
    }

    /// PWRDWNSYS: each subsystem ends that doesn't so already. An `Err` is want of memory and leaves the state.
    pub(crate) fn power_down(&mut self, command: &Pwrdwnsys) -> Result<Reply, NoMemory>
        requires line { AreInLine self.old.state.next_serial self.old.state.jobs }
        ensures reply { IfOk result (λ r. r ≡ (power_down self.old.state command.now).reply) }
        ensures state { OnOk result (self.new.state ≡ (power_down self.old.state command.now).state) }
        ensures marks { OnOk result (self.new.marks ≡ self.old.marks) }
        ensures err { OnErr result (self.new ≡ self.old) }
    {
        if is_down(command.option, &self.power) {
            return Ok(Reply::No(Refusal::PoweringDown));
        }
        let those = Those::NotEnded(command.option);
        self.end_those(&those, command.option, command.delay)?;
        self.power = down_by(command.option);
        Ok(Reply::PowerDown)
    }
}
