// What monitors call, by its words.
ghost use Rattle.std.specs.Prelude.{IfOk};
ghost use Rattle.wm_law.specs.Fit.{IsCall};
ghost use Rattle.wm_law.specs.declared.state.State.{State};

use crate::words::{first_word, number_of};
use anyhow::{Result, bail};
use wm_base::{Exit, Serial, StartCause};
use wm_law::Call;

// The report on a job, and the exit code where it ended.
fn report_of(report: &str, serial: Serial, code: u8) -> Result<Call>
    ensures fit { IfOk result IsCall }
{
    match report {
        "started" => Ok(Call::Started(serial)),
        "failed" => Ok(Call::StartFailed(serial, StartCause::Spawner)),
        "lacked" => Ok(Call::StartFailed(serial, StartCause::Memory)),
        "finished" => Ok(Call::Finished(serial, Exit::Code(code))),
        "killed" => Ok(Call::Finished(serial, Exit::Killed)),
        "used" => Ok(Call::UseDone(serial)),
        _ => bail!("no such report: {report}"),
    }
}

/// The call that words are: `hand`, `tick`, or a report as `finished 2 0` of the job of serial 2.
pub fn call_of(words: &str) -> Result<Call>
    ensures fit { IfOk result IsCall }
{
    let (report, numbers) = first_word(words);
    if report == "hand" {
        return Ok(Call::Hand);
    }
    if report == "tick" {
        return Ok(Call::Tick);
    }
    let (serial, code) = first_word(numbers);
    let serial = Serial::new(number_of(serial)?);
    let code = code.parse::<u8>().unwrap_or(0);
    let call = report_of(report, serial, code)?;
    Ok(call)
}
