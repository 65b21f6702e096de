// A spawner of the test: what it tells at each look is written in the case.
use anyhow::Result;
use std::alloc::Global;
use std::sync::Wait;
use wm_base::{Event, Exit, Moment, Serial, StartOrder};
use wm_traits::{Failed, Spawner, StartFault};

/// One look.
#[derive(Clone, Copy)]
pub enum Look {
    /// It tells nothing.
    None,
    /// It tells this, whatever is out.
    Tells(Event),
    /// It tells the end of the child that was started last, or nothing.
    Own,
}

// The event of `USED 1`, `KILLED 1` and `CODE 1 0`, where 1 is the serial; none for any other word.
fn event_of(text: &str) -> Result<Option<Event>> {
    let mut words = text.split_whitespace();
    let word = words.next().unwrap_or("");
    let serial = Serial::new(words.next().unwrap_or("0").parse::<u64>()?);
    let code = words.next().unwrap_or("0").parse::<u8>()?;
    Ok(match word {
        "USED" => Some(Event::Used(serial)),
        "KILLED" => Some(Event::Ended(serial, Exit::Killed)),
        "CODE" => Some(Event::Ended(serial, Exit::Code(code))),
        _ => None,
    })
}

/// A spawner that starts nothing and tells what its looks say, the last of them first; then the end of its child.
#[derive(Drop)]
pub struct Telling {
    looks: Vec<Look>,
    running: Option<Serial>,
}

impl Telling {
    pub fn new(alloc: Global, tells: &[String]) -> Result<Telling> {
        let mut looks = Vec::new(alloc);
        for text in tells.iter().rev() {
            let look = match event_of(text.as_str())? {
                Some(event) => Look::Tells(event),
                None if text.as_str() == "OWN" => Look::Own,
                None => Look::None,
            };
            looks.push(look)?;
        }
        Ok(Telling {
            looks,
            running: None,
        })
    }

    fn look(&mut self) -> Option<Event> {
        match self.looks.pop() {
            Some(Look::None) => None,
            Some(Look::Tells(event)) => Some(event),
            Some(Look::Own) | None => {
                let serial = self.running.take()?;
                Some(Event::Ended(serial, Exit::Code(0)))
            }
        }
    }
}

impl Spawner for Telling {
    ghost use Rattle.std.specs.Prelude.{None, refl};

    ghost misses = { λ _. 0 };

    ghost faults = { λ _. 0 };

    ghost asked = { λ _. None };

    ghost out = { λ _. None };

    ghost told = { λ _. None };

    ghost reporting = { λ _. None };

    ghost awaited = { λ _. None };

    fn start(&mut self, order: &StartOrder) -> Result<(), StartFault> {
        self.running = Some(order.serial);
        Ok(())
    }

    fn kill(&mut self, _job: Serial) -> Result<bool, Failed> {
        Ok(false)
    }

    fn ended(&mut self) -> Result<Option<Event>, Failed> {
        Ok(self.look())
    }

    fn wait_ended<W: Wait>(
        &mut self,
        _rt: &W,
        _until: Option<Moment>,
    ) -> Result<Option<Event>, Failed> {
        Ok(self.look())
    }

    ghost told_with_out = { λ _. refl };

    ghost reporting_are_out = { λ _. tt };
}
