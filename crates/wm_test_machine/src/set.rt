// What no command makes, set by a word.
use crate::tested::Tested;
use crate::text::{first_word, name_of, number_of};
use anyhow::{Result, bail};
use wm_base::Moment;

impl Tested {
    /// Sets what the first word says: the `user`, or `now`, the moment of the calls that follow.
    pub fn set(&mut self, words: &str) -> Result<()> {
        let (what, value) = first_word(words);
        match what {
            "user" => self.user = name_of(value)?,
            "now" => self.set_now(number_of(value)?)?,
            _ => bail!("nothing to be set"),
        }
        Ok(())
    }

    fn set_now(&mut self, now: u64) -> Result<()> {
        if now > Moment::MAX {
            bail!("no moment");
        }
        self.now = Moment::new(now);
        Ok(())
    }
}
