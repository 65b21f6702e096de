// The bytes of HTTP: what is cut from them, what a method and a target ask, and those of responses.
//
// Each file has the cases of one of these, and one module answers what the file asks. The module says at its head which questions
// there are. An answer that isn't the wanted one is printed with both.
mod paths;
mod requests;
mod responses;

use anyhow::Result;
use paths::PathCases;
use requests::RequestCases;
use responses::ResponseCases;
use wm_cases::play;

/// Plays the cases of the three files.
pub fn play_messages(rt: &HostRuntime) -> Result<()> {
    let alloc = rt.alloc();
    play(rt, "requests.txt", &mut RequestCases::new(alloc))?;
    play(rt, "routes.txt", &mut PathCases::new(alloc)?)?;
    play(rt, "responses.txt", &mut ResponseCases::new(alloc))
}
