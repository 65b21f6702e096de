// The parts of a path.
ghost use Rattle.std.specs.Prelude.{◌≡◌, ◌≤◌, length, take_while};
ghost use Rattle.std.specs.List.{list_all};
ghost use Rattle.wm_http.specs.Parts.{before_slash, behind_slash, is_ascii, is_no_query, is_no_slash, job_in, name_in, number_in, part, path_of, qname_in};

use wm_base::{JobName, JobNumber, NAME_LEN, Name, QName, name_of};
use wm_command::number_of;

fn query_at(target: &[u8]) -> usize
    ensures value { result ≡ length (take_while is_no_query target.now) }
    ensures within { result ≤ length target.now }
{
    target.iter().take_while(|byte| **byte != b'?').count()
}

/// The path of a target: what stands before the first `?`.
pub fn path_of(target: &[u8]) -> &[u8]
    ensures { result.now ≡ path_of target.now }
{
    &target[..query_at(target)]
}

/// Whether all bytes are of ASCII.
pub fn is_ascii(path: &[u8]) -> bool
    ensures { result ≡ list_all is_ascii path.now }
{
    path.iter().all(|byte| *byte < 128)
}

fn slash_at(path: &[u8]) -> usize
    ensures value { result ≡ length (take_while is_no_slash path.now) }
    ensures within { result ≤ length path.now }
{
    path.iter().take_while(|byte| **byte != b'/').count()
}

fn before_slash(path: &[u8]) -> &[u8]
    ensures { result.now ≡ before_slash path.now }
{
    &path[..slash_at(path)]
}

fn behind_slash(path: &[u8]) -> &[u8]
    ensures { result.now ≡ behind_slash path.now }
{
    let at = slash_at(path);
    if at < path.len() {
        &path[at + 1..]
    } else {
        &[]
    }
}

// The part behind so many slashes.
#[tactic(auto, using(crate::proofs::PathLemmas::part_step, crate::proofs::PathLemmas::part_end))]
fn part(slashes: usize, path: &[u8]) -> &[u8]
    ensures { result.now ≡ part slashes path.now }
{
    let mut rest = path;
    for _ in 0..slashes {
        rest = behind_slash(rest);
    }
    before_slash(rest)
}

// The name of a part, in which a to z are read as A to Z.
fn name_in(part: &[u8]) -> Option<Name>
    ensures { result ≡ name_in part.now }
{
    if part.len() > NAME_LEN {
        return None;
    }
    let mut kept = [0; NAME_LEN];
    let name = &mut kept[..part.len()];
    name.copy_from_slice(part);
    name.make_ascii_uppercase();
    name_of(name)
}

/// The name behind so many slashes.
pub fn name_at(slashes: usize, path: &[u8]) -> Option<Name>
    ensures { result ≡ name_in (part slashes path.now) }
{
    name_in(part(slashes, path))
}

/// The library and the name behind two and three slashes.
pub fn qname_of(path: &[u8]) -> Option<QName>
    ensures { result ≡ qname_in (name_in (part 2 path.now)) (name_in (part 3 path.now)) }
{
    Some(QName {
        lib: name_at(2, path)?,
        name: name_at(3, path)?,
    })
}

// The number of a job, of 1 to 6 digits.
fn number_in(part: &[u8]) -> Option<JobNumber>
    ensures { result ≡ number_in part.now }
{
    let number = number_of(1, 6, 1, 999_999, part)?;
    Some(JobNumber::new(number))
}

/// The number, the user and the name of a job behind two, three and four slashes.
pub fn job_of(path: &[u8]) -> Option<JobName>
    ensures { result ≡ job_in (number_in (part 2 path.now)) (name_in (part 3 path.now)) (name_in (part 4 path.now)) }
{
    Some(JobName {
        number: number_in(part(2, path))?,
        user: name_at(3, path)?,
        name: name_at(4, path)?,
    })
}
