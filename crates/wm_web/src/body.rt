// What a body comes to.
use wm_run::Parsed;

/// What the lines of a body come to, the empty ones aside.
#[derive(Drop)]
pub enum Body {
    Nothing,
    One(Parsed),
    Several,
}
