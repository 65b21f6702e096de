// What a request asks.
use crate::Method;
use wm_base::Name;
use wm_law::Ask;

/// What a request asks by its method and its path.
#[derive(Clone, Copy)]
pub enum Route {
    /// The command in the body, as this user.
    Command(Name),
    /// A listing.
    Read(Ask),
    NoRoute,
    /// The path has a route, with this method.
    WrongMethod(Method),
}
