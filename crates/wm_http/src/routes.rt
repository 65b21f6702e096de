// The routes, and which of them a request has.
ghost use Rattle.std.specs.Prelude.{◌≡◌, IfOk};
ghost use Rattle.wm_http.specs.Answers.{method_name};
ghost use Rattle.wm_http.specs.Parts.{is_ascii};
ghost use Rattle.wm_http.specs.Routes.{asked, known_routes, method_of, of_pattern, route_of, same_bytes};

use crate::part::{is_ascii, job_of, name_at, path_of, qname_of};
use crate::{Method, Pattern, Route};
use matchit::{InsertError, Router};
use std::alloc::{AllocError, Global};
use std::marker::Model;
use std::str;
use wm_base::NoMemory;
use wm_law::{Ask, JobRef};

fn method_of(pattern: Pattern) -> Method
    ensures { result ≡ method_of pattern }
{
    match pattern {
        Pattern::Commands => Method::Post,
        _ => Method::Get,
    }
}

fn asked(pattern: Pattern, path: &[u8]) -> Option<Route>
    ensures { result ≡ asked pattern path.now }
{
    match pattern {
        Pattern::Commands => Some(Route::Command(name_at(2, path)?)),
        Pattern::Active => Some(Route::Read(Ask::Active)),
        Pattern::Subsystems => Some(Route::Read(Ask::Subsystems)),
        Pattern::Log => Some(Route::Read(Ask::Log)),
        Pattern::Queue => Some(Route::Read(Ask::Queue(qname_of(path)?))),
        Pattern::Submitted => Some(Route::Read(Ask::Submitted(name_at(2, path)?))),
        Pattern::Job => Some(Route::Read(Ask::Job(JobRef::Full(job_of(path)?)))),
    }
}

fn has_method(method: &[u8], wanted: Method) -> bool
    ensures { result ≡ same_bytes method.now (method_name wanted) }
{
    match wanted {
        Method::Get => method == b"GET".as_slice(),
        Method::Post => method == b"POST".as_slice(),
    }
}

fn of_pattern(method: &[u8], path: &[u8], pattern: Pattern) -> Route
    ensures { result ≡ of_pattern method.now path.now pattern }
{
    let wanted = method_of(pattern);
    match asked(pattern, path) {
        None => Route::NoRoute,
        Some(route) if has_method(method, wanted) => route,
        Some(_) => Route::WrongMethod(wanted),
    }
}

fn filled(alloc: Global) -> Result<Router<Pattern>, InsertError>
    ensures { IfOk result (λ router. router ≡ known_routes) }
{
    let mut router = Router::new(alloc);
    router.insert("/users/{user}/commands", Pattern::Commands)?;
    router.insert("/active", Pattern::Active)?;
    router.insert("/subsystems", Pattern::Subsystems)?;
    router.insert("/log", Pattern::Log)?;
    router.insert("/queues/{lib}/{name}", Pattern::Queue)?;
    router.insert("/users/{user}/jobs", Pattern::Submitted)?;
    router.insert("/jobs/{number}/{user}/{name}", Pattern::Job)?;
    Ok(router)
}

/// The routes of all requests.
#[derive(Drop)]
pub struct Routes {
    router: Router<Pattern>,
}

impl Model for Routes {
    ghost use Rattle.std.specs.Prelude.{◌≡◌};
    ghost use Rattle.wm_http.specs.Routes.{known_routes, Known};

    ghost Value = { Known };

    ghost view = { λ routes. routes.router };

    ghost invariant = { λ routes. routes.router ≡ known_routes };
}

impl Routes {
    /// An `Err` is want of memory.
    pub fn new(alloc: Global) -> Result<Routes, NoMemory> {
        match filled(alloc) {
            Ok(router) => Ok(Routes { router }),
            Err(_) => Err(AllocError),
        }
    }

    /// What a request asks by its method and its target. The patterns and the statuses behind them are this project's own
    /// profile.
    pub fn find(&self, method: &[u8], target: &[u8]) -> Route
        ensures { result ≡ route_of method.now target.now }
    {
        let path = path_of(target);
        if !is_ascii(path) {
            return Route::NoRoute;
        }
        let Ok(text) = str::from_utf8(path) else {
            return Route::NoRoute;
        };
        match self.router.at(text) {
            Ok(found) => of_pattern(method, path, *found.value),
            Err(_) => Route::NoRoute,
        }
    }
}
