// A server over the objects of the system.
ghost use Rattle.std.specs.Prelude.{◌≡◌, ◌⊎◌, IfErr, None, All, map, string_bytes};
ghost use Rattle.std.specs.Process.{exit_status};
ghost use Rattle.wm_serve.specs.Seats.{pass_of};
ghost use Rattle.wm_serve.specs.Server.{IsServeStatus, serve_plan};
ghost use Rattle.wrkmgr.specs.System.{AreFresh};

use crate::gate::BellGate;
use crate::seats::{SysCrew, add_seats};
use std::alloc::Global;
use std::net::{Ipv4Addr, Net, TcpListener, TcpStream};
use std::process::{ExitCode, Processes, SystemProcess};
use std::rt::Clock;
use std::sync::Wait;
use std::thread::Threads;
use wm_children::Bell;
use wm_listener::SysListener;
use wm_outside::{MemKeeper, MemStore, WriteSink};
use wm_plan::ServePlan;
use wm_run::NO_MEMORY;
use wm_serve::{Crew, serve};
use wm_sqlkeep::SqlStore;
use wm_traits::Store;

/// The status of a server that can't listen.
const NO_LISTENER: u8 = 10;

// Listens at the port of this machine's own address, which `localhost` names too.
fn listen<R: Net<Listener = TcpListener, Stream = TcpStream>>(
    rt: &R,
    alloc: Global,
    port: u16,
) -> Result<SysListener, u8>
    ensures { IfErr result (λ status. (status ≡ 10) ⊎ (status ≡ 6)) }
{
    let Ok(listener) = TcpListener::bind(rt, (Ipv4Addr::LOCALHOST, port)) else {
        return Err(NO_LISTENER);
    };
    match SysListener::new(alloc, listener) {
        Ok(listener) => Ok(listener),
        Err(_) => Err(NO_MEMORY),
    }
}

// The one call of `serve`, with the seats and a gate that rings the bells.
fn serve_seated<
    S: Store,
    R: Processes<Started = SystemProcess> + Threads + Wait + Clock + Copy + Send + Sync + 'static,
>(
    rt: &R,
    host: &HostRuntime,
    words: &[String],
    listener: &SysListener,
    crew: &mut SysCrew<S::K, R>,
    bells: Vec<Bell>,
    store: &mut S,
) -> u8
where
    S::K: Send,
    requires fresh { AreFresh crew.old.seats.items }
    ensures vacant { All (λ seat. pass_of seat ≡ None) crew.new.seats.items }
    ensures words { serve_plan (map string_bytes words.now) ≡ None → (result ≡ 2) ⊎ (result ≡ 6) }
    ensures statuses { IsServeStatus result }
{
    let mut out = WriteSink::new(host.stdout());
    let gate = BellGate::new(rt, bells);
    let served = serve(
        rt,
        host.alloc(),
        words,
        listener,
        &mut crew.seats,
        &mut out,
        store,
        &gate,
    );
    served.status
}

// A server over the objects of the system and a store.
fn serve_over<
    S: Store,
    R: Processes<Started = SystemProcess> + Threads + Wait + Clock + Copy + Send + Sync + 'static,
>(
    rt: &R,
    host: &HostRuntime,
    words: &[String],
    plan: &ServePlan,
    listener: &SysListener,
    store: &mut S,
) -> u8
where
    S::K: Send,
    ensures words { serve_plan (map string_bytes words.now) ≡ None → (result ≡ 2) ⊎ (result ≡ 6) }
    ensures statuses { IsServeStatus result }
{
    let mut crew = Crew::new(host.alloc());
    let mut bells = Vec::new(host.alloc());
    let status = match add_seats(*rt, host.alloc(), plan, &mut crew, &mut bells) {
        Ok(()) => serve_seated(rt, host, words, listener, &mut crew, bells, store),
        Err(_) => NO_MEMORY,
    };
    crew.leave();
    status
}

// A server whose rows end with it.
fn serve_in_memory<
    R: Processes<Started = SystemProcess> + Threads + Wait + Clock + Copy + Send + Sync + 'static,
>(rt: &R, host: &HostRuntime, words: &[String], plan: &ServePlan, listener: &SysListener) -> u8
    ensures words { serve_plan (map string_bytes words.now) ≡ None → (result ≡ 2) ⊎ (result ≡ 6) }
    ensures statuses { IsServeStatus result }
{
    let keeper = MemKeeper::new(Vec::new(host.alloc()), Vec::new(host.alloc()));
    let mut store = MemStore::new(keeper);
    serve_over(rt, host, words, plan, listener, &mut store)
}

// A server over the rows of a file.
fn serve_on_file<
    R: Processes<Started = SystemProcess> + Threads + Wait + Clock + Copy + Send + Sync + 'static,
>(rt: &R, host: &HostRuntime, words: &[String], plan: &ServePlan, listener: &SysListener) -> u8
    ensures words { serve_plan (map string_bytes words.now) ≡ None → (result ≡ 2) ⊎ (result ≡ 6) }
    ensures statuses { IsServeStatus result }
{
    let mut store = SqlStore::new(host);
    serve_over(rt, host, words, plan, listener, &mut store)
}

/// What the program ends with behind a server over the store that the plan of its words names.
pub fn serve_planned<
    R: Net<Listener = TcpListener, Stream = TcpStream>
        + Processes<Started = SystemProcess>
        + Threads
        + Wait
        + Clock
        + Copy
        + Send
        + Sync
        + 'static,
>(rt: &R, host: &HostRuntime, words: &[String], plan: &ServePlan) -> ExitCode
    ensures statuses { IsServeStatus (exit_status result) }
{
    let listener = match listen(rt, host.alloc(), plan.listen.port) {
        Ok(listener) => listener,
        Err(status) => return ExitCode::from(status),
    };
    let status = if plan.store.as_str() == ":memory:" {
        serve_in_memory(rt, host, words, plan, &listener)
    } else {
        serve_on_file(rt, host, words, plan, &listener)
    };
    ExitCode::from(status)
}
