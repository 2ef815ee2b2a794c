//! The program: `coresched` over the real standard streams. It ends with the status of its command,
//! and says on standard error what went wrong.
#![tactic(auto)]

ghost use Rattle.std.specs.Prelude.{◌≡◌};

use core_events::CoreRoom;
use cs_outside::{NoGate, PairGuard, StdSink, StdSource};
use plain_room::PlainRoom;
use scenario_input::{guards, words};
use scenario_runner::{Status, run};
use std::process::ExitCode;
use std::sync::Wait;
use std::thread::Threads;
use tree_queue::TreeQueue;

/// The machine that is played: the one over trees. It is named by its parts, so that the program waits for no crate
/// that names it.
type Machine = CoreRoom<TreeQueue, PairGuard>;

/// The machine that judges a printed run: the plain one, which shares no tree with the other, so that a fault of the one
/// is not a fault of the other.
type Judge = PlainRoom<PairGuard>;

/// Runs the command over these streams. Its output is complete only once the sink is flushed.
fn execute<R: Threads + Wait + AllocGlobal + Sync>(
    rt: &R,
    words: &[String],
    source: &mut StdSource,
    sink: &mut StdSink,
) -> Status
    requires source { source.old.faults ≡ 0 }
    requires sink { sink.old.faults ≡ 0 }
{
    let guards = match guards(rt) {
        Ok(guards) => guards,
        Err(status) => return status,
    };
    match run::<Machine, Judge, R, StdSource, StdSink, NoGate, PairGuard>(
        rt, words, source, sink, &NoGate, guards,
    ) {
        Status::Done if sink.flush().is_err() => Status::WriteFault,
        status => status,
    }
}

fn main(rt: HostRuntime) -> ExitCode {
    let mut source = StdSource::over(rt.stdin());
    let mut sink = StdSink::over(rt.stdout());
    let status = match words(&rt) {
        Ok(words) => execute(&rt, &words, &mut source, &mut sink),
        Err(status) => status,
    };
    if !matches!(status, Status::Done) {
        let _ = eprintln!(rt; "coresched: {status}");
    }
    ExitCode::from(status.exit_code())
}
