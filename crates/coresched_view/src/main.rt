//! The program: `coresched_view` over the real standard streams. It ends with the status of its command,
//! and says on standard error what went wrong.
#![tactic(auto)]

ghost use Rattle.std.specs.Prelude.{◌≡◌};

use core_events::CoreRoom;
use cs_outside::{PairGuard, StdSink, StdSource};
use scenario_input::{guards, words};
use std::process::ExitCode;
use tree_queue::TreeQueue;
use view_runner::{Status, run};

/// The machine that is played: the one over trees. It is named by its parts, so that the program waits for no crate that
/// names it.
type Machine = CoreRoom<TreeQueue, PairGuard>;

/// Runs the command over these streams. Its output is complete only once the sink is flushed.
fn execute<R: AllocGlobal>(
    rt: &R,
    words: &[String],
    source: &mut StdSource,
    sink: &mut StdSink,
) -> Status
    requires source { source.old.faults ≡ 0 }
    requires sink { sink.old.faults ≡ 0 }
{
    let guards = match guards(rt) {
        Ok(guards) => guards,
        Err(status) => return status,
    };
    // Of a bad input something may be written too, so only a sink that failed is not flushed.
    match run::<Machine, StdSource, StdSink, PairGuard>(rt.alloc(), words, source, sink, guards) {
        Status::WriteFault => Status::WriteFault,
        _ if sink.flush().is_err() => Status::WriteFault,
        status => status,
    }
}

fn main(rt: HostRuntime) -> ExitCode {
    let mut source = StdSource::over(rt.stdin());
    let mut sink = StdSink::over(rt.stdout());
    let status = match words(&rt) {
        Ok(words) => execute(&rt, &words, &mut source, &mut sink),
        Err(status) => status,
    };
    if !matches!(status, Status::Done) {
        let _ = eprintln!(rt; "coresched_view: {status}");
    }
    ExitCode::from(status.exit_code())
}
