//! The commands, over the machine that the program plays.

ghost use Rattle.std.specs.Prelude.{◌≡◌};
ghost use Rattle.ptrace_check.specs.Guards.{AreFresh};

use core_state::CoreState;
use cs_outside::{Gate, Guard, NoGate, PairGuard};
use cs_types::OutOfMemory;
use memory_outside::{MemSink, MemSource};
use plain_room::PlainRoom;
use row_inputs::{sink_of, source_of, words_of};
use scenario_runner::{Status, run};
use std::sync::Wait;
use std::thread::Threads;

/// How `run` ends over the machines of the program: the one that plays, and the plain one that judges.
pub fn run_over_trees<T: Threads + Wait + AllocGlobal + Sync, P: Gate + Sync, G: Guard + Send>(
    rt: &T,
    words: &[String],
    source: &mut MemSource,
    sink: &mut MemSink,
    gate: &P,
    guards: Vec<G>,
) -> Status
    requires source { source.old.faults ≡ 0 }
    requires sink { sink.old.faults ≡ 0 }
    requires fresh { AreFresh G.pairs G.asked guards.items }
{
    run::<CoreState<G>, PlainRoom<G>, T, MemSource, MemSink, P, G>(
        rt, words, source, sink, gate, guards,
    )
}

/// How `run` with the word `replay` and without guards ends over this text, and what it has written. The source gives
/// 65,536 bytes at once and the sink takes 4,096, and neither fails.
pub fn replayed<T: Threads + Wait + AllocGlobal + Sync>(
    rt: &T,
    text: &[u8],
) -> Result<(Status, MemSink), OutOfMemory> {
    let alloc = rt.alloc();
    let words = words_of(alloc, &["replay"])?;
    let mut source = source_of(alloc, text, 65_536, &[])?;
    let mut sink = sink_of(alloc, 4096, &[])?;
    let guards = Vec::<PairGuard>::new(alloc);
    let status = run_over_trees(rt, &words, &mut source, &mut sink, &NoGate, guards);
    Ok((status, sink))
}
