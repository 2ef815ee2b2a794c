//! What is written of a drill's run.

ghost use Rattle.std.specs.Prelude.{◌≡◌, ◌≤◌, OnOk, OnErr};
ghost use Rattle.cs_outside.specs.Device.{appended, Rose, WritesPrefix};
ghost use Rattle.scenario_text.specs.Text.{line};
ghost use Rattle.room_drill.specs.Summary.{drill_words, picks_words, steals_words, summary_text};

use crate::size::STEPS;
use crate::tally::{Tally, count};
use cs_outside::{Failed, Sink, write_all};
use cs_types::Room;
use room_report::report;
use scenario_text::Line;

fn drill_line(seed: u32, entries: u64) -> Line
    ensures { result ≡ line (drill_words seed entries) }
{
    let mut line = Line::new();
    line.text("drill ");
    line.number(seed);
    line.text(" steps ");
    line.number(STEPS);
    line.text(" entries ");
    line.number(entries);
    line.text("\n");
    line
}

fn picks_line(tally: Tally) -> Line
    ensures { result ≡ line (picks_words tally) }
{
    let mut line = Line::new();
    line.named("picks", tally.selected);
    line.text(" ");
    line.number(tally.adopted);
    line.text(" ");
    line.number(tally.plain);
    line.text("\n");
    line
}

fn steals_line(tally: Tally) -> Line
    ensures { result ≡ line (steals_words tally) }
{
    let mut line = Line::new();
    line.named("steals", tally.stole);
    line.text(" ");
    line.number(tally.missed);
    line.text("\n");
    line
}

/// Writes what a drill prints of this seed, after its run on this machine: how many entries the history
/// has, how many picks of each kind and how many tries to steal, those of the final drain among them,
/// and then the report. Each line goes to the sink in one piece, and again with the rest if the sink
/// took only a part. At an `Err` the sink has failed, and a prefix of the text is written. It takes no
/// memory.
pub fn summary<R: Room, K: Sink>(seed: u32, room: &R, sink: &mut K) -> Result<(), Failed>
    ensures ok { OnOk result (K.written sink.new ≡ appended
        (K.written sink.old) (summary_text seed (R.opening room.now) (R.history room.now))) }
    ensures prefix { WritesPrefix (K.written sink.old)
        (summary_text seed (R.opening room.now) (R.history room.now)) (K.written sink.new) }
    ensures faultless { OnOk result (K.faults sink.new ≡ K.faults sink.old) }
    ensures failed { OnErr result (Rose (K.faults sink.old) (K.faults sink.new)) }
    ensures counted { K.faults sink.old ≤ K.faults sink.new }
{
    let tally = count(room);
    write_all(sink, drill_line(seed, room.length()).as_bytes())?;
    write_all(sink, picks_line(tally).as_bytes())?;
    write_all(sink, steals_line(tally).as_bytes())?;
    report(room, sink)
}
