//! The lines of the report. Each is put together without a sink, so that a sink gets it whole.

ghost use Rattle.std.specs.Prelude.{◌≡◌, []};
ghost use Rattle.scenario_text.specs.Text.{line};
ghost use Rattle.room_report.specs.Report.{clock_words, numbers_words, core_words, intervals_words, online_word, cpu_words, queued_word, task_words, ended_words, place_word, guard_words};

use cs_types::{CoreView, Cpu, CpuView, EndView, GuardPlace, GuardView, TaskView};
use scenario_text::Line;

pub(crate) fn clock_line(clock: u64) -> Line
    ensures { result ≡ line (clock_words clock) }
{
    let mut line = Line::new();
    line.named("clock", clock);
    line.text("\n");
    line
}

pub(crate) fn numbers_line(task: u64, pick: u64) -> Line
    ensures { result ≡ line (numbers_words task pick) }
{
    let mut line = Line::new();
    line.named("numbers", task);
    line.text(" ");
    line.number(pick);
    line.text("\n");
    line
}

pub(crate) fn core_line(core: CoreView) -> Line
    ensures { result ≡ line (core_words core) }
{
    let mut line = Line::new();
    line.text("core ");
    line.number(core.cookie);
    line.text(" forced ");
    line.number(core.forced);
    line.text(" occupation ");
    line.number(core.occupation);
    line.text("\n");
    line
}

pub(crate) fn intervals_line(core: CoreView) -> Line
    ensures { result ≡ line (intervals_words core) }
{
    let mut line = Line::new();
    line.named("intervals", core.intervals);
    line.text("\n");
    line
}

pub(crate) fn cpu_line(cpu: Cpu, view: CpuView) -> Line
    ensures { result ≡ line (cpu_words cpu view) }
{
    let mut line = Line::new();
    line.text("cpu ");
    line.number(cpu);
    line.text(" ");
    line.text(online_text(view.online));
    line.text(" runs ");
    line.run(view.run);
    line.text(" number ");
    line.number(view.number);
    line.text("\n");
    line
}

pub(crate) fn task_line(task: TaskView) -> Line
    ensures { result ≡ line (task_words task) }
{
    let mut line = Line::new();
    line.text("task ");
    line.number(task.pid);
    line.text(" cpu ");
    line.number(task.cpu);
    line.text(" ");
    line.text(queued_text(task.queued));
    line.text(" cookie ");
    line.number(task.cookie);
    line.text(" forced ");
    line.number(task.forced);
    line.text(" vtime ");
    line.number(task.vtime);
    line.text("\n");
    line
}

/// The line of a task that ended, put on an empty one. That is lent, since to hand a line out copies it, and as many
/// tasks may end as are forked.
pub(crate) fn put_ended(on: &mut Line, task: EndView)
    requires { on.old ≡ [] }
    ensures { on.new ≡ line (ended_words task) }
{
    on.pid("ended ", task.pid);
    on.wide(" forced ", task.forced);
    on.text("\n");
}

pub(crate) fn guard_line(index: u8, guard: GuardView) -> Line
    ensures { result ≡ line (guard_words index guard) }
{
    let mut line = Line::new();
    line.named("guard", index);
    line.text(" ");
    line.text(place_text(guard.place));
    line.text(" ");
    line.named("asked", guard.asked);
    line.text("\n");
    line
}

fn online_text(is_online: bool) -> &'static str
    ensures { result.now ≡ online_word is_online }
{
    if is_online { "online" } else { "offline" }
}

fn queued_text(is_queued: bool) -> &'static str
    ensures { result.now ≡ queued_word is_queued }
{
    if is_queued { "queued" } else { "asleep" }
}

fn place_text(place: GuardPlace) -> &'static str
    ensures { result.now ≡ place_word place }
{
    match place {
        GuardPlace::Bench => "bench",
        GuardPlace::Active => "active",
        GuardPlace::Dropped => "dropped",
    }
}
