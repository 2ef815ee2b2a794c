//! The lines of the tasks and of the cookies. Each is put together without a sink, so that a sink gets it whole.

ghost use Rattle.std.specs.Prelude.{◌≡◌, ◌+◌, ◌^◌, ◌<◌, ◌≤◌, ◌∷◌, ◌++◌, length, OnOk, OnErr};
ghost use Rattle.std.specs.List.{flat_map};
ghost use Rattle.cs_outside.specs.Device.{appended, Rose, WritesPrefix};
ghost use Rattle.scenario_text.specs.Text.{line, line_bytes, spaced};
ghost use Rattle.times_report.specs.TaskLines as told;

use cs_outside::{Failed, Sink, write_all};
use scenario_text::Line;
use task_times::{CookieTimes, DoingTimes, RunTasks, TaskTimes};

/// Puts for how long something ran, waited and slept after what is on the line.
fn put_times(line: &mut Line, times: &DoingTimes)
    requires { length line.old + 80 ≤ line_bytes }
    ensures text { line.new ≡ line.old ++ 32 ∷ spaced (told.doing_words times.now) }
    ensures longest { length line.new ≤ length line.old + 80 }
{
    line.named(" ran", times.ran);
    line.named(" waited", times.waited);
    line.named(" slept", times.slept);
}

fn task_line(pid: u32, times: &TaskTimes) -> Line
    ensures { result ≡ line (told.task_words pid times.now) }
{
    let mut line = Line::new();
    line.named("task", pid);
    put_times(&mut line, &times.by_doing);
    line.named(" charged", times.charged);
    line.named(" cookie", times.cookie);
    line.text("\n");
    line
}

fn cookie_line(cookie: u32, times: &CookieTimes) -> Line
    ensures { result ≡ line (told.cookie_words cookie times.now) }
{
    let mut line = Line::new();
    line.named("cookie", cookie);
    put_times(&mut line, &times.by_doing);
    line.named(" charged", times.charged);
    line.text("\n");
    line
}

/// The line of a task, if it lived for some time or was charged something.
fn write_task<K: Sink>(pid: u32, times: &TaskTimes, sink: &mut K) -> Result<(), Failed>
    ensures ok { OnOk result (K.written sink.new
        ≡ appended (K.written sink.old) (flat_map line (told.line_of_task (pid, times.now)))) }
    ensures prefix { WritesPrefix (K.written sink.old)
        (flat_map line (told.line_of_task (pid, times.now))) (K.written sink.new) }

    ensures faultless { OnOk result (K.faults sink.new ≡ K.faults sink.old) }
    ensures failed { OnErr result (Rose (K.faults sink.old) (K.faults sink.new)) }
    ensures counted { K.faults sink.old ≤ K.faults sink.new }
{
    if times.is_shown() {
        write_all(sink, task_line(pid, times).as_bytes())
    } else {
        Ok(())
    }
}

/// The line of a cookie, if some task had it for some time or something was charged to it.
fn write_cookie<K: Sink>(cookie: u32, times: &CookieTimes, sink: &mut K) -> Result<(), Failed>
    ensures ok { OnOk result (K.written sink.new
        ≡ appended (K.written sink.old) (flat_map line (told.line_of_cookie (cookie, times.now)))) }
    ensures prefix { WritesPrefix (K.written sink.old)
        (flat_map line (told.line_of_cookie (cookie, times.now))) (K.written sink.new) }

    ensures faultless { OnOk result (K.faults sink.new ≡ K.faults sink.old) }
    ensures failed { OnErr result (Rose (K.faults sink.old) (K.faults sink.new)) }
    ensures counted { K.faults sink.old ≤ K.faults sink.new }
{
    if times.is_shown() {
        write_all(sink, cookie_line(cookie, times).as_bytes())
    } else {
        Ok(())
    }
}

/// The lines of the tasks. At an `Err` the sink has failed, and a prefix of them is written.
fn write_tasks<K: Sink>(tasks: &[TaskTimes], sink: &mut K) -> Result<(), Failed>
    requires few { length tasks.now < 2 ^ 32 }
    ensures ok { OnOk result (K.written sink.new
        ≡ appended (K.written sink.old) (flat_map line (told.lines_of_tasks tasks.now))) }
    ensures prefix { WritesPrefix (K.written sink.old)
        (flat_map line (told.lines_of_tasks tasks.now)) (K.written sink.new) }

    ensures faultless { OnOk result (K.faults sink.new ≡ K.faults sink.old) }
    ensures failed { OnErr result (Rose (K.faults sink.old) (K.faults sink.new)) }
    ensures counted { K.faults sink.old ≤ K.faults sink.new }
{
    for pid in 0..tasks.len() {
        write_task(pid as u32, &tasks[pid], sink)?;
    }
    Ok(())
}

/// The lines of the cookies. At an `Err` the sink has failed, and a prefix of them is written.
fn write_cookies<K: Sink>(cookies: &[CookieTimes], sink: &mut K) -> Result<(), Failed>
    requires few { length cookies.now < 2 ^ 32 }
    ensures ok { OnOk result (K.written sink.new
        ≡ appended (K.written sink.old) (flat_map line (told.lines_of_cookies cookies.now))) }
    ensures prefix { WritesPrefix (K.written sink.old)
        (flat_map line (told.lines_of_cookies cookies.now)) (K.written sink.new) }

    ensures faultless { OnOk result (K.faults sink.new ≡ K.faults sink.old) }
    ensures failed { OnErr result (Rose (K.faults sink.old) (K.faults sink.new)) }
    ensures counted { K.faults sink.old ≤ K.faults sink.new }
{
    for cookie in 0..cookies.len() {
        write_cookie(cookie as u32, &cookies[cookie], sink)?;
    }
    Ok(())
}

/// Writes what is told of the tasks and the cookies of a run: a line for each task that lived for some time or was
/// charged something, by rising pid, and then one for each cookie that some task had for some time or to which
/// something was charged, by rising number. Each line goes to the sink in one piece, and again with the rest if the
/// sink took only a part. At an `Err` the sink has failed, and a prefix of the text is written. It takes no memory.
pub(crate) fn task_summary<K: Sink>(times: &RunTasks, sink: &mut K) -> Result<(), Failed>
    ensures ok { OnOk result (K.written sink.new
        ≡ appended (K.written sink.old) (told.task_text times.now)) }
    ensures prefix { WritesPrefix (K.written sink.old) (told.task_text times.now)
        (K.written sink.new) }

    ensures faultless { OnOk result (K.faults sink.new ≡ K.faults sink.old) }
    ensures failed { OnErr result (Rose (K.faults sink.old) (K.faults sink.new)) }
    ensures counted { K.faults sink.old ≤ K.faults sink.new }
{
    write_tasks(times.tasks(), sink)?;
    write_cookies(times.cookies(), sink)
}
