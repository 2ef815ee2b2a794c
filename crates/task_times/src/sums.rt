//! The times of the tasks of a run, as it goes on.

ghost use Rattle.std.specs.Prelude.{◌≡◌, ◌+◌, ◌-◌, ◌*◌, ◌^◌, ◌<◌, ◌≤◌, ℕ, [], ◌∷◌, ◌++◌, length, All, IfOk, Some, true, ◌==◌, sum_by, slice_index_or, slice_set};
ghost use Rattle.std.specs.List.{list_any};
ghost use Rattle.cs_types.specs.declared.task.Task.{Task};
ghost use Rattle.cs_types.specs.declared.event.Event.TheVariants.{Exit};
ghost use Rattle.cs_types.specs.Room.{Opening, task_of};
ghost use Rattle.cs_types.specs.declared.reply.Entry.{Entry};
ghost use Rattle.cs_types.specs.Scenario.{IsEvent, IsPlayable};
ghost use Rattle.cs_types.specs.History.{History, fold_of, AreEvents};
ghost use Rattle.run_times.specs.Times as span;
ghost use Rattle.task_times.specs.Living as living;
ghost use Rattle.task_times.specs.DoingTimes as by_doing;
ghost use Rattle.task_times.specs.TaskSums as sums;

use crate::doing::TaskDoing;
use crate::looks::doing_of;
use crate::times::{CookieTimes, TaskTimes};
use cs_types::{Cpu, Event, Room, TaskView};
use run_times::{advance_of, cookie_run};
use std::alloc::{AllocError, Global};
use std::marker::Model;

/// What each task and the tasks of each cookie did in a run and for how long, and what they were charged, in ns. After
/// it is opened it takes no memory.
#[derive(Drop)]
pub struct RunTasks {
    /// By the pid.
    tasks: Vec<TaskTimes>,
    /// By the number of the cookie, 0 for none.
    cookies: Vec<CookieTimes>,
}

impl Model for RunTasks {
    ghost use Rattle.std.specs.Prelude.{◌-◌, ◌^◌, ◌<◌, length};
    ghost use Rattle.task_times.specs.TaskSums.{TaskSums};

    ghost Value = { TaskSums };

    ghost view = { λ times. record {
      entries = length times.cookies.items - 1;
      tasks = times.tasks.items;
      cookies = times.cookies.items;
    } };

    ghost invariant = { λ times. (length times.tasks.items < 2 ^ 32)
        × (length times.cookies.items < 2 ^ 32) };
}

/// Adds the time of an advance to one task and to its cookie, by what it does before it.
fn add_to_one(
    tasks: &mut [TaskTimes],
    cookies: &mut [CookieTimes],
    task: TaskView,
    doing: TaskDoing,
    time: u64,
)
    requires task { task.pid < length tasks.old }
    requires cookie { task.cookie < length cookies.old }
    requires lived { (none : TaskTimes) →
        by_doing.part doing (slice_index_or tasks.old task.pid none).by_doing + time ≤ u64.MAX }
    requires part { (none : CookieTimes) →
        by_doing.part doing (slice_index_or cookies.old task.cookie none).by_doing + time
        ≤ u64.MAX }
    ensures tasks { (none : TaskTimes) →
        tasks.new ≡ slice_set tasks.old task.pid
        (sums.with_span (Some doing) time (slice_index_or tasks.old task.pid none)) }
    ensures cookies { (none : CookieTimes) →
        cookies.new ≡ slice_set cookies.old task.cookie
        (sums.with_one doing time (slice_index_or cookies.old task.cookie none)) }
{
    tasks[task.pid as usize].by_doing.add(doing, time);
    cookies[task.cookie as usize].by_doing.add(doing, time);
}

/// Adds the time of an advance to each living task and to its cookie, by what it does in the room before it.
fn add_to_each<R: Room>(tasks: &mut [TaskTimes], cookies: &mut [CookieTimes], room: &R, time: u64)
    requires playable { IsPlayable (R.opening room.now).scenario }
    requires events { AreEvents (R.opening room.now) (R.history room.now) }
    requires rows { All (λ task. (task.spec.pid < length tasks.old)
        × (task.cookie < length cookies.old))
        (fold_of (R.opening room.now) (R.history room.now)).tasks }
    requires lived { All (λ times. sums.lived times + time ≤ u64.MAX) tasks.old }
    requires had { All (λ times.
        sums.had times + time * length (fold_of (R.opening room.now) (R.history room.now)).tasks
        ≤ u64.MAX) cookies.old }
    ensures tasks { (pid : ℕ) (none : TaskTimes) → pid < length tasks.old →
        slice_index_or tasks.new pid none
        ≡ sums.with_span
        (living.doing_at (fold_of (R.opening room.now) (R.history room.now)) pid) time
        (slice_index_or tasks.old pid none) }
    ensures cookies { (cookie : ℕ) (none : CookieTimes) → cookie < length cookies.old →
        slice_index_or cookies.new cookie none
        ≡ sums.with_doers (fold_of (R.opening room.now) (R.history room.now)) cookie time
        (slice_index_or cookies.old cookie none) }
{
    let mut pid = 0;
    while let Some(task) = room.task_after(pid) {
        let doing = doing_of(room, task);
        add_to_one(tasks, cookies, task, doing, time);
        pid = task.pid;
    }
}

/// Notes what each living task was charged, and the cookie that it has.
fn charge_living<R: Room>(tasks: &mut [TaskTimes], room: &R)
    requires playable { IsPlayable (R.opening room.now).scenario }
    requires rows { All (λ task. (task.spec.pid < length tasks.old) × (task.cookie < 2 ^ 32))
        (fold_of (R.opening room.now) (R.history room.now)).tasks }
    ensures { let state = fold_of (R.opening room.now) (R.history room.now) in
        (pid : ℕ) (none : TaskTimes) → pid < length tasks.old →
        slice_index_or tasks.new pid none
        ≡ sums.charged_living (task_of state pid) state pid (slice_index_or tasks.old pid none) }
{
    let mut pid = 0;
    while let Some(task) = room.task_after(pid) {
        tasks[task.pid as usize].charge_for(task.forced, task.cookie);
        pid = task.pid;
    }
}

/// Notes what each task that ended was charged.
fn charge_ended<R: Room>(tasks: &mut [TaskTimes], room: &R)
    requires rows { All (λ pid. pid < length tasks.old)
        (fold_of (R.opening room.now) (R.history room.now)).ended }
    requires few { length (fold_of (R.opening room.now) (R.history room.now)).ended < 2 ^ 26 }
    ensures { let state = fold_of (R.opening room.now) (R.history room.now) in
        (pid : ℕ) (none : TaskTimes) → pid < length tasks.old →
        slice_index_or tasks.new pid none
        ≡ sums.charged_where (list_any (λ other. other == pid) state.ended) state pid
        (slice_index_or tasks.old pid none) }
{
    let mut place = 0;
    while let Some(end) = room.ended(place) {
        tasks[end.pid as usize].charge(end.forced);
        place += 1;
    }
}

/// Notes what each task was charged, whether it lives or ended, and the cookie that each living one has.
fn charge_each<R: Room>(tasks: &mut [TaskTimes], room: &R)
    requires playable { IsPlayable (R.opening room.now).scenario }
    requires rows { All (λ task. (task.spec.pid < length tasks.old) × (task.cookie < 2 ^ 32))
        (fold_of (R.opening room.now) (R.history room.now)).tasks }
    requires ended { All (λ pid. pid < length tasks.old)
        (fold_of (R.opening room.now) (R.history room.now)).ended }
    requires few { length (fold_of (R.opening room.now) (R.history room.now)).ended < 2 ^ 26 }
    ensures { let state = fold_of (R.opening room.now) (R.history room.now) in
        (pid : ℕ) (none : TaskTimes) → pid < length tasks.old →
        slice_index_or tasks.new pid none
        ≡ sums.charged_where (list_any (λ other. other == pid) state.ended) state pid
        (sums.charged_living (task_of state pid) state pid (slice_index_or tasks.old pid none)) }
{
    charge_living(tasks, room);
    charge_ended(tasks, room);
}

/// Adds what each task was charged to the row of the cookie for which it counts.
fn charge_cookies(cookies: &mut [CookieTimes], tasks: &[TaskTimes])
    requires rows { All (λ times. times.cookie < length cookies.old) tasks.now }
    requires fits { All (λ times. times.charged + u64.MAX * length tasks.now ≤ u128.MAX)
        cookies.old }
    ensures { (cookie : ℕ) (none : CookieTimes) → cookie < length cookies.old →
        slice_index_or cookies.new cookie none
        ≡ sums.charged_more (sums.charged_to tasks.now cookie)
        (slice_index_or cookies.old cookie none) }
{
    for times in tasks {
        cookies[times.cookie as usize].charge(times.charged);
    }
}

impl RunTasks {
    /// The times before the first entry, for this number of entries: those of the steps, and those of the
    /// final drain if these are taken in too.
    pub fn open(alloc: Global, entries: usize) -> Result<Self, AllocError>
        requires { entries < 2 ^ 26 }
        ensures { IfOk result
            (λ times. (opening : Opening) → times ≡ sums.sums_so_far entries opening []) }
    {
        Ok(RunTasks {
            tasks: vec![in alloc; TaskTimes::none(); entries + 10000]?,
            cookies: vec![in alloc; CookieTimes::none(); entries + 1]?,
        })
    }

    /// Adds the time of an advance, by what the tasks do in the room before it.
    fn advance<R: Room>(&mut self, room: &R, time: u64)
        requires playable { IsPlayable (R.opening room.now).scenario }
        requires events { AreEvents (R.opening room.now) (R.history room.now) }
        requires times { self.old
            ≡ sums.sums_so_far self.old.entries (R.opening room.now) (R.history room.now) }
        requires few { length (R.history room.now) ≤ self.old.entries }
        requires fits { self.old.entries < 2 ^ 26 }
        requires time { time ≤ 1000000000 }
        ensures { (entry : Entry) → span.advance_of entry.event ≡ Some time →
            self.new ≡ sums.sums_so_far self.old.entries (R.opening room.now)
            (R.history room.now ++ entry ∷ []) }
    {
        add_to_each(
            self.tasks.as_mut_slice(),
            self.cookies.as_mut_slice(),
            room,
            time,
        );
    }

    /// Notes the cookie of the task that the sibling is to end, by what it runs before that.
    fn leave<R: Room>(&mut self, room: &R, cpu: Cpu)
        requires playable { IsPlayable (R.opening room.now).scenario }
        requires times { self.old
            ≡ sums.sums_so_far self.old.entries (R.opening room.now) (R.history room.now) }
        requires few { length (R.history room.now) ≤ self.old.entries }
        requires fits { self.old.entries < 2 ^ 26 }
        ensures { (entry : Entry) → entry.event ≡ Exit cpu →
            self.new ≡ sums.sums_so_far self.old.entries (R.opening room.now)
            (R.history room.now ++ entry ∷ []) }
    {
        if let Some(cookie) = cookie_run(room, cpu) {
            if let Some(view) = room.cpu(cpu) {
                self.tasks[view.run as usize].count_for(cookie);
            }
        }
    }

    /// Takes in an event that is to be made next in the room, whoever makes it. The room has to be the one whose times
    /// these are, and may have made as many entries as these were opened for.
    pub fn before<R: Room>(&mut self, room: &R, event: Event)
        requires playable { IsPlayable (R.opening room.now).scenario }
        requires events { AreEvents (R.opening room.now) (R.history room.now) }
        requires event { IsEvent (R.opening room.now).scenario.siblings event }
        requires times { self.old
            ≡ sums.sums_so_far self.old.entries (R.opening room.now) (R.history room.now) }
        requires few { length (R.history room.now) ≤ self.old.entries }
        requires fits { self.old.entries < 2 ^ 26 }
        ensures { (entry : Entry) → entry.event ≡ event →
            self.new ≡ sums.sums_so_far self.old.entries (R.opening room.now)
            (R.history room.now ++ entry ∷ []) }
    {
        if let Some(time) = advance_of(event) {
            self.advance(room, time);
        } else if let Event::Exit(cpu) = event {
            self.leave(room, cpu);
        }
    }

    /// Notes what each task was charged and the cookie for which that counts, and adds it up by cookies, at the end of
    /// a run. The room has to be the one whose times these are, and may have made as many entries as these were opened
    /// for.
    pub fn close<R: Room>(&mut self, room: &R)
        requires playable { IsPlayable (R.opening room.now).scenario }
        requires times { self.old
            ≡ sums.sums_so_far self.old.entries (R.opening room.now) (R.history room.now) }
        requires few { length (R.history room.now) ≤ self.old.entries }
        requires fits { self.old.entries < 2 ^ 26 }
        ensures times { self.new
            ≡ sums.sums_of self.old.entries (R.opening room.now) (R.history room.now) }

        // What a task ran, waited and slept adds up to the time in which it lived.
        ensures adds_up { (pid : ℕ) (none : TaskTimes) → pid < length self.new.tasks →
            sums.lived (slice_index_or self.new.tasks pid none)
            ≡ span.time_in (living.lives pid)
            (span.spans_of (R.opening room.now) (R.history room.now)) }

        // So for a task of the scenario that lives at the end it is what the clock shows.
        ensures clock { let state = fold_of (R.opening room.now) (R.history room.now) in
            All (λ spec. living.lives spec.pid state ≡ true → (none : TaskTimes) →
            sums.lived (slice_index_or self.new.tasks spec.pid none) ≡ state.clock)
            (R.opening room.now).scenario.tasks }

        // What the tasks of a cookie ran, waited and slept adds up to the time of each of them while it had it.
        ensures shared { (cookie : ℕ) (none : CookieTimes) → cookie < length self.new.cookies →
            sums.had (slice_index_or self.new.cookies cookie none)
            ≡ sums.time_by (λ state. length (living.holders cookie state))
            (span.spans_of (R.opening room.now) (R.history room.now)) }

        // A task that ended counts for the cookie that it had right before the exit that ended it.
        ensures ended { (past rest : History) (entry : Entry) (task : Task) →
            R.history room.now ≡ past ++ entry ∷ rest →
            living.ended_by (fold_of (R.opening room.now) past) entry.event ≡ Some task →
            (none : TaskTimes) →
            (slice_index_or self.new.tasks task.spec.pid none).cookie ≡ task.cookie }

        // What all cookies are charged adds up to what all tasks are. So no charge is lost, and none is counted twice.
        ensures charged { sum_by (λ times. times.charged) self.new.cookies
            ≡ sums.all_charged self.new.tasks }
    {
        charge_each(self.tasks.as_mut_slice(), room);
        charge_cookies(self.cookies.as_mut_slice(), self.tasks.as_slice());
    }

    /// The times of each task, by its pid.
    pub fn tasks(&self) -> &[TaskTimes]
        ensures rows { result.now ≡ self.now.tasks }
        ensures few { length result.now < 2 ^ 32 }
    {
        self.tasks.as_slice()
    }

    /// The times of the tasks of each cookie, by its number, 0 for none.
    pub fn cookies(&self) -> &[CookieTimes]
        ensures rows { result.now ≡ self.now.cookies }
        ensures few { length result.now < 2 ^ 32 }
    {
        self.cookies.as_slice()
    }
}
