//! The contract of a machine that plays the core.

ghost use Rattle.std.specs.Prelude.{◌≡◌, ◌+◌, ◌*◌, ◌<◌, ◌≤◌, ℕ, [], ◌∷◌, ◌++◌, length, slice_get, All, IfSome, ◌^◌, true};
ghost use Rattle.std.specs.Option.{option_map};
ghost use Rattle.cs_types.specs.Scenario.{IsEvent, IsPlayable};
ghost use Rattle.cs_types.specs.Room.{Opening};
ghost use Rattle.cs_types.specs.Touches.{task_number, pick_number, selection_of};
ghost use Rattle.cs_types.specs.History.{History, moment_of, fold_of, ledger_of, reply_to, AreEvents, IsLegal};
ghost use Rattle.cs_types.specs.Drain.{pending, IsDrained};
ghost use Rattle.cs_types.specs.View.{core_view, cpu_view, task_view_after, end_view, guard_view, IsTrusted, AdoptsByNumbers};
ghost use Rattle.cs_types.specs.Laws.{SelectsCoreWide, scheduling_room, cpu_of, IsConsistentAt, IsSettled, RunOneCookie, is_refused, LeavesTheRoom};

use crate::event::{Actor, Event};
use crate::reply::{Entry, Reply};
use crate::task::{Cpu, Pid};
use crate::view::{CoreView, CpuView, EndView, GuardView, TaskView};

/// A machine. Whatever it keeps, it stands for a scenario and the legal history of the steps that
/// were made, and what it shows is the fold of that history.
pub trait Room: Drop {
    /// What it began with: the scenario that it plays, and how many guards were handed in. No call changes
    /// it. The guards at the start follow from it (`start`).
    ghost opening: { Self → Opening };

    /// The steps so far, with their replies.
    ghost history: { Self → History };

    /// How many more entries it can take.
    ghost spare: { Self → ℕ };

    /// Makes one step, and answers what the rules answer. It takes no memory.
    ///
    /// `spare` has to be above 0, and what the event names keeps its limits: a sibling that the core
    /// has, a pid from 1 to 999999, an advance of 1 to 1000000000 ns, a policy with the limits of its
    /// numbers (`Policy`), and a guard from 0 to 15.
    fn apply(&mut self, actor: Actor, event: Event) -> Reply
        requires spare { 0 < spare self.old }
        requires event { IsEvent (opening self.old).scenario.siblings event }

        ensures reply { result ≡ reply_to (opening self.old) (history self.old) event }
        ensures entry { history self.new ≡ history self.old
            ++ record { actor = actor; event = event; reply = result } ∷ [] }
        ensures spare { spare self.new + 1 ≡ spare self.old }
        ensures opening { opening self.new ≡ opening self.old }

        // A core-wide selection takes a lead than which no queued task is higher, and gives each
        // online sibling only a task with the lead's cookie, or idle.
        ensures selection { IfSome (selection_of result) (λ pick. SelectsCoreWide
            (scheduling_room (fold_of (opening self.old) (history self.old)) event)
            (cpu_of event) pick
            (fold_of (opening self.new) (history self.new))) }

        // A refused event leaves the room as it was but for its entry, and but for the asked counts and a
        // used serial: guards that were asked before a refusal keep their raised counts, and a CREATE that
        // is refused for a member has used its serial.
        ensures refused { is_refused result ≡ true → LeavesTheRoom
            (fold_of (opening self.old) (history self.old)) event
            (fold_of (opening self.new) (history self.new)) };

    /// Makes the entries of the final drain, and answers how many: while an online sibling is pending,
    /// one schedules. At most as many are made as the square of the siblings, and `spare` has to be at
    /// least that. It takes no memory, and never tries to steal.
    fn drain(&mut self) -> u64
        requires spare { (opening self.old).scenario.siblings * (opening self.old).scenario.siblings
            ≤ spare self.old }

        ensures entries { IsDrained (opening self.old) (history self.old) (history self.new) }
        ensures count { length (history self.new) ≡ length (history self.old) + result }
        ensures few { result
            ≤ (opening self.old).scenario.siblings * (opening self.old).scenario.siblings }
        ensures spare { spare self.new + result ≡ spare self.old }
        ensures opening { opening self.new ≡ opening self.old }

        // No sibling is pending after it. So no two running tasks differ in cookie.
        ensures nobody_pending { pending (fold_of (opening self.new) (history self.new)) ≡ [] }
        ensures one_cookie { RunOneCookie (fold_of (opening self.new) (history self.new)) };

    /// How many more entries it can take, a count.
    fn spare(&self) -> u64
        ensures { result ≡ spare self.now };

    /// The length of the history, a count. What each entry's event names keeps its limits.
    fn length(&self) -> u64
        ensures length { result ≡ length (history self.now) }
        ensures events { AreEvents (opening self.now) (history self.now) };

    /// The entry at a place of the history, from 0 for the oldest. `None` exactly if the place is
    /// not below the length.
    fn entry(&self, place: u64) -> Option<Entry>
        ensures { result ≡ slice_get (history self.now) place };

    /// The SMT siblings of the core, a count. The scenario keeps the limits of one that can be played.
    fn siblings(&self) -> u8
        ensures siblings { result ≡ (opening self.now).scenario.siblings }
        ensures playable { IsPlayable (opening self.now).scenario };

    /// The clock, in ns from the start.
    fn clock(&self) -> u64
        ensures { result ≡ (fold_of (opening self.now) (history self.now)).clock };

    /// The task number and the pick number: how often the history touched the queues, and how often
    /// up to its last core-wide selection and with it.
    fn numbers(&self) -> (u64, u64)
        ensures { let ledger = ledger_of (opening self.now) (history self.now) in
            result ≡ (task_number ledger, pick_number ledger) };

    /// What the siblings share.
    fn core(&self) -> CoreView
        ensures view { result ≡ core_view (moment_of (opening self.now) (history self.now)) }

        // While some sibling is forced idle, some sibling has a task. So the divisor of a share is not 0.
        ensures occupied { 0 < result.forced → 0 < result.occupation }
        ensures divisors { All (λ interval. 0 < interval.occupation)
            (fold_of (opening self.now) (history self.now)).intervals };

    /// A sibling. `None` exactly if the core has no such sibling.
    fn cpu(&self, cpu: Cpu) -> Option<CpuView>
        ensures view { result ≡ cpu_view (moment_of (opening self.now) (history self.now)) cpu }

        // The trust rule, of what `core`, this call and `task_after` show of one room: a sibling that is
        // online and not pending runs idle or a task with the core cookie. A pending one may still run a
        // task that no longer matches, until it takes its reschedule.
        ensures trust { let moment = moment_of (opening self.now) (history self.now) in
            IfSome result (IsTrusted (core_view moment) (task_view_after moment)) }

        // Of what `numbers` and this call show of one room: a turn and a reschedule of the sibling adopt exactly if the
        // pick number is the task number, the sibling's own number is another, and a pick waits for it.
        ensures adoption { let moment = moment_of (opening self.now) (history self.now) in
            IfSome result
            (AdoptsByNumbers moment cpu (task_number moment.ledger, pick_number moment.ledger)) };

    /// The living task with the least pid above this one. `None` exactly if there is none.
    fn task_after(&self, pid: Pid) -> Option<TaskView>
        ensures view { result
            ≡ task_view_after (moment_of (opening self.now) (history self.now)) pid }

        // A virtual time is far below what its type holds.
        ensures bounded { IfSome result (λ task. task.vtime < 2 ^ 80) };

    /// A task that ended, by the place of its end, from 0 for the first. `None` exactly if no more
    /// ended.
    fn ended(&self, place: u64) -> Option<EndView>
        ensures { result ≡ option_map (end_view (fold_of (opening self.now) (history self.now)))
            (slice_get (fold_of (opening self.now) (history self.now)).ended place) };

    /// The guard of this number, from 0 in the order in which they were handed in. `None` exactly if the number is not
    /// below that of the guards handed in.
    fn guard(&self, index: u8) -> Option<GuardView>
        ensures view { result
            ≡ guard_view (fold_of (opening self.now) (history self.now)).guards index }

        // A machine has at most 16 guards.
        ensures few { length (fold_of (opening self.now) (history self.now)).guards.all ≤ 16 };

    /// Each reply so far is the one that the rules give at its place.
    ghost legal: { (room : Self) → IsLegal (opening room) (history room) };

    /// Each sibling is consistent: what it runs and what waits for it is queued on it, and an offline
    /// one does nothing. The premises are what `siblings` and `length` promise.
    ghost consistent: { (room : Self) → IsPlayable (opening room).scenario →
        AreEvents (opening room) (history room) →
        (cpu : ℕ) → cpu < (opening room).scenario.siblings →
        IsConsistentAt (moment_of (opening room) (history room)) cpu };

    /// The trust rule: an online sibling that is not pending runs idle or a living task with the core
    /// cookie.
    ghost settled: { (room : Self) → IsPlayable (opening room).scenario →
        AreEvents (opening room) (history room) →
        IsSettled (fold_of (opening room) (history room)) };
}
