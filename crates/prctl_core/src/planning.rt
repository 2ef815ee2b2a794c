//! The plan of a call, command by command.

ghost use Rattle.std.specs.Prelude.{◌≡◌, ◌≢◌, ◌+◌, ◌^◌, ◌<◌, length, find, All, Some};
ghost use Rattle.cs_types.specs.Guards.{asked_each};
ghost use Rattle.cs_types.specs.Room.{RoomState, has_pid};
ghost use Rattle.cs_types.specs.Scenario.{IsWithin};
ghost use Rattle.cs_types.specs.Prctl.{live_cookies, prctl_answer, asked_by_call, makes_cookie, with_used};
ghost use Rattle.task_table.specs.Table.{IsSound};
ghost use Rattle.cookie_refs.specs.Refs.{count_of, Agree, AgreeBut};
ghost use Rattle.prctl_core.specs.Plan.{IsRoomOf, reply_of, held_by, IsPlanned, SetsIn, get_plan, gift, IsFull, IsMade};

use crate::admitted::{Called, admit};
use crate::arguments::{Command, Scope};
use crate::decision::{Decision, Planned, Target};
use crate::members::{itself, members};
use cookie_refs::CookieRefs;
use cs_outside::Guard;
use cs_types::{Ask, Cookie, Errno, Pid, Reply, Task};
use ptrace_check::Guards;
use task_table::TaskTable;

/// The least address at which a GET may write, in bytes.
const LEAST_ADDRESS: u64 = 4096;

/// How many bytes a GET writes, at an address that is a multiple of this.
const COOKIE_BYTES: u64 = 8;

/// A call that is refused with this error.
fn refused(errno: Errno) -> Planned
    ensures { result ≡ Planned.Answer (Reply.Refused errno) }
{
    Planned::Answer(Reply::Refused(errno))
}

/// The outcome of a GET.
fn get(called: &Called<'_>, addr: u64, user_top: u64) -> Planned
    requires user_top { IsWithin 8192 9223372036854775807 user_top }
    ensures { result ≡ get_plan called.now addr user_top }
{
    if !matches!(called.scope, Scope::Thread) || addr % COOKIE_BYTES != 0 {
        return refused(Errno::Einval);
    }
    if addr < LEAST_ADDRESS || addr > user_top - COOKIE_BYTES {
        return refused(Errno::Efault);
    }
    Planned::Go(Decision {
        to: Target::Nobody,
        cookie: 0,
        reply: Reply::Value(called.target.cookie),
    })
}

/// The tasks get the cookie, to which the plan holds a reference. If the call is refused, that is
/// given back.
#[inline(always)]
fn give(refs: &mut CookieRefs, cookie: Cookie, to: Result<Target, Errno>) -> Planned
    requires held { cookie ≢ 0 → 0 < count_of refs.old cookie }
    ensures plan { result ≡ gift cookie to }
    ensures agree { (tasks : _) → AgreeBut refs.old tasks cookie →
        AgreeBut refs.new tasks (held_by result) }
    ensures next { refs.new.next ≡ refs.old.next }
    ensures limit { refs.new.limit ≡ refs.old.limit }
{
    match to {
        Ok(to) => Planned::Go(Decision {
            to,
            cookie,
            reply: Reply::Zero,
        }),
        Err(errno) => {
            refs.put(cookie);
            refused(errno)
        }
    }
}

/// The outcome of a CREATE.
fn create<G: Guard>(
    table: &TaskTable,
    refs: &mut CookieRefs,
    guards: &mut Guards<G>,
    called: &Called<'_>,
) -> Planned
    requires agree { Agree refs.old table.now.tasks }
    requires serial { refs.old.next < 2 ^ 63 }
    requires few { length table.now.tasks < 2 ^ 16 }
    requires asked { All (λ guard. guard.asked < 2 ^ 62 + 16) guards.old.guards.all }
    ensures full { length (live_cookies table.now.tasks) ≡ refs.old.limit →
        IsFull refs.old refs.new guards.old.guards guards.new.guards result }
    ensures made { length (live_cookies table.now.tasks) ≢ refs.old.limit →
        IsMade refs.old refs.new guards.old.guards guards.new.guards
        table.now.tasks called.now result }
    ensures agree { AgreeBut refs.new table.now.tasks (held_by result) }
    ensures limit { refs.new.limit ≡ refs.old.limit }
    ensures caps { guards.new.caps ≡ guards.old.caps }
{
    match refs.make() {
        Ok(cookie) => give(refs, cookie, members(table, guards, called)),
        Err(_) => refused(Errno::Enomem),
    }
}

/// The outcome of a command that gives a cookie which a task has.
#[inline(always)]
fn share(
    table: &TaskTable,
    refs: &mut CookieRefs,
    task: &Task,
    to: Result<Target, Errno>,
) -> Planned
    requires sound { IsSound table.now }
    requires agree { Agree refs.old table.now.tasks }
    requires there { find (has_pid task.now.spec.pid) table.now.tasks ≡ Some task.now }
    ensures plan { result ≡ gift task.now.cookie to }
    ensures agree { AgreeBut refs.new table.now.tasks (held_by result) }
    ensures next { refs.new.next ≡ refs.old.next }
    ensures limit { refs.new.limit ≡ refs.old.limit }
{
    refs.get(task.cookie);
    give(refs, task.cookie, to)
}

/// The outcome of a call of `prctl(PR_SCHED_CORE, ..)` by the task with the pid. `online` siblings are online, of which
/// more than two need not be counted, and the caller's address space has `user_top` bytes, 8192 to 9223372036854775807.
///
/// `Answer` carries `NoCaller`, or the error of the first row of the table that applies. `Go` says
/// whose cookie becomes which, and the answer: `Zero`, or `Value` for a GET. The plan holds one
/// reference to its cookie, none to 0: whoever makes the setting gives it back at the end.
///
/// Each guard was asked fewer than 2^62 times. It may be asked about the target and about each member, up
/// to the first that may not be accessed, and its count stays raised whatever the answer is.
pub fn plan<G: Guard>(
    table: &TaskTable,
    refs: &mut CookieRefs,
    guards: &mut Guards<G>,
    online: u8,
    user_top: u64,
    caller: Pid,
    ask: &Ask,
) -> Planned
    requires user_top { IsWithin 8192 9223372036854775807 user_top }
    requires agree { Agree refs.old table.now.tasks }
    requires serial { refs.old.next < 2 ^ 63 }
    requires asked { All (λ guard. guard.asked < 2 ^ 62) guards.old.guards.all }

    // In each room of which these are the parts, this is the answer, and so are the cookies set. If a
    // cookie is made, its number is used, and these guards were asked.
    ensures answer { (room : RoomState) →
        IsRoomOf room table.now refs.old guards.old.guards online user_top →
        prctl_answer room caller ask.now ≡ reply_of result }
    ensures sets { (room : RoomState) →
        IsRoomOf room table.now refs.old guards.old.guards online user_top →
        SetsIn room caller ask.now result }
    ensures serial { (room : RoomState) →
        IsRoomOf room table.now refs.old guards.old.guards online user_top →
        refs.new.next ≡ (with_used room (makes_cookie room caller ask.now)
        (asked_by_call room caller ask.now)).next_cookie }
    ensures asked { (room : RoomState) →
        IsRoomOf room table.now refs.old guards.old.guards online user_top →
        guards.new.guards ≡ asked_each room.guards (asked_by_call room caller ask.now) }

    // It goes exactly if the call succeeds, and then holds a reference to its cookie.
    ensures planned { IsPlanned result }
    ensures held { AgreeBut refs.new table.now.tasks (held_by result) }
    ensures limit { refs.new.limit ≡ refs.old.limit }
    ensures caps { guards.new.caps ≡ guards.old.caps }
{
    let called = match admit(table, guards, online, caller, ask) {
        Ok(called) => called,
        Err(reply) => return Planned::Answer(reply),
    };
    match called.command {
        Command::Get => get(&called, ask.addr, user_top),
        Command::Create => create(table, refs, guards, &called),
        Command::ShareTo => {
            let to = members(table, guards, &called);
            share(table, refs, called.caller, to)
        }
        Command::ShareFrom => share(table, refs, called.target, itself(&called)),
    }
}
