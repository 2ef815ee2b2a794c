//! Users and tasks, as the words of their lines spell them. What they may not be because of other lines is
//! elsewhere, with the plan.

ghost use Rattle.std.specs.Prelude.{◌≡◌, ◌&&◌, [], ◌∷◌, true, false, codes, MatchResult};
ghost use Rattle.scenario_text.specs.declared.fault.BadKind.TheVariants.{Number};
ghost use Rattle.scenario_text.specs.Grammar.{is_word, is_number, is_signed, value, flag, policy, creds_form, owner_form, user_form, task_form};
ghost use Rattle.scenario_text.specs.Reading.{lent, read_in, signed_value, flag_value, policy_value, creds_value, user_value, user_at, owner_value, task_value};

use crate::fault::BadKind;
use crate::number::{parse_cpu, parse_flag, parse_number, parse_signed, parse_u8, parse_u32};
use crate::words::is_word;
use cs_types::{Creds, Policy, TaskSpec};

/// The greatest number of a task, a thread group or a process group. The least is 1.
pub const MOST_PID: u32 = 9999;

/// The greatest relative deadline, in ns. The least is 1.
pub const MOST_DEADLINE: u64 = 1_000_000_000;

/// The greatest priority of `SCHED_FIFO` and `SCHED_RR`. The least is 1.
pub const MOST_PRIORITY: u8 = 99;

/// How far below 0 a nice value may be.
pub const MOST_NICE_BELOW: u32 = 20;

/// How far above 0 a nice value may be.
pub const MOST_NICE_ABOVE: u32 = 19;

/// The greatest user or group id. The least is 0.
pub const MOST_ID: u32 = 65535;

/// The greatest number of a user of version 2. The least is 0.
pub const MOST_USER: u8 = 255;

/// What a user line says: a user's number, and its credentials.
#[derive(Clone, Copy)]
pub(crate) struct UserLine {
    pub number: u8,
    pub creds: Creds,
}

/// What a task line says: a task, and in version 2 the number of the user whose credentials it has, in version 1
/// 0.
#[derive(Clone, Copy)]
pub(crate) struct TaskLine {
    pub spec: TaskSpec,
    pub user: u8,
}

/// A nice value.
fn parse_nice(word: &[u8]) -> Result<i8, BadKind>
    ensures { MatchResult result
        (λ n. (is_signed 20 19 word.now ≡ true) × (n ≡ signed_value word.now))
        (λ kind. (is_signed 20 19 word.now ≡ false) × (kind ≡ Number)) }
{
    Ok(parse_signed(word, MOST_NICE_BELOW, MOST_NICE_ABOVE)? as i8)
}

/// Whether the word is `stop`, or begins with the name of a policy and a colon.
pub(crate) fn has_policy_shape(word: &[u8]) -> bool
    ensures { result ≡ policy.has_shape word.now }
{
    if is_word(word, "stop") {
        return true;
    }
    let is_real_time = word.starts_with(b"fifo:") || word.starts_with(b"rr:");
    word.starts_with(b"dl:") || is_real_time || word.starts_with(b"fair:")
}

/// `stop`, or the name of a policy, a colon and its number.
pub(crate) fn parse_policy(word: &[u8]) -> Result<Policy, BadKind>
    ensures { MatchResult result
        (λ said. (policy.is_right word.now ≡ true) × (said ≡ policy_value word.now))
        (λ kind. (policy.is_right word.now ≡ false) × (kind ≡ Number)) }
{
    if is_word(word, "stop") {
        Ok(Policy::Stop)
    } else if let Some(relative) = word.strip_prefix(b"dl:") {
        parse_number(relative, 1, MOST_DEADLINE).map(Policy::Deadline)
    } else if let Some(priority) = word.strip_prefix(b"fifo:") {
        parse_u8(priority, 1, MOST_PRIORITY).map(Policy::Fifo)
    } else if let Some(priority) = word.strip_prefix(b"rr:") {
        parse_u8(priority, 1, MOST_PRIORITY).map(Policy::Rr)
    } else if let Some(nice) = word.strip_prefix(b"fair:") {
        parse_nice(nice).map(Policy::Fair)
    } else {
        Err(BadKind::Number)
    }
}

/// Three numbers from `low` to `high`.
fn parse_three(
    first: &[u8],
    second: &[u8],
    third: &[u8],
    low: u32,
    high: u32,
) -> Result<(u32, u32, u32), BadKind>
    ensures { MatchResult result
        (λ said. (is_number low high first.now && is_number low high second.now
        && is_number low high third.now ≡ true)
        × (said ≡ (value first.now, value second.now, value third.now)))
        (λ kind. (is_number low high first.now && is_number low high second.now
        && is_number low high third.now ≡ false) × (kind ≡ Number)) }
{
    let (Ok(first), Ok(second), Ok(third)) = (
        parse_u32(first, low, high),
        parse_u32(second, low, high),
        parse_u32(third, low, high),
    ) else {
        return Err(BadKind::Number);
    };
    Ok((first, second, third))
}

/// The three flags of a task.
fn parse_flags(cap: &[u8], mm: &[u8], dumpable: &[u8]) -> Result<(bool, bool, bool), BadKind>
    ensures { MatchResult result
        (λ said. (flag.is_right cap.now && flag.is_right mm.now
        && flag.is_right dumpable.now ≡ true)
        × (said ≡ (flag_value cap.now, flag_value mm.now, flag_value dumpable.now)))
        (λ kind. (flag.is_right cap.now && flag.is_right mm.now
        && flag.is_right dumpable.now ≡ false) × (kind ≡ Number)) }
{
    let (Ok(cap), Ok(mm), Ok(dumpable)) = (parse_flag(cap), parse_flag(mm), parse_flag(dumpable))
    else {
        return Err(BadKind::Number);
    };
    Ok((cap, mm, dumpable))
}

/// The words after a policy: the task's credentials.
fn parse_creds(words: &[&[u8]]) -> Result<Creds, BadKind>
    ensures { result ≡ read_in ((creds_form, creds_value) ∷ []) (lent words.now) }
{
    let [ruid, euid, suid, rgid, egid, sgid, cap, mm, dumpable] = *words else {
        return Err(BadKind::Shape);
    };
    let (Ok((ruid, euid, suid)), Ok((rgid, egid, sgid)), Ok((cap, mm, dumpable))) = (
        parse_three(ruid, euid, suid, 0, MOST_ID),
        parse_three(rgid, egid, sgid, 0, MOST_ID),
        parse_flags(cap, mm, dumpable),
    ) else {
        return Err(BadKind::Number);
    };
    Ok(Creds {
        ruid,
        euid,
        suid,
        rgid,
        egid,
        sgid,
        cap,
        mm,
        dumpable,
    })
}

/// The words of a user line. The first of them is `user`.
pub(crate) fn parse_user(words: &[&[u8]]) -> Result<UserLine, BadKind>
    requires { is_word ((lent words.now).at 0) (codes "user") ≡ true }
    ensures { result ≡ read_in ((user_form, user_value) ∷ []) (lent words.now) }
{
    let [_, number, ref creds @ ..] = *words else {
        return Err(BadKind::Shape);
    };
    // Before the number, since the line has its shape only if nine words come after that.
    let creds = parse_creds(creds)?;
    let number = parse_u8(number, 0, MOST_USER)?;
    Ok(UserLine { number, creds })
}

/// The credentials of the user of this number, and those of nobody if there is none.
fn user_at(users: &[Creds], number: u8) -> Creds
    ensures { result ≡ user_at users.now number }
{
    let nobody = Creds {
        ruid: 0,
        euid: 0,
        suid: 0,
        rgid: 0,
        egid: 0,
        sgid: 0,
        cap: false,
        mm: false,
        dumpable: false,
    };
    *users.get(number as usize).unwrap_or(&nobody)
}

/// The words after a policy: in version 2 the number of one of these users, in version 1 the credentials.
fn parse_owner(words: &[&[u8]], version: u8, users: &[Creds]) -> Result<UserLine, BadKind>
    ensures { result ≡ read_in ((owner_form version, owner_value version users.now) ∷ [])
        (lent words.now) }
{
    if version != 2 {
        let creds = parse_creds(words)?;
        return Ok(UserLine { number: 0, creds });
    }
    let [number] = *words else {
        return Err(BadKind::Shape);
    };
    let number = parse_u8(number, 0, MOST_USER)?;
    let creds = user_at(users, number);
    Ok(UserLine { number, creds })
}

/// The words of a task line, in a text of this version, beside these users and in a core with this number of siblings.
/// The first of them is `task`.
pub(crate) fn parse_task(
    words: &[&[u8]],
    version: u8,
    siblings: u8,
    users: &[Creds],
) -> Result<TaskLine, BadKind>
    requires { is_word ((lent words.now).at 0) (codes "task") ≡ true }
    ensures { result ≡ read_in
        ((task_form version siblings, task_value version users.now) ∷ []) (lent words.now) }
{
    let [_, pid, tgid, pgid, cpu, policy, ref owner @ ..] = *words else {
        return Err(BadKind::Shape);
    };
    if !has_policy_shape(policy) {
        return Err(BadKind::Shape);
    }
    // Before the numbers in front of them, since the line has its shape only if there are as many as a user has.
    let owner = parse_owner(owner, version, users)?;
    let (Ok((pid, tgid, pgid)), Ok(cpu), Ok(policy)) = (
        parse_three(pid, tgid, pgid, 1, MOST_PID),
        parse_cpu(cpu, siblings),
        parse_policy(policy),
    ) else {
        return Err(BadKind::Number);
    };
    let spec = TaskSpec {
        pid,
        tgid,
        pgid,
        cpu,
        policy,
        creds: owner.creds,
    };
    Ok(TaskLine {
        spec,
        user: owner.number,
    })
}
