//! The open interval of forced idle. It is apart from what it charges, since it knows no task.

ghost use Rattle.std.specs.Prelude.{◌≡◌, ◌+◌, ◌-◌, ◌^◌, ◌<◌, ◌≤◌, ◌↔◌, ◌==◌, ◌||◌, if◌then◌else◌, Some, None, IsNone, IfNone, unwrap_or, is_some};
ghost use Rattle.std.specs.Option.{option_map};
ghost use Rattle.cs_types.specs.Accounting.{share, open_interval};
ghost use Rattle.cs_types.specs.Room.{RoomState, Interval};
ghost use Rattle.forceidle_account.specs.Account.{IsAccountOf};

use std::marker::Model;

/// How the siblings of a core are forced idle since the last core-wide selection
/// (`core_forceidle_count`, `core_forceidle_occupation` and `core_forceidle_start` of `rq->core`).
#[derive(Drop)]
pub struct ForceIdle {
    count: u8,
    occupation: u8,
    started: Option<u64>,
    intervals: u64,
}

impl Model for ForceIdle {
    ghost use Rattle.forceidle_account.specs.Account.{Account};

    ghost Value = { Account };

    ghost use Rattle.forceidle_account.specs.Inside.{account_of, IsSound};

    ghost view = { account_of };

    ghost invariant = { IsSound };
}

impl ForceIdle {
    /// No sibling is forced idle, no interval is open, and none was recorded.
    pub fn closed() -> ForceIdle
        ensures count { result.count ≡ 0 }
        ensures occupation { result.occupation ≡ 0 }
        ensures started { result.started ≡ None }
        ensures intervals { result.intervals ≡ 0 }
    {
        ForceIdle {
            count: 0,
            occupation: 0,
            started: None,
            intervals: 0,
        }
    }

    /// A core-wide selection at `now`, in ns from the start and below 2^56, has forced `count`
    /// siblings idle, and chosen a task for `occupation`, 0 to 255 each. The interval begins if a
    /// sibling is forced idle, and else none is open (`pick_next_task`, kernel/sched/core.c; that it
    /// asks for no core cookie is the rule since 6.0). One that was open before is not charged here.
    pub fn begin(&mut self, count: u8, occupation: u8, now: u64)
        requires occupied { 0 < count → 0 < occupation }
        requires now { now < 2 ^ 56 }
        ensures count { self.new.count ≡ count }
        ensures occupation { self.new.occupation ≡ occupation }
        ensures started { self.new.started ≡ (if count == 0 then None else Some now) }
        ensures intervals { self.new.intervals ≡ self.old.intervals }
    {
        self.count = count;
        self.occupation = occupation;
        self.started = (count > 0).then_some(now);
    }

    /// Records the interval that is open up to `now`, in ns from the start and below 2^56, and goes
    /// on with one from now (`__sched_core_account_forceidle`, kernel/sched/core_sched.c). It gives
    /// the share, in ns and below 2^64, of each task that is charged for the interval: its time,
    /// or, if the count or the occupation is above 1, its time times the count, divided by the
    /// occupation and rounded down. `None` comes exactly if no interval is open or no time has
    /// passed, and then nothing changes.
    ///
    /// An interval that is open may not begin after `now`.
    pub fn charge(&mut self, now: u64) -> Option<u64>
        requires started { unwrap_or self.old.started now ≤ now }
        requires now { now < 2 ^ 56 }
        requires intervals { self.old.intervals < 2 ^ 63 }

        ensures share { (room : RoomState) → IsAccountOf room self.old → room.clock ≡ now →
            result ≡ option_map share (open_interval room) }
        ensures none { IsNone result ↔ (unwrap_or self.old.started now ≡ now) }

        ensures few { self.old.count ≤ 255 }
        ensures count { self.new.count ≡ self.old.count }
        ensures occupation { self.new.occupation ≡ self.old.occupation }
        ensures started { self.new.started ≡ option_map (λ start. now) self.old.started }
        ensures intervals { self.new.intervals
            ≡ self.old.intervals + (if is_some result then 1 else 0) }
        ensures unchanged { IfNone result (self.new ≡ self.old) }
    {
        let start = self.started?;
        if now == start {
            return None;
        }
        self.started = Some(now);
        self.intervals += 1;
        Some(share_of(now - start, self.count, self.occupation))
    }

    /// No interval is open, and no sibling is forced idle, as before a selection
    /// (`pick_next_task`). One that was open is not charged here.
    pub fn close(&mut self)
        ensures count { self.new.count ≡ 0 }
        ensures occupation { self.new.occupation ≡ 0 }
        ensures started { self.new.started ≡ None }
        ensures intervals { self.new.intervals ≡ self.old.intervals }
    {
        self.count = 0;
        self.occupation = 0;
        self.started = None;
    }

    /// How many siblings are forced idle, a count (`core_forceidle_count`).
    pub fn count(&self) -> u8
        ensures count { result ≡ self.now.count }
        ensures occupied { 0 < self.now.count → 0 < self.now.occupation }
    {
        self.count
    }

    /// For how many siblings a task was chosen, a count (`core_forceidle_occupation`).
    pub fn occupation(&self) -> u8
        ensures { result ≡ self.now.occupation }
    {
        self.occupation
    }

    /// How many intervals were recorded, a count.
    pub fn intervals(&self) -> u64
        ensures { result ≡ self.now.intervals }
    {
        self.intervals
    }
}

/// What each task is charged of an interval of this time, in ns and below 2^56.
fn share_of(time: u64, count: u8, occupation: u8) -> u64
    requires time { time < 2 ^ 56 }
    requires occupied { 0 < count → 0 < occupation }
    ensures { (interval : Interval) → interval.to - interval.from ≡ time →
        interval.count ≡ count → interval.occupation ≡ occupation → result ≡ share interval }
{
    if count > 1 || occupation > 1 {
        time * u64::from(count) / u64::from(occupation)
    } else {
        time
    }
}
