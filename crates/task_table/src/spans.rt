//! How many tasks groups have, and from which pid on. It is apart since it alone knows that several groups share a
//! span.

ghost use Rattle.std.specs.Prelude.{◌≡◌, ◌≢◌, ℕ, ◌+◌, ◌<◌, ◌^◌, List, length, insert, remove, replicate, slice_set, IfOk};
ghost use Rattle.task_table.specs.Grouping.{place_of, no_span, span_at, Joins, AreSpans, HasMember, Counts};

use bounded_list::BoundedList;
use cs_types::{OutOfMemory, Pid};
use std::alloc::Global;

/// How many spans there are, a count. Groups whose numbers differ by a multiple of it share one, so it is far above the
/// number of tasks that live at once.
const SPANS: usize = 8192;

/// The tasks of the groups that share it.
#[derive(Clone, Copy)]
pub(crate) struct Span {
    /// How many there are, 0 to 65535.
    pub count: u16,
    /// None of them has a lower pid.
    pub least: Pid,
}

/// The spans of all groups of one kind.
#[derive(Drop)]
pub(crate) struct Spans {
    all: BoundedList<Span>,
    ghost each: { length all.items ≡ 8192 },
}

/// The place of the span of the group with the number.
fn place_of(number: u32) -> usize
    ensures place { result ≡ place_of number }
    ensures within { result < 8192 }
{
    number as usize % SPANS
}

/// The span once a task with the pid joined one of its groups.
fn joined(span: Span, pid: Pid) -> Span
    requires { span.count + 1 < 2 ^ 16 }
    ensures { Joins pid span result }
{
    let least = if span.count == 0 || pid < span.least {
        pid
    } else {
        span.least
    };
    Span {
        count: span.count + 1,
        least,
    }
}

impl Spans {
    /// The spans if no group has a task. This call alone takes memory.
    pub fn none(alloc: Global) -> Result<Spans, OutOfMemory>
        ensures { IfOk result (λ spans. spans.all.items ≡ replicate 8192 no_span) }
    {
        let all = BoundedList::filled(alloc, Span { count: 0, least: 0 }, SPANS)?;
        Ok(Spans { all })
    }

    /// The span of the group with the number.
    pub fn of(&self, number: u32) -> Span
        ensures { result ≡ span_at self.now.all.items (place_of number) }
    {
        self.all[place_of(number)]
    }

    /// A task with the pid joins the group with the number.
    pub fn add(&mut self, number: u32, pid: Pid)
        requires few { (span_at self.old.all.items (place_of number)).count + 1 < 2 ^ 16 }
        ensures { (members : List (ℕ × ℕ)) (position : ℕ) → AreSpans self.old.all.items members →
            AreSpans self.new.all.items (insert members position (number, pid)) }
    {
        let place = place_of(number);
        self.all[place] = joined(self.all[place], pid);
    }

    /// A task leaves the group with the number.
    pub fn remove(&mut self, number: u32)
        requires some { (span_at self.old.all.items (place_of number)).count ≢ 0 }
        ensures { (members : List (ℕ × ℕ)) (position pid : ℕ) →
            HasMember members position (number, pid) →
            AreSpans self.old.all.items members →
            AreSpans self.new.all.items (remove members position) }
    {
        self.all[place_of(number)].count -= 1;
    }

    /// The task with the pid leaves the one group and joins the other.
    pub fn move_between(&mut self, from: u32, to: u32, pid: Pid)
        requires { Counts self.old.all.items from pid }
        ensures { (members : List (ℕ × ℕ)) (position : ℕ) → HasMember members position (from, pid) →
            AreSpans self.old.all.items members →
            AreSpans self.new.all.items (slice_set members position (to, pid)) }
    {
        self.remove(from);
        self.add(to, pid);
    }
}
