//! What is charged for forced idle, and to whom. It is a file of its own since a tick, a block, an exit, a
//! sibling that leaves and a schedule all charge.

ghost use Rattle.std.specs.Prelude.{◌≡◌, ℕ, ◌+◌, ◌^◌, ◌<◌, ◌≤◌, ◌==◌, false, [], ◌∷◌, ◌++◌};
ghost use Rattle.std.specs.List.{list_any};
ghost use Rattle.arrayvec.specs.ArrayVec.{array_vec_len};
ghost use Rattle.cs_types.specs.Accounting.{charged};
ghost use Rattle.task_table.specs.Table.{Table, total_in, IsSound as IsTable};
ghost use Rattle.core_lanes.specs.Lanes.{Beside, room_of};
ghost use Rattle.core_lanes.specs.Account.{Owes};
ghost use Rattle.core_lanes.specs.Charges.{MayCharge, ChargesAlone};

use crate::lanes::Core;
use crate::queue::SiblingQueue;
use arrayvec::ArrayVec;
use cs_types::{MOST_SIBLINGS, Pid};
use task_table::TaskTable;

/// The pids to which an interval was charged, each once.
type Charged = ArrayVec<Pid, MOST_SIBLINGS>;

/// Whether the pid is one of these, which are few.
#[inline(always)]
fn is_among(charged: &[Pid], pid: Pid) -> bool
    ensures { result ≡ list_any (λ one. one == pid) charged.now }
{
    charged.iter().any(|one| *one == pid)
}

/// Charges the task with the pid, if there is one, the share, in ns, unless the pid is one of these. Then it is.
#[inline(always)]
fn charge_once(table: &mut TaskTable, charged: &mut Charged, pid: Pid, share: u64)
    requires few { array_vec_len charged.old < 16 }
    requires low { list_any (λ one. one == pid) charged.old.items ≡ false →
        total_in table.old pid + share < 2 ^ 64 }
    ensures among { (other : ℕ) → list_any (λ one. one == other) charged.new.items
        ≡ list_any (λ one. one == other) (charged.old.items ++ pid ∷ []) }
    ensures few { array_vec_len charged.new ≤ array_vec_len charged.old + 1 }
    ensures owes { (first : Table) → Owes charged.old.items share first table.old →
        Owes charged.new.items share first table.new }
{
    if !is_among(charged, pid) {
        charged.push(pid);
        table.raise(pid, share);
    }
}

/// Each task that is charged for a sibling has this share more, in ns.
#[inline(never)]
fn charge_tasks<Q: SiblingQueue>(core: &Core<Q>, table: &mut TaskTable, share: u64)
    requires low { (pid : ℕ) → total_in table.old pid + share < 2 ^ 64 }
    requires sound { IsTable table.old }
    ensures { (beside : Beside) →
        Owes (charged (room_of beside (core.now, table.old))) share table.old table.new }
{
    let mut charged = Charged::new();
    for lane in core.lanes.iter() {
        if let Some(pid) = lane.charged() {
            charge_once(table, &mut charged, pid, share);
        }
    }
}

/// The open interval is charged up to now, if one is open and time has passed
/// (`__sched_core_account_forceidle`).
#[inline(always)]
pub fn charge<Q: SiblingQueue>(core: &mut Core<Q>, table: &mut TaskTable, now: u64)
    requires { MayCharge now (core.old, table.old) }
    ensures { ChargesAlone now (core.old, table.old) (core.new, table.new) }
{
    if let Some(share) = core.account.charge(now) {
        charge_tasks(core, table, share);
    }
}
