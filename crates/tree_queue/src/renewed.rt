//! The keys of a queue's tasks as a table has them. It is apart, since a queue is handed them once for all.

ghost use Rattle.tree_queue.specs.Renewed.{key_in};

use cs_types::{Pid, Policy};
use order_tree::Renewal;
use task_table::TaskTable;

/// The tasks of a table, as a queue asks for them whose tasks all moved.
#[derive(Drop)]
pub struct Renewed<'a> {
    pub table: &'a TaskTable,
}

impl<'a> Renewal for Renewed<'a> {
    ghost at = { λ renewed pid. key_in renewed.table.now.tasks pid };

    #[inline(always)]
    fn renew(&self, pid: Pid, rank: &mut u128, stamp: &mut u64) {
        if let Some(task) = self.table.find(pid) {
            if let Policy::Fair(_) = task.spec.policy {
                *rank = task.vtime;
            }
            *stamp = task.stamp;
        }
    }
}
