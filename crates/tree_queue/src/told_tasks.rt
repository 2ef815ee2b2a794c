//! The tasks that the trees hand over, which come in another order than by their stamps. They are apart, since the
//! trees know no list.

ghost use Rattle.std.specs.Prelude.{◌≡◌, []};

use arrayvec::ArrayVec;
use core_lanes::MOST_TASKS;
use cs_types::Pid;
use order_tree::Movers;

/// Tasks that were handed over, each by its stamp and its pid.
#[derive(Drop)]
pub struct ToldTasks {
    pub tasks: ArrayVec<(u64, Pid), MOST_TASKS>,
}

impl ToldTasks {
    /// No task yet.
    pub fn empty() -> ToldTasks
        ensures { result.tasks.items ≡ [] }
    {
        ToldTasks {
            tasks: ArrayVec::new(),
        }
    }
}

impl Movers for ToldTasks {
    ghost told = { λ told. told.tasks.items };

    fn push(&mut self, mover: (u64, Pid)) {
        self.tasks.push(mover);
    }
}
