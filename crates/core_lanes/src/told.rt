//! How pids are written by rising stamp if the tasks come in another order.

ghost use Rattle.std.specs.Prelude.{◌≡◌, length};
ghost use Rattle.core_lanes.specs.Queued.{AreTold};

use cs_types::Pid;

/// Writes the pids of the tasks, each of which comes as its stamp and its pid, by rising stamp, into a list that has as
/// many places.
pub fn tell_by_stamp(tasks: &mut [(u64, Pid)], movers: &mut [Pid])
    requires each { length movers.old ≡ length tasks.old }
    ensures told { AreTold tasks.old movers.new }
{
    tasks.sort_unstable_by_key(|task| task.0);
    for (place, mover) in movers.iter_mut().enumerate() {
        *mover = tasks[place].1;
    }
}
