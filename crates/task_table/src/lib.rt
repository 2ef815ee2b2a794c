//! The living tasks of a core, and what each was charged for forced idle, found by pid and walked by
//! rising pid. All is kept in lists whose room is taken once, so no later call
//! can take memory.
#![tactic(auto)]

mod edit;
mod entry;
mod fault;
mod group;
mod places;
mod slots;
mod spans;
mod table;
mod tasks;

pub use fault::AddFault;
pub use group::Group;
pub use table::TaskTable;
pub use tasks::Tasks;
