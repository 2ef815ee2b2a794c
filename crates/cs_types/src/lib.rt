//! The words of the machine: its values, its definitions, and the contract that every machine keeps.
#![tactic(auto)]

mod event;
mod list;
mod memory;
mod queue;
mod reply;
mod room;
mod scenario;
mod start;
mod steps;
mod task;
mod view;

pub use event::{Actor, Ask, Event, Step};
pub use list::List;
pub use memory::OutOfMemory;
pub use queue::{ClassQueue, Queued};
pub use reply::{Entry, Errno, Kind, Pick, Reply};
pub use room::Room;
pub use scenario::{MOST_SIBLINGS, Scenario, Teach};
pub use start::{Bench, FromScenario};
pub use steps::Steps;
pub use task::{Class, Cookie, Cpu, Creds, Pid, Policy, Task, TaskSpec};
pub use view::{CoreView, CpuView, EndView, GuardPlace, GuardView, TaskView};
