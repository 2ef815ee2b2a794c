//! What the crates of tests hand in: texts of scenarios, the worked examples, words, and a source and a sink in memory.
//! It has no test of its own. It knows no machine, so that whoever tests a part need not wait for one.
#![tactic(auto)]

/// The script of this name, of this many siblings, of these limits, of these tasks, of these steps, each with its
/// reply, of the picks of the final drain, if it makes any, each with its sibling, and of the lines of this
/// report. A task is its pid, its policy and its sibling, and has the ids of one user and no capability. Others, if
/// there are any, stand after these, with their own ids and capability. Each leads its own groups.
macro_rules! script {
    (
        $name:literal,
        $siblings:literal,
        $limits:literal,
        [$(($pid:literal, $policy:literal, $cpu:literal)),* $(,)?],
        $(of_others [$(($other:literal, $others:literal, $at:literal, $credentials:literal)),+ $(,)?],)?
        [$(($step:literal, $reply:literal)),* $(,)?],
        $(end [$(($last:literal, $pick:literal)),+ $(,)?],)?
        [$($line:literal),+ $(,)?] $(,)?
    ) => {
        Script {
            name: $name,
            text: concat!(
                "coresched 1\nsiblings ", $siblings, "\nlimits ", $limits, "\n",
                $("task ", $pid, " ", $pid, " ", $pid, " ", $cpu, " ", $policy, " 1000 1000 1000 1000 1000 1000 0 1 1\n",)*
                $($("task ", $other, " ", $other, " ", $other, " ", $at, " ", $others, " ", $credentials, " 1 1\n",)+)?
                $("step ", $step, "\n",)*
                "end\n"
            ),
            entries: concat!(
                $($step, ": ", $reply, "\n",)*
                $($("end resched ", $last, ": ", $pick, "\n",)+)?
            ),
            report: $crate::report_of!($($line),+),
        }
    };
}

mod details;
mod devices;
mod examples;
mod moves;
mod remembered;
mod reports;
mod scenarios;
mod scripts;
mod texts;

pub use details::OF_DETAILS;
pub use devices::{sink_of, source_of};
pub use examples::{FORK_AND_EXIT, OF_SELECTIONS, OF_TASKS};
pub use moves::{LAST_TASK_STOLEN, STEAL};
pub use remembered::OF_REMEMBERED;
pub use scenarios::{GROUP, INPUT, OUTPUT_LINES, WORKED, WORKED_OUTPUT};
pub use scripts::{CHARGED_AT_EXIT, FORCED_IDLE, FORCED_IDLE_TICK, Script};
pub use texts::{joined, next_after, other_line, words_of};
