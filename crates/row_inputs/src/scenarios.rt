//! Texts of scenarios that more than one crate of tests plays.

/// Two tasks of one priority, and a higher one that preempts the first.
pub const INPUT: &str = "coresched 1
siblings 2
limits 8 8 65536
task 1 1 1 0 fifo:10 1000 1000 1000 1000 1000 1000 0 1 1
task 2 2 2 0 fifo:10 1000 1000 1000 1000 1000 1000 0 1 1
task 3 3 3 0 fifo:20 1000 1000 1000 1000 1000 1000 0 1 1
step c0 wake 1
step c0 wake 2
step s0 turn
step c0 wake 3
step s0 turn
step s0 block
end
";

/// The lines of the output of `INPUT`: of the entries, and of the report.
pub const OUTPUT_LINES: [&str; 17] = [
    "c0 wake 1: Woken 0\n",
    "c0 wake 2: Woken 0\n",
    "s0 turn: Plain 1 core 0 forced 0\n",
    "c0 wake 3: Woken 0\n",
    "s0 turn: Plain 3 core 0 forced 0\n",
    "s0 block: Slept 3 Plain 1 core 0 forced 0\n",
    "report\n",
    "clock 0\n",
    "numbers 7 0\n",
    "core 0 forced 0 occupation 0\n",
    "intervals 0\n",
    "cpu 0 online runs 1 number 0\n",
    "cpu 1 online runs idle number 0\n",
    "task 1 cpu 0 queued cookie 0 forced 0 vtime 0\n",
    "task 2 cpu 0 queued cookie 0 forced 0 vtime 0\n",
    "task 3 cpu 0 asleep cookie 0 forced 0 vtime 0\n",
    "done\n",
];

/// Two tasks of one user. The first guard refuses that user its own. Line 6 is the teach line.
pub const WORKED: &str = concat!(
    "coresched 1\nsiblings 2\nlimits 8 8 65536\n",
    "task 1 1 1 0 fair:0 1000 1000 1000 1000 1000 1000 0 1 1\n",
    "task 2 2 2 0 fair:0 1000 1000 1000 1000 1000 1000 0 1 1\n",
    "teach 0 1000 1000\n",
    "step c0 prctl 1 2 2 0 0\nstep c0 load 0\nstep c0 load 0\nstep c0 load 1\n",
    "step c0 prctl 1 2 2 0 0\nstep c0 prctl 1 2 1 0 0\nstep c0 unload 0\n",
    "step c0 prctl 1 2 2 0 0\nstep c0 unload 0\nstep c0 load 7\nend\n",
);

/// A guard refuses only while it is active. Nobody is asked about the caller itself, nor after another has
/// refused. This goes up to the second guard.
pub const WORKED_OUTPUT: &str = concat!(
    "c0 prctl 1 2 2 0 0: 0\nc0 load 0: Loaded\nc0 load 0: NoGuard\nc0 load 1: Loaded\n",
    "c0 prctl 1 2 2 0 0: EPERM\nc0 prctl 1 2 1 0 0: 0\nc0 unload 0: Dropped\n",
    "c0 prctl 1 2 2 0 0: 0\nc0 unload 0: NoGuard\nc0 load 7: NoGuard\n",
    "report\nclock 0\nnumbers 0 0\ncore 0 forced 0 occupation 0\nintervals 0\n",
    "cpu 0 online runs idle number 0\ncpu 1 online runs idle number 0\n",
    "task 1 cpu 0 asleep cookie 0 forced 0 vtime 0\n",
    "task 2 cpu 0 asleep cookie 0 forced 0 vtime 0\n",
    "guard 0 dropped asked 1\nguard 1 active asked 1\n",
);

/// Root with the capability, and a process group of two tasks of two other users. A guard refuses it the
/// first of these.
pub const GROUP: &str = concat!(
    "coresched 1\nsiblings 2\nlimits 8 8 65536\n",
    "task 1 1 1 0 fair:0 0 0 0 0 0 0 1 1 1\n",
    "task 2 2 2 0 fair:0 1000 1000 1000 1000 1000 1000 0 1 1\n",
    "task 3 3 2 0 fair:0 1001 1001 1001 1001 1001 1001 0 1 1\n",
    "teach 1 0 1000\n",
    "step c0 load 0\nstep c0 prctl 1 1 3 2 0\nstep c0 unload 0\n",
    "step c0 load 1\nstep c0 prctl 1 1 3 2 0\nstep c0 unload 1\n",
    "step c0 load 2\nstep c0 prctl 1 0 3 0 4096\nend\n",
);
