//! What `coresched_view` shows of runs whose numbers were worked out by hand: a reschedule that is not taken for a
//! while, idling forced by a task with a cookie and by one without, a task that waits behind its equal, one that ends
//! under another cookie, and thread groups side by side. And its words and faults.

use core_state::CoreState;
use cs_outside::PairGuard;
use memory_outside::{MemSink, MemSource};
use row_inputs::{sink_of, source_of, words_of};
use scenario_text::BadKind;
use std::process::Abort;
use view_runner::{Status, run};

/// Expects that the command of the words, without guards, ends so over this text, and has written this.
fn expect_view<R: AllocGlobal + Abort>(
    rt: &R,
    words: &[&str],
    text: &str,
    wanted: Status,
    output: &str,
) {
    let words = words_of(rt.alloc(), words).expect(rt, "room");
    let mut source = source_of(rt.alloc(), text.as_bytes(), 4096, &[]).expect(rt, "room");
    let mut sink = sink_of(rt.alloc(), 4096, &[]).expect(rt, "room");
    let guards = Vec::<PairGuard>::new(rt.alloc());
    let status = run::<CoreState<PairGuard>, MemSource, MemSink, PairGuard>(
        rt.alloc(),
        &words,
        &mut source,
        &mut sink,
        guards,
    );
    assert!(rt; status == wanted);
    assert!(rt; sink.bytes() == output.as_bytes());
}

/// Task 2 comes to sibling 1, and is higher than task 1. So sibling 0 is to idle under the cookie 2, and takes that 50
/// us later. Then 1 us goes by.
const WINDOW: &str = "coresched 1
siblings 2
limits 8 8 65536
task 1 1 1 0 fifo:10 1000 1000 1000 1000 1000 1000 0 1 1
task 2 2 2 1 fifo:20 1000 1000 1000 1000 1000 1000 0 1 1
step c0 prctl 1 1 0 0 0
step c0 prctl 2 1 0 0 0
step c0 wake 1
step s0 turn
step c0 wake 2
step s1 turn
step c0 advance 50000
step s0 turn
step c0 advance 1000
step s1 tick
end
";

/// Task 1 has no cookie and comes to sibling 0. It is higher than task 2, which has one. So sibling 1 idles for 2 us
/// under cookie 0, and task 1 is charged for that. Then it sleeps, and sibling 1 is to run task 2, and has not taken it 300
/// ns later.
const UNDER_NONE: &str = "coresched 1
siblings 2
limits 8 8 65536
task 1 1 1 0 fifo:20 1000 1000 1000 1000 1000 1000 0 1 1
task 2 2 2 1 fifo:10 1000 1000 1000 1000 1000 1000 0 1 1
step c0 prctl 2 1 0 0 0
step c0 wake 2
step s1 turn
step c0 wake 1
step s0 turn
step s1 turn
step c0 advance 2000
step s0 block
step c0 wake 2
step c0 advance 300
end
";

/// Task 2 waits 3 us behind task 1, its equal, and runs for 400 ns. Task 3 sleeps all the time.
const BEHIND_ITS_EQUAL: &str = "coresched 1
siblings 1
limits 8 8 65536
task 1 1 1 0 fair:0 1000 1000 1000 1000 1000 1000 0 1 1
task 2 2 2 0 fair:0 1000 1000 1000 1000 1000 1000 0 1 1
task 3 3 3 0 fair:0 1000 1000 1000 1000 1000 1000 0 1 1
step c0 wake 1
step c0 wake 2
step s0 turn
step c0 advance 3000
step c0 wake 2
step c0 wake 9
step s0 block
step c0 advance 400
step s0 block
step s0 block
step c0 advance 50
end
";

/// Task 2 runs for 1 us under the cookie 2 while sibling 0 idles, is charged for that, makes itself the cookie 3 and
/// ends. So its charge counts for 3, which no task had for any time. Then 500 ns go by before sibling 0 takes task 1.
const ENDS_UNDER_ANOTHER: &str = "coresched 1
siblings 2
limits 8 8 65536
task 1 1 1 0 fifo:10 1000 1000 1000 1000 1000 1000 0 1 1
task 2 2 2 1 fifo:20 1000 1000 1000 1000 1000 1000 0 1 1
step c0 prctl 1 1 0 0 0
step c0 prctl 2 1 0 0 0
step c0 wake 1
step s0 turn
step c0 wake 2
step s1 turn
step s0 turn
step c0 advance 1000
step s1 tick
step c0 prctl 2 1 0 0 0
step s1 exit
step c0 advance 500
end
";

/// Nobody has a cookie. Task 2, a thread of task 1's group, runs beside it for 120 us. Task 3 is of another group and
/// is woken on sibling 1, which takes it 20 us later; 50 us after that task 1 forks a thread, which waits 30 us until
/// task 1 sleeps.
const GROUPS: &str = "coresched 1
siblings 2
limits 8 8 65536
task 1 1 1 0 fifo:10 1000 1000 1000 1000 1000 1000 0 1 1
task 2 1 1 1 fifo:10 1000 1000 1000 1000 1000 1000 0 1 1
task 3 3 3 1 fifo:20 1000 1000 1000 1000 1000 1000 0 1 1
step c0 wake 1
step s0 turn
step c0 wake 2
step s1 turn
step c0 advance 100000
step c0 wake 3
step c0 advance 20000
step s1 turn
step c0 advance 50000
step c0 fork 1 thread
step c0 advance 30000
step s0 block
step c0 advance 5000
end
";

/// Runs, each with the word of a command, and what the command writes of it.
const VIEWS: [(&str, &str, &str); 8] = [
    (
        "summary",
        GROUPS,
        "cpu 0 ran 205000 idle 0 offline 0 pending 0
forced 0 cookie 0 none 0
cpu 1 ran 205000 idle 0 offline 0 pending 20000
forced 1 cookie 0 none 0
task 1 ran 200000 waited 0 slept 5000 charged 0 cookie 0
task 2 ran 120000 waited 85000 slept 0 charged 0 cookie 0
task 3 ran 85000 waited 20000 slept 100000 charged 0 cookie 0
task 4 ran 5000 waited 30000 slept 0 charged 0 cookie 0
cookie 0 ran 410000 waited 135000 slept 105000 charged 0
waits 1 count 1 longest 0 sum 0
waits 2 count 1 longest 0 sum 0
waits 3 count 1 longest 20000 sum 20000
waits 4 count 1 longest 30000 sum 30000
exposed 0 longest 0
mixed 85000 longest 85000
groups 1 3 mixed 85000
pending 20000
replies NoTask 0 Awake 0 Idle 0 NoCaller 0 Offline 0 errors 0
total 205000
",
    ),
    (
        "table",
        GROUPS,
        "One core with 2 siblings over 0.205 ms. A reschedule was pending on some sibling for 0.020 ms (9.7 %).

SIBLING          ran ms      %      idle ms      %    forced ms      %   offline ms      %   pending ms      %
s0                0.205  100.0        0.000    0.0        0.000    0.0        0.000    0.0        0.000    0.0
s1                0.205  100.0        0.000    0.0        0.000    0.0        0.000    0.0        0.020    9.7

TASK             ran ms      %    waited ms      %     slept ms      %   charged ms    cookie
1                 0.200   97.5        0.000    0.0        0.005    2.4        0.000         0
2                 0.120   58.5        0.085   41.4        0.000    0.0        0.000         0
3                 0.085   41.4        0.020    9.7        0.100   48.7        0.000         0
4                 0.005    2.4        0.030   14.6        0.000    0.0        0.000         0

COOKIE           ran ms           waited ms            slept ms          charged ms
0                 0.410               0.135               0.105               0.000

WOKEN          waits      mean ms   longest ms       sum ms
1                  1        0.000        0.000        0.000
2                  1        0.000        0.000        0.000
3                  1        0.020        0.020        0.020
4                  1        0.030        0.030        0.030

SIDE BY SIDE                                   in all ms      %   longest ms
tasks with distinct cookies (exposed)              0.000    0.0        0.000
tasks of distinct thread groups (mixed)            0.085   41.4        0.085
  thread groups          1 and 3                   0.085   41.4

REFUSED       NoTask     Awake      Idle  NoCaller   Offline    others
entries            0         0         0         0         0         0
",
    ),
    (
        "summary",
        WINDOW,
        "cpu 0 ran 50000 idle 0 offline 0 pending 50000
forced 0 cookie 1000 none 0
cpu 1 ran 51000 idle 0 offline 0 pending 0
forced 1 cookie 0 none 0
task 1 ran 50000 waited 1000 slept 0 charged 0 cookie 1
task 2 ran 51000 waited 0 slept 0 charged 51000 cookie 2
cookie 1 ran 50000 waited 1000 slept 0 charged 0
cookie 2 ran 51000 waited 0 slept 0 charged 51000
waits 1 count 1 longest 0 sum 0
waits 2 count 1 longest 0 sum 0
exposed 50000 longest 50000
pair 1 2 exposed 50000
mixed 50000 longest 50000
groups 1 2 mixed 50000
pending 50000
replies NoTask 0 Awake 0 Idle 0 NoCaller 0 Offline 0 errors 0
total 51000
",
    ),
    (
        "segments",
        WINDOW,
        "from\tto\tsibling\tstate\tcookie\tpending\tforced\tpid\tgroup
0\t50000\t0\trunning\t1\tyes\tno\t1\t1
0\t51000\t1\trunning\t2\tno\tno\t2\t2
50000\t51000\t0\tidle\t2\tno\tyes\t\t
",
    ),
    (
        "segments-json",
        WINDOW,
        "{\"from\":0,\"to\":50000,\"sibling\":0,\"state\":\"running\",\"cookie\":1,\"pending\":true,\"forced\":false,\"pid\":1,\"group\":1}
{\"from\":0,\"to\":51000,\"sibling\":1,\"state\":\"running\",\"cookie\":2,\"pending\":false,\"forced\":false,\"pid\":2,\"group\":2}
{\"from\":50000,\"to\":51000,\"sibling\":0,\"state\":\"idle\",\"cookie\":2,\"pending\":false,\"forced\":true,\"pid\":null,\"group\":null}
",
    ),
    (
        "summary",
        UNDER_NONE,
        "cpu 0 ran 2000 idle 300 offline 0 pending 0
forced 0 cookie 0 none 0
cpu 1 ran 0 idle 0 offline 0 pending 300
forced 1 cookie 300 none 2000
task 1 ran 2000 waited 0 slept 300 charged 2000 cookie 0
task 2 ran 0 waited 2300 slept 0 charged 0 cookie 1
cookie 0 ran 2000 waited 0 slept 300 charged 2000
cookie 1 ran 0 waited 2300 slept 0 charged 0
waits 1 count 1 longest 0 sum 0
waits 2 count 1 longest 0 sum 0
exposed 0 longest 0
mixed 0 longest 0
pending 300
replies NoTask 0 Awake 1 Idle 0 NoCaller 0 Offline 0 errors 0
total 2300
",
    ),
    (
        "summary",
        BEHIND_ITS_EQUAL,
        "cpu 0 ran 3400 idle 50 offline 0 pending 0
forced 0 cookie 0 none 0
task 1 ran 3000 waited 0 slept 450 charged 0 cookie 0
task 2 ran 400 waited 3000 slept 50 charged 0 cookie 0
task 3 ran 0 waited 0 slept 3450 charged 0 cookie 0
cookie 0 ran 3400 waited 3000 slept 3950 charged 0
waits 1 count 1 longest 0 sum 0
waits 2 count 1 longest 3000 sum 3000
exposed 0 longest 0
mixed 0 longest 0
pending 0
replies NoTask 1 Awake 1 Idle 1 NoCaller 0 Offline 0 errors 0
total 3450
",
    ),
    (
        "summary",
        ENDS_UNDER_ANOTHER,
        "cpu 0 ran 0 idle 0 offline 0 pending 500
forced 0 cookie 1500 none 0
cpu 1 ran 1000 idle 500 offline 0 pending 0
forced 1 cookie 0 none 0
task 1 ran 0 waited 1500 slept 0 charged 0 cookie 1
task 2 ran 1000 waited 0 slept 0 charged 1000 cookie 3
cookie 1 ran 0 waited 1500 slept 0 charged 0
cookie 2 ran 1000 waited 0 slept 0 charged 0
cookie 3 ran 0 waited 0 slept 0 charged 1000
waits 1 count 1 longest 0 sum 0
waits 2 count 1 longest 0 sum 0
exposed 0 longest 0
mixed 0 longest 0
pending 500
replies NoTask 0 Awake 0 Idle 0 NoCaller 0 Offline 0 errors 0
total 1500
",
    ),
];

#[test]
fn views_of_runs(rt: HostRuntime) {
    for (word, text, output) in &VIEWS {
        expect_view(&rt, &[*word], text, Status::Done, output);
    }
}

#[test]
fn words_of_the_view(rt: HostRuntime) {
    for words in [
        &["Summary"][..],
        &["summary", "x"],
        &["replay"],
        &["--help"],
        &[],
    ] {
        expect_view(&rt, words, WINDOW, Status::BadWords, "");
    }
}

#[test]
fn faults_of_the_view(rt: HostRuntime) {
    let bad = Status::BadScenario {
        line: 2,
        kind: BadKind::Number,
    };
    for word in ["summary", "table", "segments", "segments-json", "picture"] {
        expect_view(&rt, &[word], "coresched 1\nsiblings 0\n", bad, "");
    }
}
