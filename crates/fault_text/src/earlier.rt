//! Lines that do not go with those before them: a task that is there already, one without a leader,
//! and one line too many.

use crate::lines::{is_line_feed, is_word, line_at, word_at};
use crate::number::explain_word;
use crate::sentence::{Piece, Sentence};
use scenario_text::limits::{MOST_STEPS, MOST_TEACHES};

/// The first task line with this pid before the line of this number, and its own number.
fn task_before<'a>(text: &'a [u8], number: u32, pid: &[u8]) -> Option<(u64, &'a [u8])> {
    for (before, line) in text.split(is_line_feed).enumerate() {
        if before >= number.saturating_sub(1) as usize {
            return None;
        }
        if is_word(word_at(line, 1), "task") && *word_at(line, 2) == *pid {
            return Some((before as u64 + 1, line));
        }
    }
    None
}

/// Says which earlier task line has the pid of this line.
pub(crate) fn explain_twice(said: &mut Sentence, text: &[u8], line: &[u8], number: u32) {
    let pid = word_at(line, 2);
    explain_word(said, 2, "PID", pid);
    let before = match task_before(text, number, pid) {
        Some((before, _)) => before,
        None => 0,
    };
    said.pieces(&[
        Piece::Text("the task of line "),
        Piece::Number(before),
        Piece::Text(" has that pid\n"),
    ]);
}

/// Says why the task of an earlier line, whose pid is the thread group of this line, does not lead
/// that.
fn explain_leader(said: &mut Sentence, leader: &[u8], before: u64) {
    said.pieces(&[Piece::Text("the task of line "), Piece::Number(before)]);
    if *word_at(leader, 3) == *word_at(leader, 2) {
        said.pieces(&[
            Piece::Text(" leads it, but has the PGID "),
            Piece::Word(word_at(leader, 4)),
        ]);
    } else {
        said.pieces(&[
            Piece::Text(" does not lead it, since it has the TGID "),
            Piece::Word(word_at(leader, 3)),
        ]);
    }
    said.text("\n");
}

/// Says why nobody leads the thread group of this line.
pub(crate) fn explain_unled(said: &mut Sentence, text: &[u8], line: &[u8], number: u32) {
    let group = word_at(line, 3);
    explain_word(said, 3, "TGID", group);
    match task_before(text, number, group) {
        Some((before, leader)) => explain_leader(said, leader, before),
        None => said.text(
            "it has to be the task's own PID, or that of a task in an earlier line\n",
        ),
    }
}

/// Says that there are more task lines than the third line says.
fn explain_many_tasks(said: &mut Sentence, most: &[u8]) {
    said.pieces(&[
        Piece::Text("this is one task line too many, since TASKS in line 3 is "),
        Piece::Word(most),
        Piece::Text("\n"),
    ]);
}

/// Says that there are more lines of a form than a scenario may have.
fn explain_many(said: &mut Sentence, called: &str, most: usize) {
    said.pieces(&[
        Piece::Text("this is one "),
        Piece::Text(called),
        Piece::Text(" too many; a scenario has at most "),
        Piece::Number(most as u64),
        Piece::Text("\n"),
    ]);
}

/// Says which limit the line goes past.
pub(crate) fn explain_full(said: &mut Sentence, text: &[u8], line: &[u8]) {
    let name = word_at(line, 1);
    if is_word(name, "task") {
        explain_many_tasks(said, word_at(line_at(text, 3), 2));
    } else if is_word(name, "teach") {
        explain_many(said, "teach line", MOST_TEACHES);
    } else {
        explain_many(said, "step line", MOST_STEPS);
    }
}

/// How many of the lines before the line of this number teach this guard.
fn teaches_before(text: &[u8], number: u32, guard: &[u8]) -> u64 {
    let mut count: u64 = 0;
    for (before, line) in text.split(is_line_feed).enumerate() {
        if before >= number.saturating_sub(1) as usize {
            break;
        }
        if is_word(word_at(line, 1), "teach") && *word_at(line, 2) == *guard {
            count = count.saturating_add(1);
        }
    }
    count
}

/// Says that the guard of this teach line has as many pairs as it can be taught.
pub(crate) fn explain_full_guard(said: &mut Sentence, text: &[u8], line: &[u8], number: u32) {
    let guard = word_at(line, 2);
    explain_word(said, 2, "K", guard);
    said.pieces(&[
        Piece::Text("that guard has "),
        Piece::Number(teaches_before(text, number, guard)),
        Piece::Text(" pairs already, and takes no more\n"),
    ]);
}

/// Says that the guard of this teach line is none of those that were handed in, which are this
/// many.
pub(crate) fn explain_no_guard(said: &mut Sentence, line: &[u8], guards: u64) {
    explain_word(said, 2, "K", word_at(line, 2));
    if guards == 0 {
        said.text("there are no guards\n");
    } else {
        said.pieces(&[
            Piece::Text("the guards are 0 to "),
            Piece::Number(guards - 1),
            Piece::Text("\n"),
        ]);
    }
}
