//! Users of version 2 that break a rule: one with a number that is not the next, one that is there already, one that
//! a task names too early, and one that no task names.

use crate::lines::{is_line_feed, is_word, word_at};
use crate::number::explain_word;
use crate::sentence::{Piece, Sentence};
use scenario_text::limits::MOST_USER;
use scenario_text::parse_number;

/// Which line the first user has.
const FIRST_LINE: u64 = 4;

/// The number of the user that this word of a line names.
fn user_in(line: &[u8], word: usize) -> Option<u64> {
    parse_number(word_at(line, word), 0, MOST_USER as u64).ok()
}

/// How many user lines stand before the line of this number.
fn users_before(text: &[u8], number: u32) -> u64 {
    let mut count: u64 = 0;
    for (before, line) in text.split(is_line_feed).enumerate() {
        if before >= number.saturating_sub(1) as usize {
            break;
        }
        if is_word(word_at(line, 1), "user") {
            count = count.saturating_add(1);
        }
    }
    count
}

/// How many users the task lines name before the line of this number, of which none is bad: users are named in the
/// order of their numbers.
fn named_before(text: &[u8], number: u32) -> u64 {
    let mut named: u64 = 0;
    for (before, line) in text.split(is_line_feed).enumerate() {
        if before >= number.saturating_sub(1) as usize {
            break;
        }
        if is_word(word_at(line, 1), "task") && user_in(line, 7) == Some(named) {
            named = named.saturating_add(1);
        }
    }
    named
}

/// Whether two user lines have the same nine values.
fn have_same_values(user: &[u8], other: &[u8]) -> bool {
    for word in 3..12 {
        if *word_at(user, word) != *word_at(other, word) {
            return false;
        }
    }
    true
}

/// The line of the user before the line of this number, if there is one, that has the values of this user line.
fn same_before(text: &[u8], user: &[u8], number: u32) -> Option<u64> {
    for (before, line) in text.split(is_line_feed).enumerate() {
        if before >= number.saturating_sub(1) as usize {
            return None;
        }
        if is_word(word_at(line, 1), "user") && have_same_values(line, user) {
            return Some(before as u64 + 1);
        }
    }
    None
}

/// Says what is wrong with a user line.
fn explain_user_line(said: &mut Sentence, text: &[u8], line: &[u8], number: u32) {
    let next = users_before(text, number);
    match same_before(text, line, number) {
        Some(before) if user_in(line, 2) == Some(next) => said.pieces(&[
            Piece::Text("the user of line "),
            Piece::Number(before),
            Piece::Text(" has the same nine values; a user is written once\n"),
        ]),
        _ => {
            explain_word(said, 2, "U", word_at(line, 2));
            said.pieces(&[
                Piece::Text("it has to be "),
                Piece::Number(next),
                Piece::Text(", since users are numbered from 0 on\n"),
            ]);
        }
    }
}

/// Says why a task line cannot name its user.
fn explain_task_line(said: &mut Sentence, text: &[u8], line: &[u8], number: u32) {
    explain_word(said, 7, "U", word_at(line, 7));
    let users = users_before(text, number);
    if users == 0 {
        return said.text("there are no users\n");
    }
    match user_in(line, 7) {
        Some(user) if user < users => said.pieces(&[
            Piece::Text("tasks name users in the order of their numbers, and the next is "),
            Piece::Number(named_before(text, number)),
            Piece::Text("\n"),
        ]),
        _ => said.pieces(&[
            Piece::Text("the users are 0 to "),
            Piece::Number(users - 1),
            Piece::Text("\n"),
        ]),
    }
}

/// Says which user no task names, before a line after the task lines.
fn explain_unnamed(said: &mut Sentence, text: &[u8], number: u32) {
    let named = named_before(text, number);
    said.pieces(&[
        Piece::Text("the task lines end before this line, and none names user "),
        Piece::Number(named),
        Piece::Text(", of line "),
        Piece::Number(named.saturating_add(FIRST_LINE)),
        Piece::Text("\n"),
    ]);
}

/// Says which rule of users the line of this number breaks.
pub(crate) fn explain_user(said: &mut Sentence, text: &[u8], line: &[u8], number: u32) {
    let name = word_at(line, 1);
    if is_word(name, "user") {
        explain_user_line(said, text, line, number);
    } else if is_word(name, "task") {
        explain_task_line(said, text, line, number);
    } else {
        explain_unnamed(said, text, number);
    }
}
