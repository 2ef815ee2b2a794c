//! Lines that have none of the forms that may stand in their place, and lines with a number that is
//! wrong.

ghost use Rattle.std.specs.Prelude.{◌≤◌, length};

use crate::form::{
    Asked, Looked, explain_fields, explain_form, explain_length, explain_names, form_in_other_case,
    form_named,
};
use crate::lines::{is_word, line_at, word_at};
use crate::sentence::{Piece, Sentence};
use crate::spaces::explain_spaces;
use crate::step::{explain_step_number, explain_step_shape};
use crate::table::{FIRST, Form, SECOND, STEP, Version};
use scenario_text::parse_number;

/// The version that the first line says, the first if it says none.
fn version_of(text: &[u8]) -> Version {
    if is_word(word_at(line_at(text, 1), 2), "2") {
        SECOND
    } else {
        FIRST
    }
}

/// How many siblings the second line says that the core has, in a text of this version.
fn siblings_of(text: &[u8], version: &Version) -> u64 {
    let most = version.most_siblings as u64;
    parse_number(word_at(line_at(text, 2), 2), 1, most).unwrap_or(most)
}

/// The first of these forms, which are all after the head, that may stand after the line before this one: no form
/// stands after one that is later in their order.
fn first_form(text: &[u8], body: &[Form], number: u32) -> usize
    ensures { result ≤ length body.now }
{
    let before = word_at(line_at(text, number.saturating_sub(1)), 1);
    for place in 1..body.len() {
        if is_word(before, body[place].name) {
            return place;
        }
    }
    0
}

/// The forms that may stand in the line of this number.
fn forms_at<'a>(text: &[u8], version: &'a Version, number: u32) -> &'a [Form] {
    match number {
        1 => &version.head[..1],
        2 => &version.head[1..2],
        3 => &version.head[2..],
        _ => &version.body[first_form(text, version.body, number)..],
    }
}

/// Says why a line with this first word, which has a form in some version, does not stand here.
fn explain_order(said: &mut Sentence, version: &Version, name: &[u8]) {
    said.text(if form_named(&version.head, name).is_some() {
        "that line stands once, among the first three"
    } else if form_named(version.body, name).is_none() {
        "a user line stands in a text of version 2 alone"
    } else if is_word(name, "user") {
        "no user line stands after a task line, a teach line or a step line"
    } else if is_word(name, "task") {
        "no task line stands after a teach line or a step line"
    } else {
        "no teach line stands after a step line"
    });
}

/// Says that a line with this first word has no form that may stand here.
fn explain_name(said: &mut Sentence, version: &Version, forms: &[Form], name: &[u8], number: u32) {
    said.pieces(&[
        Piece::Text("word 1 is "),
        Piece::Word(name),
        Piece::Text("; "),
    ]);
    if let Some(form) = form_in_other_case(forms, name) {
        said.pieces(&[Piece::Text("it is spelled "), Piece::Text(form.name)]);
    } else if let [form] = forms {
        explain_first(said, *form, number);
    } else if form_named(&version.head, name).is_some() || form_named(SECOND.body, name).is_some() {
        explain_order(said, version, name);
    } else {
        said.text("here a line begins with ");
        explain_names(said, forms);
    }
    said.text("\n");
}

/// Says which form the line of this number has, which is one of the first three.
fn explain_first(said: &mut Sentence, form: Form, number: u32) {
    said.pieces(&[
        Piece::Text("line "),
        Piece::Number(number as u64),
        Piece::Text(" is: "),
    ]);
    explain_form(said, form);
}

/// Says why the line has none of the forms that may stand there.
pub(crate) fn explain_shape(said: &mut Sentence, text: &[u8], line: &[u8], number: u32) {
    if explain_spaces(said, line) {
        return;
    }
    let version = version_of(text);
    let siblings = siblings_of(text, &version);
    let looked = Looked { line, siblings };
    let name = word_at(line, 1);
    let forms = forms_at(text, &version, number);
    let Some(form) = form_named(forms, name) else {
        return explain_name(said, &version, forms, name, number);
    };
    if form.name == STEP {
        return explain_step_shape(said, looked);
    }
    if explain_length(said, looked, &[], 1, form) {
        return;
    }
    explain_fields(said, looked, 1, form.fields, Asked::Shape);
}

/// Says which number of the line is wrong. The line has a form that may stand there.
pub(crate) fn explain_number(said: &mut Sentence, text: &[u8], line: &[u8], number: u32) {
    if explain_spaces(said, line) {
        return;
    }
    let version = version_of(text);
    let siblings = siblings_of(text, &version);
    let looked = Looked { line, siblings };
    let name = word_at(line, 1);
    if is_word(name, STEP) {
        return explain_step_number(said, looked);
    }
    if let Some(form) = form_named(forms_at(text, &version, number), name) {
        explain_fields(said, looked, 1, form.fields, Asked::Number);
    }
}
