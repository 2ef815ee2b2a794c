//! The words of a line in the form that its first words tell: how many they are, and which of them
//! is wrong.

ghost use Rattle.std.specs.Prelude.{◌≤◌};

use crate::lines::{count_of_words, is_word, word_at};
use crate::number::{Place, explain_field, has_shape, is_right};
use crate::sentence::{Piece, Sentence};
use crate::table::{Field, Form, Kind};

/// A line that is looked at.
#[derive(Clone, Copy)]
pub(crate) struct Looked<'a> {
    pub line: &'a [u8],
    /// How many siblings the core has.
    pub siblings: u64,
}

/// What is asked of each word.
#[derive(Clone, Copy)]
pub(crate) enum Asked {
    Shape,
    Number,
}

/// The form of this name.
pub(crate) fn form_named(forms: &[Form], name: &[u8]) -> Option<Form> {
    for form in forms {
        if is_word(name, form.name) {
            return Some(*form);
        }
    }
    None
}

/// The form whose name this is in another case.
pub(crate) fn form_in_other_case(forms: &[Form], name: &[u8]) -> Option<Form> {
    for form in forms {
        if name.eq_ignore_ascii_case(form.name.as_bytes()) {
            return Some(*form);
        }
    }
    None
}

/// Says the names of the forms, the last after an `or`.
pub(crate) fn explain_names(said: &mut Sentence, forms: &[Form]) {
    for place in 0..forms.len() {
        said.before_choice(place, forms.len());
        said.text(forms[place].name);
    }
}

/// What stands for the field in its form: its name, or the one word that it takes.
fn text_of(field: &Field) -> &'static str {
    match field.kind {
        Kind::OneOf([word]) => word,
        _ => field.name,
    }
}

/// Says the form: its name, and what it takes.
pub(crate) fn explain_form(said: &mut Sentence, form: Form) {
    said.text(form.name);
    for field in form.fields {
        said.pieces(&[Piece::Text(" "), Piece::Text(text_of(field))]);
    }
}

/// Says how many words the line has.
pub(crate) fn explain_count(said: &mut Sentence, count: usize) {
    said.pieces(&[
        Piece::Text("the line has "),
        Piece::Number(count as u64),
        Piece::Text(if count == 1 { " word; " } else { " words; " }),
    ]);
}

/// The first of the fields whose word is wrong. As many words as this stand before their words.
fn wrong_field<'a>(
    looked: Looked<'a>,
    before: usize,
    fields: &[Field],
    asked: Asked,
) -> Option<(Field, Place<'a>)>
    requires { before ≤ 3 }
{
    for index in 0..fields.len() {
        let number = before + index + 1;
        let place = Place {
            number,
            word: word_at(looked.line, number),
            siblings: looked.siblings,
        };
        let field = fields[index];
        let fits = match asked {
            Asked::Shape => has_shape(field.kind, place.word),
            Asked::Number => is_right(field.kind, place.word, looked.siblings),
        };
        if !fits {
            return Some((field, place));
        }
    }
    None
}

/// Says which word in the place of a field is wrong, if one is. As many words as this stand before
/// theirs.
pub(crate) fn explain_fields(
    said: &mut Sentence,
    looked: Looked,
    before: usize,
    fields: &[Field],
    asked: Asked,
)
    requires { before ≤ 3 }
{
    if let Some((field, place)) = wrong_field(looked, before, fields, asked) {
        explain_field(said, field, place);
    }
}

/// Says that the words of the line are too many or too few for the form, and whether they are. What
/// stands before the name of the form is `begin`, and as many words as `before` stand before its
/// fields.
pub(crate) fn explain_length(
    said: &mut Sentence,
    looked: Looked,
    begin: &[Piece],
    before: usize,
    form: Form,
) -> bool
    requires { before ≤ 3 }
{
    let count = count_of_words(looked.line);
    let wanted = before + form.fields.len();
    if count == wanted {
        return false;
    }
    explain_count(said, count);
    said.pieces(&[
        Piece::Text("it takes "),
        Piece::Number(wanted as u64),
        Piece::Text(": "),
    ]);
    said.pieces(begin);
    explain_form(said, form);
    said.text("\n");
    true
}
