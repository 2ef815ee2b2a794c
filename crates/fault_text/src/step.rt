//! Step lines: an actor, an event, and what the event takes.

use crate::form::{
    Asked, Looked, explain_count, explain_fields, explain_length, explain_names,
    form_in_other_case, form_named,
};
use crate::lines::{count_of_words, word_at};
use crate::number::{explain_kind, explain_word, is_right};
use crate::sentence::{Piece, Sentence};
use crate::table::{ACTORS, ActorForm, Form};

/// How many words stand before those that the event takes: `step`, the actor and the event.
const BEFORE: usize = 3;

/// The actor that the word begins like, and what stands after its letter.
fn actor_of(word: &[u8]) -> Option<(ActorForm, &[u8])> {
    for actor in ACTORS {
        if let Some(digits) = word.strip_prefix(actor.letter.as_bytes()) {
            return Some((actor, digits));
        }
    }
    None
}

/// Says who makes steps.
fn explain_actors(said: &mut Sentence) {
    for place in 0..ACTORS.len() {
        let actor = ACTORS[place];
        said.text(if place == 0 { "" } else { ", " });
        said.pieces(&[
            Piece::Text(actor.says),
            Piece::Text(" is "),
            Piece::Text(actor.letter),
            Piece::Text(" and a number"),
        ]);
    }
    said.text("\n");
}

/// Who can do what has this name.
fn owner_of(name: &[u8]) -> Option<ActorForm> {
    for actor in ACTORS {
        if form_named(actor.events, name).is_some() {
            return Some(actor);
        }
    }
    None
}

/// The event whose name this is in another case, whoever can do it.
fn event_in_other_case(name: &[u8]) -> Option<Form> {
    for actor in ACTORS {
        if let Some(event) = form_in_other_case(actor.events, name) {
            return Some(event);
        }
    }
    None
}

/// Says that the actor can do nothing of this name.
fn explain_event(said: &mut Sentence, actor: ActorForm, name: &[u8]) {
    explain_word(said, BEFORE, "EVENT", name);
    if let Some(owner) = owner_of(name) {
        said.pieces(&[
            Piece::Text("only "),
            Piece::Text(owner.says),
            Piece::Text(" does that, and "),
            Piece::Text(actor.letter),
            Piece::Text(" is "),
            Piece::Text(actor.says),
        ]);
    } else if let Some(event) = event_in_other_case(name) {
        said.pieces(&[Piece::Text("it is spelled "), Piece::Text(event.name)]);
    } else {
        said.pieces(&[Piece::Text(actor.says), Piece::Text(" does ")]);
        explain_names(said, actor.events);
    }
    said.text("\n");
}

/// Says what is wrong with the shape of a step line of this actor.
fn explain_actor_shape(said: &mut Sentence, looked: Looked, actor: ActorForm) {
    let name = word_at(looked.line, BEFORE);
    let Some(event) = form_named(actor.events, name) else {
        return explain_event(said, actor, name);
    };
    let begin = [Piece::Text("step ACTOR ")];
    if explain_length(said, looked, &begin, BEFORE, event) {
        return;
    }
    explain_fields(said, looked, BEFORE, event.fields, Asked::Shape);
}

/// Says what is wrong with the shape of a step line.
pub(crate) fn explain_step_shape(said: &mut Sentence, looked: Looked) {
    let count = count_of_words(looked.line);
    if count < BEFORE {
        explain_count(said, count);
        said.text("it begins: step ACTOR EVENT\n");
        return;
    }
    let word = word_at(looked.line, 2);
    match actor_of(word) {
        Some((actor, _)) => explain_actor_shape(said, looked, actor),
        None => {
            explain_word(said, 2, "ACTOR", word);
            explain_actors(said);
        }
    }
}

/// Says which number the actor may have.
fn explain_actor(said: &mut Sentence, looked: Looked, actor: ActorForm, digits: &[u8]) {
    explain_word(said, 2, "ACTOR", word_at(looked.line, 2));
    said.pieces(&[
        Piece::Text("it has to be "),
        Piece::Text(actor.letter),
        Piece::Text(" and "),
    ]);
    explain_kind(said, actor.kind, digits, looked.siblings);
    said.text("\n");
}

/// Says which number of a step line is wrong, which has its shape.
pub(crate) fn explain_step_number(said: &mut Sentence, looked: Looked) {
    let Some((actor, digits)) = actor_of(word_at(looked.line, 2)) else {
        return;
    };
    if !is_right(actor.kind, digits, looked.siblings) {
        return explain_actor(said, looked, actor, digits);
    }
    if let Some(event) = form_named(actor.events, word_at(looked.line, BEFORE)) {
        explain_fields(said, looked, BEFORE, event.fields, Asked::Number);
    }
}
