//! The whole of what is said of an input: the line that tells its fault, its first bad line as it
//! stands, and a sentence.

ghost use Rattle.std.specs.Prelude.{◌≡◌, ◌≤◌, ◌++◌, length, OnOk, OnErr};
ghost use Rattle.cs_outside.specs.Device.{appended, Rose, WritesPrefix};
ghost use Rattle.scenario_input.specs.Stop.{status_of};
ghost use Rattle.fault_text.specs.Faults.{Explains, kind_text, guard_text, numbered, too_long_line};

use crate::earlier::{
    explain_full, explain_full_guard, explain_no_guard, explain_twice, explain_unled,
};
use crate::lines::line_at;
use crate::sentence::{Piece, Sentence};
use crate::shape::{explain_number, explain_shape};
use crate::user::explain_user;
use cs_outside::{Failed, Sink, write_all};
use scenario_input::{GuardKind, INPUT_BYTES, Stop};
use scenario_text::{BadKind, Line};
use std::marker::Model;

/// What is said of an input that is not played.
#[derive(Drop)]
pub struct Explanation {
    /// The line that tells its fault.
    fault: Line,
    /// All that comes after that.
    rest: Sentence,
}

impl Model for Explanation {
    ghost use Rattle.std.specs.Prelude.{ℕ, List, ◌++◌};

    ghost Value = { List ℕ };

    ghost view = { λ said. said.fault ++ said.rest };
}

impl Explanation {
    /// Writes it. At an `Err` the sink has failed, and a prefix of it is written.
    pub fn write<K: Sink>(&self, sink: &mut K) -> Result<(), Failed>
        ensures ok { OnOk result (K.written sink.new ≡ appended (K.written sink.old) self.now) }
        ensures prefix { WritesPrefix (K.written sink.old) self.now (K.written sink.new) }

        ensures faultless { OnOk result (K.faults sink.new ≡ K.faults sink.old) }
        ensures failed { OnErr result (Rose (K.faults sink.old) (K.faults sink.new)) }
        ensures counted { K.faults sink.old ≤ K.faults sink.new }
    {
        write_all(sink, self.fault.as_bytes())?;
        write_all(sink, self.rest.as_bytes())
    }
}

/// The word for the kind of a bad line.
fn kind_text(kind: BadKind) -> &'static str
    ensures text { result.now ≡ kind_text kind }
    ensures short { length result.now ≤ 20 }
{
    match kind {
        BadKind::After => "After",
        BadKind::Cut => "Cut",
        BadKind::Shape => "Shape",
        BadKind::Number => "Number",
        BadKind::Twice => "Twice",
        BadKind::Leader => "Leader",
        BadKind::Full => "Full",
        BadKind::User => "User",
    }
}

/// The words for what is wrong with a teach line.
fn guard_text(kind: GuardKind) -> &'static str
    ensures text { result.now ≡ guard_text kind }
    ensures short { length result.now ≤ 20 }
{
    match kind {
        GuardKind::NoGuard => "guard NoGuard",
        GuardKind::Full => "guard Full",
    }
}

/// The line that tells a fault: the number of the bad line, and what is wrong with it.
fn numbered(line: u32, what: &str) -> Line
    requires { length what.now ≤ 20 }
    ensures { result ≡ numbered line what.now }
{
    let mut said = Line::new();
    said.text("line ");
    said.number(line);
    said.text(": ");
    said.text(what);
    said.text("\n");
    said
}

/// Says that a line stands after the end.
fn explain_after(said: &mut Sentence, number: u32) {
    said.pieces(&[
        Piece::Text("the scenario ends with line "),
        Piece::Number(number.saturating_sub(1) as u64),
        Piece::Text(", which is end; nothing stands after it\n"),
    ]);
}

/// Says how the text is cut off in this line.
fn explain_cut(said: &mut Sentence, text: &[u8], line: &[u8]) {
    said.text(if !line.is_empty() {
        "no line feed ends the line, which is the last\n"
    } else if text.is_empty() {
        "the text is empty; its first line is: coresched 1, or coresched 2\n"
    } else {
        "the text ends before this line; its last line is: end\n"
    });
}

/// Says what is wrong with the line of this number, which is the first bad one of the text.
fn line_explained(text: &[u8], number: u32, kind: BadKind) -> Sentence {
    let mut said = Sentence::new();
    let line = line_at(text, number);
    if !line.is_empty() {
        said.line(line);
    }
    match kind {
        BadKind::After => explain_after(&mut said, number),
        BadKind::Cut => explain_cut(&mut said, text, line),
        BadKind::Shape => explain_shape(&mut said, text, line, number),
        BadKind::Number => explain_number(&mut said, text, line, number),
        BadKind::Twice => explain_twice(&mut said, text, line, number),
        BadKind::Leader => explain_unled(&mut said, text, line, number),
        BadKind::Full => explain_full(&mut said, text, line),
        BadKind::User => explain_user(&mut said, text, line, number),
    }
    said
}

/// Says why the teach line of this number cannot be carried out. So many guards were handed in.
fn guard_explained(text: &[u8], number: u32, kind: GuardKind, guards: usize) -> Sentence {
    let mut said = Sentence::new();
    let line = line_at(text, number);
    said.line(line);
    match kind {
        GuardKind::NoGuard => explain_no_guard(&mut said, line, guards as u64),
        GuardKind::Full => explain_full_guard(&mut said, text, line, number),
    }
    said
}

/// The line that tells that the input is too long.
fn too_long() -> Line
    ensures { result ≡ too_long_line }
{
    let mut said = Line::new();
    said.text("input too long\n");
    said
}

/// Says how long a text may be.
fn length_explained() -> Sentence {
    let mut said = Sentence::new();
    said.pieces(&[
        Piece::Text("a scenario has at most "),
        Piece::Number(u64::from(INPUT_BYTES)),
        Piece::Text(" bytes\n"),
    ]);
    said
}

/// What is wrong with a text that is not played for this reason, where so many guards were handed
/// in: the line that tells the fault, then the bad line as it stands, and then which word of it is
/// wrong, and what may stand there. A line that is long, or has bytes that cannot be read, is not
/// shown as it is. `None` if the reason is not in the text.
pub fn stop_explained(text: &[u8], stop: Stop, guards: usize) -> Option<Explanation>
    ensures { Explains (status_of stop) result }
{
    let (fault, rest) = match stop {
        Stop::BadScenario { line, kind } => (
            numbered(line, kind_text(kind)),
            line_explained(text, line, kind),
        ),
        Stop::BadGuard { line, kind } => (
            numbered(line, guard_text(kind)),
            guard_explained(text, line, kind, guards),
        ),
        Stop::TooLong => (too_long(), length_explained()),
        Stop::ReadFault | Stop::OutOfMemory => return None,
    };
    Some(Explanation { fault, rest })
}
