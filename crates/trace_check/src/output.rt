//! What is written of a verdict, as lines or as JSON.

ghost use Rattle.std.specs.Prelude.{◌≡◌, encode_utf8_all, string_bytes, IfOk};
ghost use Rattle.serde_json.specs.View.{view};
ghost use Rattle.trace_check.specs.declared.verdict.Verdict.TheVariants.{No};
ghost use Rattle.trace_check.specs.VerdictTexts.{or_dash, refutation_data, string_or_null, verdict_data, verdict_json, verdict_output, verdict_text};

use crate::verdict::Verdict;
use cs_types::{List, OutOfMemory};
use itoa::Buffer;
use serde_json::{Value, json};
use std::alloc::{AllocError, Global};

/// What is told of a line, or `-` if there is none.
fn or_dash(line: &Option<List<u8>>) -> &[u8]
    ensures { result.now ≡ or_dash line.now }
{
    match line {
        Some(line) => line.items(),
        None => b"-",
    }
}

/// The three lines that refute a text.
fn refutation(
    alloc: Global,
    line: u32,
    want: &Option<List<u8>>,
    found: &Option<List<u8>>,
) -> Result<Vec<u8>, OutOfMemory>
    ensures { IfOk result (λ text. text.items ≡ verdict_text (No line want.now found.now)) }
{
    let mut digits = Buffer::new();
    let mut text = Vec::new(alloc);
    text.extend_from_slice(b"no line ")?;
    text.extend_from_slice(digits.format(line).as_bytes())?;
    text.extend_from_slice(b"\nwant ")?;
    text.extend_from_slice(or_dash(want))?;
    text.extend_from_slice(b"\nfound ")?;
    text.extend_from_slice(or_dash(found))?;
    text.push(b'\n')?;
    Ok(text)
}

/// The verdict as lines.
fn plain_text(alloc: Global, verdict: &Verdict) -> Result<Vec<u8>, OutOfMemory>
    ensures { IfOk result (λ text. text.items ≡ verdict_text verdict.now) }
{
    match verdict {
        Verdict::Yes => Ok(Vec::from_slice(alloc, b"yes\n")?),
        Verdict::No { line, want, found } => refutation(alloc, *line, want, found),
    }
}

/// The text of the characters whose codes these bytes are.
fn text_of(alloc: Global, bytes: &[u8]) -> Result<String, OutOfMemory>
    ensures { IfOk result (λ text. string_bytes text ≡ encode_utf8_all bytes.now) }
{
    let mut text = String::new(alloc);
    for byte in bytes {
        text.push(char::from(*byte))?;
    }
    Ok(text)
}

/// What is told of a line, `null` if there is none.
fn string_or_null(alloc: Global, line: &Option<List<u8>>) -> Result<Value, OutOfMemory>
    ensures { IfOk result (λ value. view value ≡ string_or_null line.now) }
{
    match line {
        Some(line) => Ok(Value::String(text_of(alloc, line.items())?)),
        None => Ok(Value::Null),
    }
}

/// The object that refutes a text.
fn refutation_value(
    alloc: Global,
    line: u32,
    want: Value,
    found: Value,
) -> Result<Value, AllocError>
    ensures { IfOk result (λ value. view value ≡ refutation_data line (view want) (view found)) }
{
    json!(in alloc; {"found": found, "line": line, "verdict": "no", "want": want})
}

/// The verdict as a value of JSON.
fn verdict_value(alloc: Global, verdict: &Verdict) -> Result<Value, OutOfMemory>
    ensures { IfOk result (λ value. view value ≡ verdict_data verdict.now) }
{
    match verdict {
        Verdict::Yes => Ok(json!(in alloc; {"verdict": "yes"})?),
        Verdict::No { line, want, found } => {
            let want = string_or_null(alloc, want)?;
            let found = string_or_null(alloc, found)?;
            Ok(refutation_value(alloc, *line, want, found)?)
        }
    }
}

/// The verdict as a line of JSON.
fn json_text(alloc: Global, verdict: &Verdict) -> Result<Vec<u8>, OutOfMemory>
    ensures { IfOk result (λ text. text.items ≡ verdict_json verdict.now) }
{
    let value = verdict_value(alloc, verdict)?;
    let mut text = value.to_string(alloc)?.into_bytes();
    text.push(b'\n')?;
    Ok(text)
}

/// What is written of a verdict: a line of JSON if that is asked for, and else one to three lines.
pub fn verdict_output(alloc: Global, verdict: &Verdict, json: bool) -> Result<Vec<u8>, OutOfMemory>
    ensures { IfOk result (λ text. text.items ≡ verdict_output json verdict.now) }
{
    if json {
        json_text(alloc, verdict)
    } else {
        plain_text(alloc, verdict)
    }
}
