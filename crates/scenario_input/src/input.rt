//! Reading the input to its end, and the scenario that it spells.

ghost use Rattle.std.specs.Prelude.{◌≡◌, ◌≢◌, ◌⊎◌, ◌+◌, ◌<◌, ◌≤◌, ◌↔◌, Some, Err, IfOk, IfSome, length};
ghost use Rattle.cs_outside.specs.Device.{Rose};
ghost use Rattle.scenario_text.specs.Faults.{lines_in, IsFirstBad};
ghost use Rattle.scenario_input.specs.Input.{IsReadAs, IsBad, Reads, input_limit, count_read};

use crate::stop::Stop;
use cs_outside::Source;
use cs_types::Scenario;
use scenario_text::read;
use std::alloc::Global;

/// The most bytes that an input may have.
pub const INPUT_BYTES: u32 = 16_777_216;

/// The most bytes that a scenario and a printed run behind it may have together.
pub const JUDGED_BYTES: u32 = 33_554_432;

/// How many bytes are asked for at once.
const BUFFER_BYTES: usize = 8192;

/// The bytes of a source, read to their end. One more than the limit ends the reading. It always returns, since each read
/// takes a byte, is the end, or fails.
pub fn read_to_end<S: Source>(alloc: Global, source: &mut S, limit: u32) -> Result<Vec<u8>, Stop>
    ensures whole { IfOk result
        (λ bytes. IsReadAs (S.left source.old) bytes.items (S.left source.new)) }
    ensures within { IfOk result (λ bytes. length bytes.items ≤ limit) }
    ensures too_long { IfSome (S.left source.old) (λ _.
        (result ≡ Err Stop.TooLong)
        ↔ (limit < count_read (S.left source.old) (S.left source.new))) }
    ensures most { IfSome (S.left source.old) (λ _.
        count_read (S.left source.old) (S.left source.new) ≤ limit + 1) }
    ensures bad { (line : _) (kind : _) → result ≢ Err (Stop.BadScenario line kind) }
    ensures guards { (line : _) (kind : _) → result ≢ Err (Stop.BadGuard line kind) }

    ensures faultless { result ≢ Err Stop.ReadFault → S.faults source.new ≡ S.faults source.old }
    ensures failed { result ≡ Err Stop.ReadFault →
        Rose (S.faults source.old) (S.faults source.new) }
    ensures counted { S.faults source.old ≤ S.faults source.new }
{
    let mut bytes = Vec::new(alloc);
    let mut buffer = [0; BUFFER_BYTES];
    loop {
        let left = limit as usize - bytes.len();
        let most = BUFFER_BYTES.min(left + 1);
        let Ok(count) = source.read(&mut buffer[..most]) else {
            return Err(Stop::ReadFault);
        };
        if count == 0 {
            return Ok(bytes);
        }
        if left < count {
            return Err(Stop::TooLong);
        }
        bytes.extend_from_slice(&buffer[..count])?;
    }
}

/// The scenario that the input spells, whose bytes are kept beside it. The source is read to its end, or until it fails or
/// has given one byte more than an input may have.
pub fn read_and_keep<S: Source>(
    alloc: Global,
    source: &mut S,
    kept: &mut Vec<u8>,
) -> Result<Scenario, Stop>
    ensures reads { IfOk result
        (λ scenario. Reads scenario (S.left source.old) (S.left source.new)) }
    ensures too_long { IfSome (S.left source.old) (λ _.
        (result ≡ Err Stop.TooLong)
        ↔ (input_limit < count_read (S.left source.old) (S.left source.new))) }
    ensures most { IfSome (S.left source.old) (λ _.
        count_read (S.left source.old) (S.left source.new) ≤ input_limit + 1) }
    ensures bad { (line : _) (kind : _) → result ≡ Err (Stop.BadScenario line kind) →
        IsBad line kind (S.left source.old) (S.left source.new) }
    ensures first { (bytes : _) (line : _) (kind : _) →
        S.left source.old ≡ Some bytes → length bytes ≤ input_limit →
        IsFirstBad (lines_in bytes) line kind → result ≢ Err Stop.ReadFault →
        (result ≡ Err (Stop.BadScenario line kind)) ⊎ (result ≡ Err Stop.OutOfMemory) }
    ensures guards { (line : _) (kind : _) → result ≢ Err (Stop.BadGuard line kind) }

    // What is kept is what was read.
    ensures kept { IfOk result
        (λ _. IsReadAs (S.left source.old) kept.new.items (S.left source.new)) }
    ensures kept_bad { (line : _) (kind : _) → result ≡ Err (Stop.BadScenario line kind) →
        IsReadAs (S.left source.old) kept.new.items (S.left source.new) }

    ensures faultless { result ≢ Err Stop.ReadFault → S.faults source.new ≡ S.faults source.old }
    ensures failed { result ≡ Err Stop.ReadFault →
        Rose (S.faults source.old) (S.faults source.new) }
    ensures counted { S.faults source.old ≤ S.faults source.new }
{
    *kept = read_to_end(alloc, source, INPUT_BYTES)?;
    let scenario = read(alloc, kept)?;
    Ok(scenario)
}

/// The scenario that the input spells. The source is read to its end, or until it fails or has given one byte
/// more than an input may have.
pub fn read_scenario<S: Source>(alloc: Global, source: &mut S) -> Result<Scenario, Stop>
    ensures reads { IfOk result
        (λ scenario. Reads scenario (S.left source.old) (S.left source.new)) }
    ensures too_long { IfSome (S.left source.old) (λ _.
        (result ≡ Err Stop.TooLong)
        ↔ (input_limit < count_read (S.left source.old) (S.left source.new))) }
    ensures most { IfSome (S.left source.old) (λ _.
        count_read (S.left source.old) (S.left source.new) ≤ input_limit + 1) }
    ensures bad { (line : _) (kind : _) → result ≡ Err (Stop.BadScenario line kind) →
        IsBad line kind (S.left source.old) (S.left source.new) }
    ensures first { (bytes : _) (line : _) (kind : _) →
        S.left source.old ≡ Some bytes → length bytes ≤ input_limit →
        IsFirstBad (lines_in bytes) line kind → result ≢ Err Stop.ReadFault →
        (result ≡ Err (Stop.BadScenario line kind)) ⊎ (result ≡ Err Stop.OutOfMemory) }
    ensures guards { (line : _) (kind : _) → result ≢ Err (Stop.BadGuard line kind) }

    ensures faultless { result ≢ Err Stop.ReadFault → S.faults source.new ≡ S.faults source.old }
    ensures failed { result ≡ Err Stop.ReadFault →
        Rose (S.faults source.old) (S.faults source.new) }
    ensures counted { S.faults source.old ≤ S.faults source.new }
{
    let mut kept = Vec::new(alloc);
    read_and_keep(alloc, source, &mut kept)
}
