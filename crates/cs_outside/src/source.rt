//! Where bytes come from.

ghost use Rattle.std.specs.Prelude.{◌≡◌, ◌<◌, ◌≤◌, ℕ, List, [], Option, length, take, IfOk, OnOk, OnErr, IfSome};
ghost use Rattle.cs_outside.specs.Device.{prepended, Rose};

use crate::fault::Failed;

/// A source of bytes.
pub trait Source {
    /// The bytes still to come, if they are known.
    ghost left: { Self → Option (List ℕ) };

    /// How often it failed, up to 2^64 - 1, where the count stays.
    ghost faults: { Self → ℕ };

    /// Puts the next bytes in front of the buffer, and answers how many. 0 is the end.
    fn read(&mut self, buf: &mut [u8]) -> Result<usize, Failed>
        requires { 0 < length buf.old }

        ensures within { IfOk result (λ n. n ≤ length buf.old) }
        ensures taken { IfOk result
            (λ n. left self.old ≡ prepended (take n buf.new) (left self.new)) }

        // If the bytes are known, 0 is answered only at their end.
        ensures end { IfOk result (λ n. n ≡ 0 → IfSome (left self.old) (λ bytes. bytes ≡ [])) }

        ensures faultless { OnOk result (faults self.new ≡ faults self.old) }
        ensures failed { OnErr result (Rose (faults self.old) (faults self.new)) }
        ensures untaken { OnErr result (left self.new ≡ left self.old) }
        ensures counted { faults self.old ≤ faults self.new };
}
