//! The places of a line, and what is put there piece by piece: texts and numbers. A piece begins at
//! the place that its function is told, and the function answers where the piece ends. So where the
//! line ends stays in a register until the whole line is put together.

ghost use Rattle.std.specs.Prelude.{◌≡◌, ◌+◌, ◌<◌, ◌≤◌, ◌++◌, length, take, decimal};
ghost use Rattle.std.specs.Fmt.{signed_decimal};
ghost use Rattle.scenario_text.specs.Text.{line_bytes};

use cs_types::Pid;
use itoa::write_digits;

/// How many bytes a line can take: as many as the longest entry has, with its line feed.
pub(super) const LINE_BYTES: usize = 152;

/// The places of a line. What stands after its end means nothing.
#[derive(Drop)]
pub(super) struct Places {
    pub(super) bytes: [u8; LINE_BYTES],
}

impl Places {
    /// A text as it is. Byte by byte: if the text is known, as it is at each call, that is a store
    /// of two or three words, and a copy would be tested for overlap first.
    #[inline(always)]
    pub(super) fn text(&mut self, at: usize, text: &str) -> usize
        requires { at + length text.now ≤ line_bytes }
        ensures text { take result self.new.bytes ≡ take at self.old.bytes ++ text.now }
        ensures end { result ≡ at + length text.now }
    {
        let text = text.as_bytes();
        for index in 0..text.len() {
            self.bytes[at + index] = text[index];
        }
        at + text.len()
    }

    /// What stands before a pid, and the pid.
    #[inline(always)]
    pub(super) fn pid(&mut self, at: usize, before: &str, pid: Pid) -> usize
        requires { at + length before.now + 10 ≤ line_bytes }
        ensures text { take result self.new.bytes
            ≡ take at self.old.bytes ++ (before.now ++ decimal pid) }
        ensures longest { result ≤ at + length before.now + 10 }
    {
        let at = self.text(at, before);
        self.medium(at, pid)
    }

    /// What stands before a time in ns or a cookie, and that number.
    #[inline(always)]
    pub(super) fn wide(&mut self, at: usize, before: &str, number: u64) -> usize
        requires { at + length before.now + 20 ≤ line_bytes }
        ensures text { take result self.new.bytes
            ≡ take at self.old.bytes ++ (before.now ++ decimal number) }
        ensures longest { result ≤ at + length before.now + 20 }
    {
        let at = self.text(at, before);
        self.long(at, number)
    }

    /// What stands before the number of an actor, a sibling or a guard, or another small number, and that number.
    #[inline(always)]
    pub(super) fn small(&mut self, at: usize, before: &str, number: u8) -> usize
        requires { at + length before.now + 3 ≤ line_bytes }
        ensures text { take result self.new.bytes
            ≡ take at self.old.bytes ++ (before.now ++ decimal number) }
        ensures longest { result ≤ at + length before.now + 3 }
    {
        let at = self.text(at, before);
        self.short(at, number)
    }

    /// A number of 8 bits, which mostly is one digit.
    #[inline(always)]
    pub(super) fn short(&mut self, at: usize, number: u8) -> usize
        requires { at + 3 ≤ line_bytes }
        ensures text { take result self.new.bytes ≡ take at self.old.bytes ++ decimal number }
        ensures longest { result ≤ at + 3 }
    {
        if number < 10 {
            return self.digit(at, number);
        }
        self.digits(at, number as u64)
    }

    /// A number of 32 bits.
    #[inline(always)]
    pub(super) fn medium(&mut self, at: usize, number: u32) -> usize
        requires { at + 10 ≤ line_bytes }
        ensures text { take result self.new.bytes ≡ take at self.old.bytes ++ decimal number }
        ensures longest { result ≤ at + 10 }
    {
        self.number(at, number as u64)
    }

    /// A number of 64 bits.
    #[inline(always)]
    pub(super) fn long(&mut self, at: usize, number: u64) -> usize
        requires { at + 20 ≤ line_bytes }
        ensures text { take result self.new.bytes ≡ take at self.old.bytes ++ decimal number }
        ensures longest { result ≤ at + 20 }
    {
        self.number(at, number)
    }

    /// A number that can be negative.
    #[inline(always)]
    pub(super) fn signed(&mut self, at: usize, number: i32) -> usize
        requires { at + 11 ≤ line_bytes }
        ensures text { take result self.new.bytes
            ≡ take at self.old.bytes ++ signed_decimal number }
        ensures longest { result ≤ at + 11 }
    {
        if number >= 0 {
            return self.medium(at, number as u32);
        }
        let at = self.text(at, "-");
        self.medium(at, number.unsigned_abs())
    }

    /// A number, which mostly has four digits at most.
    #[inline(always)]
    fn number(&mut self, at: usize, number: u64) -> usize
        requires { at + length (decimal number) ≤ line_bytes }
        ensures text { take result self.new.bytes ≡ take at self.old.bytes ++ decimal number }
        ensures end { result ≡ at + length (decimal number) }
    {
        if number < 10 {
            self.digit(at, number as u8)
        } else if number < 100 {
            self.counted(at, 2, number)
        } else if number < 1000 {
            self.counted(at, 3, number)
        } else if number < 10_000 {
            self.counted(at, 4, number)
        } else {
            self.digits(at, number)
        }
    }

    /// A number of one digit.
    #[inline(always)]
    fn digit(&mut self, at: usize, digit: u8) -> usize
        requires { (digit < 10) × (at < line_bytes) }
        ensures text { take result self.new.bytes ≡ take at self.old.bytes ++ decimal digit }
        ensures end { result ≡ at + length (decimal digit) }
    {
        self.bytes[at] = b'0' + digit;
        at + 1
    }

    /// A number of any length but 0. Apart, since most numbers are short.
    #[inline(never)]
    fn digits(&mut self, at: usize, number: u64) -> usize
        requires { (0 < number) × (at + length (decimal number) ≤ line_bytes) }
        ensures text { take result self.new.bytes ≡ take at self.old.bytes ++ decimal number }
        ensures end { result ≡ at + length (decimal number) }
    {
        let count = number.ilog10() as usize + 1;
        self.counted(at, count, number)
    }

    /// A number that has this many digits.
    #[inline(always)]
    fn counted(&mut self, at: usize, count: usize, number: u64) -> usize
        requires { (count ≡ length (decimal number)) × (at + count ≤ line_bytes) }
        ensures text { take result self.new.bytes ≡ take at self.old.bytes ++ decimal number }
        ensures end { result ≡ at + count }
    {
        let end = at + count;
        write_digits(number, &mut self.bytes, end);
        end
    }
}
