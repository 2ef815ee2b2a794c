//! A line while it is put together. It lies on the stack and can take the longest entry, so it
//! takes no memory and cannot fail, and a sink is given it whole.

ghost use Rattle.std.specs.Prelude.{◌≡◌, ◌+◌, ◌≤◌, [], ◌∷◌, ◌++◌, length, decimal};
ghost use Rattle.scenario_text.specs.Words.{policy_word, made_words, run_word};
ghost use Rattle.scenario_text.specs.Text.{line_bytes, spaced, entry_text};

use super::places::{LINE_BYTES, Places};
use cs_types::{Actor, Entry, Event, Pid, Policy};
use itoa::{Buffer, Integer};
use std::marker::Model;

/// What is on a line so far. It lies on the stack, and can take 152 bytes.
#[derive(Drop)]
pub struct Line {
    places: Places,
    /// How many bytes are on it. They stand in the first places.
    count: usize,
}

impl Model for Line {
    ghost use Rattle.std.specs.Prelude.{ℕ, List, take, ◌≤◌};
    ghost use Rattle.scenario_text.specs.Text.{line_bytes};

    ghost Value = { List ℕ };

    ghost view = { λ line. take line.count line.places.bytes };

    ghost invariant = { λ line. line.count ≤ line_bytes };
}

impl Line {
    /// A line with nothing on it.
    pub fn new() -> Self
        ensures { result ≡ [] }
    {
        Line {
            places: Places {
                bytes: [0; LINE_BYTES],
            },
            count: 0,
        }
    }

    /// Takes off what is on the line.
    pub fn clear(&mut self)
        ensures { self.new ≡ [] }
    {
        self.count = 0;
    }

    /// What is on the line.
    pub fn as_bytes(&self) -> &[u8]
        ensures { result.now ≡ self.now }
    {
        &self.places.bytes[..self.count]
    }

    /// Puts the whole entry on the line, with its line feed, in place of what is there.
    #[inline(always)]
    pub fn entry(&mut self, entry: &Entry)
        ensures { self.new ≡ entry_text entry.now }
    {
        let at = self.places.made(0, entry.actor, &entry.event);
        let at = self.places.text(at, ": ");
        let at = self.places.reply(at, &entry.reply);
        self.count = self.places.text(at, "\n");
    }

    /// Who makes a step, and what is done.
    pub fn made(&mut self, actor: Actor, event: &Event)
        requires { length self.old + 76 ≤ line_bytes }
        ensures text { self.new ≡ self.old ++ spaced (made_words actor event.now) }
        ensures longest { length self.new ≤ length self.old + 76 }
    {
        self.count = self.places.made(self.count, actor, event);
    }

    /// A policy.
    pub fn policy(&mut self, policy: Policy)
        requires { length self.old + 23 ≤ line_bytes }
        ensures text { self.new ≡ self.old ++ policy_word policy }
        ensures longest { length self.new ≤ length self.old + 23 }
    {
        self.count = self.places.policy(self.count, policy);
    }

    /// The pid of what a sibling runs, `idle` for 0.
    pub fn run(&mut self, pid: Pid)
        requires { length self.old + 10 ≤ line_bytes }
        ensures text { self.new ≡ self.old ++ run_word pid }
        ensures longest { length self.new ≤ length self.old + 10 }
    {
        self.count = self.places.run(self.count, pid);
    }

    /// What stands before a pid, and the pid.
    #[inline(always)]
    pub fn pid(&mut self, before: &str, pid: Pid)
        requires { length self.old + length before.now + 10 ≤ line_bytes }
        ensures text { self.new ≡ self.old ++ (before.now ++ decimal pid) }
        ensures longest { length self.new ≤ length self.old + length before.now + 10 }
    {
        self.count = self.places.pid(self.count, before, pid);
    }

    /// What stands before a number of 64 bits, and that number.
    #[inline(always)]
    pub fn wide(&mut self, before: &str, number: u64)
        requires { length self.old + length before.now + 20 ≤ line_bytes }
        ensures text { self.new ≡ self.old ++ (before.now ++ decimal number) }
        ensures longest { length self.new ≤ length self.old + length before.now + 20 }
    {
        self.count = self.places.wide(self.count, before, number);
    }

    /// A word, and the number that it names.
    pub fn named<N: Integer>(&mut self, name: &str, number: N)
        requires { length self.old + length name.now + 1 + N.MAX_STR_LEN ≤ line_bytes }
        ensures text { self.new ≡ self.old ++ spaced (name.now ∷ N.text number ∷ []) }
        ensures longest { length self.new ≤ length self.old + length name.now + 1 + N.MAX_STR_LEN }
    {
        self.text(name);
        self.text(" ");
        self.number(number);
    }

    /// A number, in decimal.
    pub fn number<N: Integer>(&mut self, number: N)
        requires { length self.old + N.MAX_STR_LEN ≤ line_bytes }
        ensures text { self.new ≡ self.old ++ N.text number }
        ensures longest { length self.new ≤ length self.old + N.MAX_STR_LEN }
    {
        let mut buffer = Buffer::new();
        self.text(buffer.format(number));
    }

    /// A text as it is.
    pub fn text(&mut self, text: &str)
        requires { length self.old + length text.now ≤ line_bytes }
        ensures text { self.new ≡ self.old ++ text.now }
        ensures len { length self.new ≡ length self.old + length text.now }
    {
        let text = text.as_bytes();
        let end = self.count + text.len();
        self.places.bytes[self.count..end].copy_from_slice(text);
        self.count = end;
    }
}
