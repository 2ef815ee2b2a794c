//! The policies that are drawn.

ghost use Rattle.std.specs.Prelude.{◌≡◌};
ghost use Rattle.room_drill.specs.Drill.{drawn_policy};

use crate::generator::Generator;
use cs_types::Policy;

/// How many real-time priorities there are, from 1 on.
const PRIORITIES: u32 = 99;

/// How many relative deadlines there are, the multiples of the first.
const DEADLINES: u32 = 50;

/// The first of the relative deadlines, in ns.
const FIRST_DEADLINE: u64 = 1_000_000;

/// How many nice values there are.
const NICES: u32 = 40;

/// How many of the nice values are below 0.
const NICES_BELOW: i8 = 20;

impl Generator {
    /// A policy of one of the four that tasks are given.
    pub fn policy(&mut self) -> Policy
        ensures { (result, self.new) ≡ drawn_policy self.old }
    {
        match self.below(4) {
            0 => Policy::Fifo(1 + self.below(PRIORITIES) as u8),
            1 => Policy::Rr(1 + self.below(PRIORITIES) as u8),
            2 => Policy::Deadline(FIRST_DEADLINE * (1 + u64::from(self.below(DEADLINES)))),
            _ => Policy::Fair(self.below(NICES) as i8 - NICES_BELOW),
        }
    }
}
