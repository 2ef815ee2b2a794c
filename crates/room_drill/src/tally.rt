//! What is counted of a history.

ghost use Rattle.std.specs.Prelude.{◌≡◌, ◌<◌, []};
ghost use Rattle.room_drill.specs.Summary.{tally_of, with_reply, total};

use cs_types::{Kind, Reply, Room};

/// How many picks of each kind there are, and how many tries to steal, by whether they stole.
#[derive(Clone, Copy)]
pub(crate) struct Tally {
    pub selected: u64,
    pub adopted: u64,
    pub plain: u64,
    pub stole: u64,
    pub missed: u64,
}

impl Tally {
    /// The tally of nothing.
    fn new() -> Self
        ensures { result ≡ tally_of [] }
    {
        Tally {
            selected: 0,
            adopted: 0,
            plain: 0,
            stole: 0,
            missed: 0,
        }
    }

    /// Counts what one more reply says.
    fn add(&mut self, reply: Reply)
        requires { total self.old < u64.MAX }
        ensures { self.new ≡ with_reply reply self.old }
    {
        match reply {
            Reply::Picked(pick) | Reply::Slept { pick, .. } | Reply::Ended { pick, .. } => {
                match pick.kind {
                    Kind::Selected => self.selected += 1,
                    Kind::Adopted => self.adopted += 1,
                    Kind::Plain => self.plain += 1,
                }
            }
            Reply::Stole { .. } => self.stole += 1,
            Reply::Missed(_) => self.missed += 1,
            _ => {}
        }
    }
}

/// The tally of a machine's whole history.
pub(crate) fn count<R: Room>(room: &R) -> Tally
    ensures { result ≡ tally_of (R.history room.now) }
{
    let mut tally = Tally::new();
    for place in 0..room.length() {
        let entry = room.entry(place).unwrap();
        tally.add(entry.reply);
    }
    tally
}
