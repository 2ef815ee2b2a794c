//! For how long tasks ran side by side.

ghost use Rattle.std.specs.Prelude.{◌≡◌, ◌+◌, ◌≤◌, [], if◌then◌else◌};
ghost use Rattle.run_times.specs.declared.by.By.{By};
ghost use Rattle.run_times.specs.Sums.{side_by_side, with_stretch};

/// For how long tasks that are told apart ran side by side on siblings that are online, in ns.
#[derive(Clone, Copy)]
pub struct SideBySide {
    /// In all.
    pub all: u64,
    /// Without a break up to now.
    pub lasting: u64,
    /// The longest time without a break, 0 if they never did.
    pub longest: u64,
}

/// Adds a time to a sum if it counts.
pub(crate) fn add_if(sum: &mut u64, counts: bool, time: u64)
    requires { sum.old + time ≤ u64.MAX }
    ensures { sum.new ≡ (if counts then sum.old + time else sum.old) }
{
    if counts {
        *sum += time;
    }
}

/// For how long a fact has lasted after this time, by how long it had lasted before: 0 if it does not hold in it.
fn longer_if(lasted: u64, holds: bool, time: u64) -> u64
    requires { lasted + time ≤ u64.MAX }
    ensures { result ≡ (if holds then lasted + time else 0) }
{
    if holds { lasted + time } else { 0 }
}

impl SideBySide {
    /// The times before the first advance.
    pub(crate) fn none() -> Self
        ensures { (by : By) → result ≡ side_by_side by [] }
    {
        SideBySide {
            all: 0,
            lasting: 0,
            longest: 0,
        }
    }

    /// Adds the time of an advance, by whether they ran side by side before it.
    pub(crate) fn add(&mut self, apart: bool, time: u64)
        requires all { self.old.all + time ≤ u64.MAX }
        requires lasting { self.old.lasting + time ≤ u64.MAX }
        ensures { self.new ≡ with_stretch apart time self.old }
    {
        add_if(&mut self.all, apart, time);
        self.lasting = longer_if(self.lasting, apart, time);
        self.longest = self.longest.max(self.lasting);
    }
}
