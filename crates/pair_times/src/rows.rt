//! The rows, one for each pair, in order.

ghost use Rattle.std.specs.Prelude.{◌≡◌, ◌≢◌, ℕ, ◌+◌, ◌<◌, ◌≤◌, ◌==◌, ◌&&◌, true, false, if◌then◌else◌, length, All, AllPairs, vec_len, vec_capacity};
ghost use Rattle.std.specs.List.Sorted.{IsPartitionPoint};
ghost use Rattle.pair_times.specs.Pairs.{goes_before, AreRows, time_of, pairs_among};
ghost use Rattle.pair_times.specs.Added.{has, joins};

/// For how long tasks with two cookies, or of two thread groups, ran side by side.
#[derive(Clone, Copy)]
pub struct PairTime {
    /// The lower cookie, 0 for tasks without one; or the lower pid of those that lead the two groups.
    pub low: u64,
    /// The higher one.
    pub high: u64,
    /// The time, in ns, 1 or more.
    pub time: u64,
}

/// The position of the first row that does not go before the pair, or the number of rows. It halves what is left
/// with each comparison.
fn position_of(rows: &[PairTime], low: u64, high: u64) -> usize
    requires { AreRows rows.now }
    ensures bound { result ≤ length rows.now }
    ensures point { IsPartitionPoint (λ row. goes_before row low high ≡ true)
        (λ row. goes_before row low high ≡ false)
        rows.now result }
{
    rows.partition_point(|row| row.low < low || row.low == low && row.high < high)
}

/// Adds a time to a pair, which gets a row if it has none.
fn add(rows: &mut Vec<PairTime>, low: u64, high: u64, time: u64)
    requires rows { AreRows rows.old.items }
    requires distinct { low < high }
    requires some { 0 < time }
    requires spare { vec_len rows.old < vec_capacity rows.old }
    requires fits { time_of rows.old.items low high + time ≤ u64.MAX }
    ensures rows { AreRows rows.new.items }
    ensures times { (a : ℕ) (b : ℕ) → time_of rows.new.items a b
        ≡ time_of rows.old.items a b + (if low == a && high == b then time else 0) }
    ensures few { vec_len rows.new ≤ vec_len rows.old + 1 }
    ensures capacity { vec_capacity rows.old ≤ vec_capacity rows.new }
{
    let position = position_of(rows, low, high);
    if position < rows.len() && rows[position].low == low && rows[position].high == high {
        rows[position].time += time;
    } else {
        let row = PairTime { low, high, time };
        rows.insert(position, row).unwrap();
    }
}

/// Adds a time to each pair of a key and one of others.
fn add_with(rows: &mut Vec<PairTime>, key: u64, others: &[u64], time: u64)
    requires rows { AreRows rows.old.items }
    requires apart { All (λ other. other ≢ key) others.now }
    requires distinct { AllPairs (λ other another. other ≢ another) others.now }
    requires some { 0 < time }
    requires spare { vec_len rows.old + length others.now ≤ vec_capacity rows.old }
    requires fits { (a : ℕ) (b : ℕ) → a < b → joins key others.now a b ≡ true →
        time_of rows.old.items a b + time ≤ u64.MAX }
    ensures rows { AreRows rows.new.items }
    ensures times { (a : ℕ) (b : ℕ) → a < b → time_of rows.new.items a b
        ≡ time_of rows.old.items a b + (if joins key others.now a b then time else 0) }
    ensures few { vec_len rows.new ≤ vec_len rows.old + length others.now }
    ensures capacity { vec_capacity rows.old ≤ vec_capacity rows.new }
{
    for other in others {
        add(rows, key.min(*other), key.max(*other), time);
    }
}

/// Adds a time to each pair of two keys.
pub(crate) fn add_each(rows: &mut Vec<PairTime>, keys: &[u64], time: u64)
    requires rows { AreRows rows.old.items }
    requires distinct { AllPairs (λ key other. key ≢ other) keys.now }
    requires some { 0 < time }
    requires spare { vec_len rows.old + pairs_among (length keys.now) ≤ vec_capacity rows.old }
    requires fits { (a : ℕ) (b : ℕ) → a < b → time_of rows.old.items a b + time ≤ u64.MAX }
    ensures rows { AreRows rows.new.items }
    ensures times { (a : ℕ) (b : ℕ) → a < b → time_of rows.new.items a b
        ≡ time_of rows.old.items a b + (if has a keys.now && has b keys.now then time else 0) }
    ensures few { vec_len rows.new ≤ vec_len rows.old + pairs_among (length keys.now) }
    ensures capacity { vec_capacity rows.old ≤ vec_capacity rows.new }
{
    for index in 0..keys.len() {
        add_with(rows, keys[index], &keys[..index], time);
    }
}
