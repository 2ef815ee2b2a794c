//! The pairs of real users that a guard refuses.

ghost use Rattle.std.specs.Prelude.{◌≡◌};
ghost use Rattle.std.specs.List.{list_any};
ghost use Rattle.cs_outside.specs.Guard.{is_pair};

/// Whether the pair of real user ids, a caller's and a target's, is one of these.
pub fn lists(pairs: &[(u32, u32)], from: u32, to: u32) -> bool
    ensures { result ≡ list_any (is_pair (from, to)) pairs.now }
{
    pairs.iter().any(|pair| from == pair.0 && to == pair.1)
}
