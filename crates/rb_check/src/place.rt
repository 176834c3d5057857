//! Which directive of a script a line names.

ghost use Rattle.std.specs.Prelude.{◌≡◌, ◌≤◌, ◌-◌, IfSome, Some, MatchOption, slice_get};
ghost use Rattle.std.specs.List.Sorted.{IsNonDecreasing};
ghost use Rattle.rb_check.specs.Place.{ArePartedAt};

/// The last of the heads at the line or above it: which directive it is, from 1 on, and its line.
pub fn place_at(heads: &[usize], line: usize) -> Option<(usize, usize)>
    ensures head { IfSome result (λ found. (1 ≤ found.0) × (slice_get heads.now (found.0 - 1) ≡ Some found.1)) }
    // The heads up to it are at the line or above it, and all others below.
    ensures last { IsNonDecreasing heads.now → MatchOption result (ArePartedAt heads.now line 0) (λ found. ArePartedAt heads.now line found.0) }
{
    let place = heads.partition_point(|head| *head <= line);
    if place == 0 {
        return None;
    }
    Some((place, heads[place - 1]))
}
