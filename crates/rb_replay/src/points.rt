//! Lists of points and of their clusters.

ghost use Rattle.std.specs.Prelude.{◌≡◌, ◌+◌, ◌-◌, ◌<◌, ◌≤◌, ℕ, ◌++◌, length, take, drop, filter, map, nat_lt, nat_le, vec_len, vec_capacity, slice_index, IfOk, All};
ghost use Rattle.rb_script.specs.declared.limits.TheConstants.{MAX_DIRECTIVES};
ghost use Rattle.rb_machine.specs.Cluster.{Cluster};
ghost use Rattle.rb_replay.specs.Points.{thin, IsRising, last_up_to};
ghost use Rattle.rb_replay.specs.Splices.{IsNext};

use crate::splice::Splice;
use std::alloc::{AllocError, Global};

/// Counts the points below the bound.
pub(crate) fn count_below(points: &[usize], bound: usize) -> usize
    requires { IsRising 0 points.now }
    ensures next { IsNext points.now bound result }
    ensures front { take result points.now ≡ filter (λ p. nat_lt p bound) points.now }
    ensures rest { drop result points.now ≡ filter (λ p. nat_le bound p) points.now }
{
    let mut low = 0;
    let mut high = points.len();
    while low < high {
        let middle = low + (high - low) / 2;
        if points[middle] < bound {
            low = middle + 1;
        } else {
            high = middle;
        }
    }
    low
}

/// Finds the index of the greatest point that is at most `front`.
pub(crate) fn find_start(points: &[usize], front: usize) -> usize
    requires rising { IsRising 0 points.now }
    requires some { 0 < length points.now }
    requires zero { slice_index points.now 0 ≡ 0 }
    requires few { front ≤ MAX_DIRECTIVES }
    ensures within { result < length points.now }
    ensures start { slice_index points.now result ≡ last_up_to front points.now }
{
    count_below(points, front + 1) - 1
}

/// Removes the items from `from` to `to`.
fn remove_range<T: Drop>(items: &mut Vec<T>, from: usize, to: usize)
    requires order { from ≤ to }
    requires within { to ≤ vec_len items.old }
    ensures items { items.new.items ≡ take from items.old.items ++ drop to items.old.items }
    ensures room { vec_capacity items.new ≡ vec_capacity items.old }
{
    let left = items.len() - (to - from);
    items[from..].rotate_left(to - from);
    items.truncate(left);
}

/// Inserts the fresh items before the one at `at`. Allocates nothing.
fn insert_at<T: Drop>(items: &mut Vec<T>, at: usize, fresh: &mut Vec<T>)
    requires within { at ≤ vec_len items.old }
    requires room { vec_len items.old + vec_len fresh.old ≤ vec_capacity items.old }
    ensures { items.new.items ≡ take at items.old.items ++ (fresh.old.items ++ drop at items.old.items) }
{
    let count = fresh.len();
    items.append(fresh).unwrap();
    items[at..].rotate_right(count);
}

/// Swaps `count` items from `from` on with the first fresh ones.
fn swap_range<T: Drop>(items: &mut Vec<T>, from: usize, count: usize, fresh: &mut Vec<T>)
    requires within { from + count ≤ vec_len items.old }
    requires few { count ≤ vec_len fresh.old }
    ensures items { items.new.items ≡ take from items.old.items ++ (take count fresh.old.items ++ drop (from + count) items.old.items) }
    ensures fresh { drop count fresh.new.items ≡ drop count fresh.old.items }
    ensures len { vec_len items.new ≡ vec_len items.old }
    ensures fresh_len { vec_len fresh.new ≡ vec_len fresh.old }
    ensures room { vec_capacity items.new ≡ vec_capacity items.old }
{
    items[from..from + count].swap_with_slice(&mut fresh[0..count]);
}

/// Replaces the items from `from` to `to` by the fresh ones. Allocates nothing. Items are swapped as far as both have them, so the
/// items after them move at most once.
pub(crate) fn replace_range<T: Drop>(items: &mut Vec<T>, from: usize, to: usize, fresh: &mut Vec<T>)
    requires order { from ≤ to }
    requires within { to ≤ vec_len items.old }
    requires room { vec_len items.old + vec_len fresh.old ≤ vec_capacity items.old }
    ensures { items.new.items ≡ take from items.old.items ++ (fresh.old.items ++ drop to items.old.items) }
{
    let count = fresh.len().min(to - from);
    swap_range(items, from, count, fresh);
    if from + count < to {
        remove_range(items, from + count, to);
    } else {
        remove_range(fresh, 0, count);
        insert_at(items, to, fresh);
    }
}

/// Thins the points, and drops the clusters of those that are removed.
pub(crate) fn thin<M: Drop>(points: &mut Vec<usize>, kept: &mut Vec<M>, checkpoint_interval: usize)
    requires { vec_len kept.old ≡ vec_len points.old }
    ensures points { points.new.items ≡ thin checkpoint_interval points.old.items }
    ensures kept { (f : M → Cluster) (g : ℕ → Cluster) → map f kept.old.items ≡ map g points.old.items → map f kept.new.items ≡ map g points.new.items }
{
    if points.len() < 2 {
        return;
    }
    let mut i = 1;
    while i + 1 < points.len() {
        if points[i + 1].saturating_sub(points[i - 1]) <= checkpoint_interval {
            points.remove(i);
            let _ = kept.remove(i);
        } else {
            i += 1;
        }
    }
}

/// Concatenates the points of the front, the fresh ones, and those of the rest, which are moved by the splice.
pub(crate) fn joined(
    alloc: Global,
    front: &[usize],
    fresh: &[usize],
    rest: &[usize],
    splice: Splice,
) -> Result<Vec<usize>, AllocError>
    requires small { All (λ p. p ≤ MAX_DIRECTIVES) rest.now }
    requires new_small { splice.new_rest ≤ MAX_DIRECTIVES }
    ensures { IfOk result (λ v. v.items ≡ front.now ++ (fresh.now ++ map (λ p. p - splice.old_rest + splice.new_rest) rest.now)) }
{
    let mut points = Vec::with_capacity(alloc, front.len())?;
    points.extend_from_slice(front)?;
    points.extend_from_slice(fresh)?;
    points.reserve(rest.len())?;
    for p in rest {
        points.push(p.saturating_sub(splice.old_rest) + splice.new_rest)?;
    }
    Ok(points)
}
