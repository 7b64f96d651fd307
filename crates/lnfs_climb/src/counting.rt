ghost use Rattle.std.specs.Prelude.{◌≡◌, ◌<◌, ◌≤◌, ◌==◌, ◌↔◌, ℕ, true, IfOk, length, slice_index, count_by};
ghost use Rattle.lnfs_climb.specs.Firsts.{AreBelow};

use std::alloc::{AllocError, Global};

/// How many times each number below one stands.
fn times_of(alloc: Global, count: usize, numbers: &[usize]) -> Result<Vec<usize>, AllocError>
    requires { AreBelow count numbers.now }
    ensures len { IfOk result (λ times. length times.items ≡ count) }
    ensures value { IfOk result (λ times. (k : ℕ) → k < count → slice_index times.items k ≡ count_by (λ x. x == k) numbers.now) }
{
    let mut times = vec![in alloc; 0; count]?;
    for place in 0..numbers.len() {
        times[numbers[place]] += 1;
    }
    Ok(times)
}

/// Whether no number is above one.
fn are_at_most(numbers: &[usize], most: usize) -> bool
    ensures { (result ≡ true) ↔ ((k : ℕ) → k < length numbers.now → slice_index numbers.now k ≤ most) }
{
    numbers.iter().all(|number| *number <= most)
}

/// Whether each number below one stands so many times at most.
pub fn stand_at_most(
    alloc: Global,
    count: usize,
    numbers: &[usize],
    most: usize,
) -> Result<bool, AllocError>
    requires { AreBelow count numbers.now }
    ensures { IfOk result (λ few. (few ≡ true) ↔ ((k : ℕ) → k < count → count_by (λ x. x == k) numbers.now ≤ most)) }
{
    let times = times_of(alloc, count, numbers)?;
    Ok(are_at_most(&times, most))
}
