//! Bounds of index types (ISO 10206, 6.4.3.2).

ghost use Rattle.std.specs.Prelude.{◌≡◌, ◌≤◌, ◌*◌, ◌^◌, cond, leb, Some, None};
ghost use Rattle.ep_object.specs.State.{size_limit};
ghost use Rattle.ep_values.specs.Bounds.{component_at, count_of};

use ep_object::limit;

/// How many numbers are within the bounds.
#[tactic(auto, using(ep_values::proofs::public::Bounds::count_within, ep_values::proofs::public::Bounds::count_without))]
pub(crate) fn count(low: i64, high: i64) -> u128
    ensures count { result ≡ count_of low high }
    ensures small { result ≤ 2 ^ 64 }
{
    if low <= high {
        high.abs_diff(low) as u128 + 1
    } else {
        0
    }
}

/// How many words an array with the bounds has whose components have so many, where a variable may have so many.
pub fn array_size(low: i64, high: i64, size: u32) -> Option<u32>
    ensures { result ≡ cond (leb (count_of low high * size) size_limit)
        (Some (count_of low high * size)) None }
{
    let words = count(low, high) * size as u128;
    if words <= limit::TYPE_WORDS as u128 {
        Some(words as u32)
    } else {
        None
    }
}

/// The number of the component with this index, where it is within the bounds.
#[tactic(auto, using(crate::proofs::IndexTypes::component_within, crate::proofs::IndexTypes::component_below, crate::proofs::IndexTypes::component_above))]
#[inline(always)]
pub fn component_at(low: i64, high: i64, index: i64) -> Option<u64>
    ensures { result ≡ component_at low high index }
{
    if low <= index && index <= high {
        Some(index.abs_diff(low))
    } else {
        None
    }
}
