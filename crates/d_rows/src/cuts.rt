//! Two parts of one `Vec`.

ghost use Rattle.std.specs.Prelude.{◌≡◌, ◌⊎◌, ◌≤◌, slice_range, vec_len};
ghost use Rattle.std.specs.Borrow.{sem};
ghost use Rattle.d_rows.specs.Runs.{VecLendsRun};

use std::alloc::Allocator;

/// `v[start..end]` for writing beside `v[from..to]` for reading, where neither has an entry of the other.
pub fn cut_apart<T, B: Allocator>(
    v: &mut Vec<T, B>,
    start: usize,
    end: usize,
    from: usize,
    to: usize,
) -> (&mut [T], &[T])
    requires start_le_end { start ≤ end }
    requires from_le_to { from ≤ to }
    requires end_in_bounds { end ≤ vec_len v.old }
    requires to_in_bounds { to ≤ vec_len v.old }
    requires apart { (end ≤ from) ⊎ (to ≤ start) }
    ensures* writes_back { sem 𝓛 (VecLendsRun T.row B.row B.Allocator v.entry start end result.0) }
    ensures written { result.0.now ≡ slice_range v.old.items start end }
    ensures read { result.1.now ≡ slice_range v.old.items from to }
{
    let s = v.as_mut_slice();
    let p = s.as_mut_ptr();
    unsafe {
        (
            std::slice::from_raw_parts_mut(p.add(start), end - start),
            std::slice::from_raw_parts(p.add(from), to - from),
        )
    }
}
