ghost use Rattle.std.specs.Prelude.{◌≡◌, ◌≤◌, ◌+◌, ◌*◌, ℕ, Some, All, IfSome, IsFalse, length, map};
ghost use Rattle.dsp_unit.specs.Channels.{AreRestored, numbers_in};
ghost use Rattle.dsp_unit.specs.Filter.{AreFilters, filter_at, kept_of_all};
ghost use Rattle.dsp_defs.specs.Kept.{Fits, FitsAfter, place_of};

use crate::Filter;
use dsp_sat::Sample;

/// How many numbers the filters keep.
pub fn count_kept<T: Sample, F: Filter<T>>(filters: &[F]) -> usize
    requires { length filters.now ≤ 255 }
    ensures count { result ≡ length (kept_of_all (map F.filter filters.now)) }
    ensures few { result ≤ 4294967295 * length filters.now }
{
    let mut count = 0;
    for filter in filters {
        count += filter.kept_count();
    }
    count
}

/// Writes the numbers that the filters keep, one filter after another.
pub fn keep_channels<T: Sample, F: Filter<T>>(filters: &[F], out: &mut [i64])
    requires running { All (λ f. IsFalse (F.filter f).ended) filters.now }
    requires count { length out.old ≡ length (kept_of_all (map F.filter filters.now)) }
    ensures { out.new ≡ kept_of_all (map F.filter filters.now) }
{
    let mut place = 0;
    for filter in filters {
        let count = filter.kept_count();
        filter.keep(&mut out[place..place + count]);
        place += count;
    }
}

/// The numbers of one channel, where each has so many.
fn numbers_of(numbers: &[i64], size: usize, channel: usize) -> &[i64]
    requires { (channel + 1) * size ≤ length numbers.now }
    ensures { result.now ≡ numbers_in size numbers.now channel }
{
    let start = channel * size;
    &numbers[start..start + size]
}

/// The least number of samples of which these can be the numbers that the filters keep, if there is one.
pub fn place_channels<T: Sample, F: Filter<T>>(filters: &[F], numbers: &[i64]) -> Option<u64>
    requires { AreFilters T.format (filter_at (map F.filter filters.now) 0).capacity
        (map F.filter filters.now) }
    ensures fits { IfSome result (λ n. FitsAfter T.format (length filters.now)
        (filter_at (map F.filter filters.now) 0).block n numbers.now) }
    ensures least { (n : ℕ) → FitsAfter T.format (length filters.now)
        (filter_at (map F.filter filters.now) 0).block n numbers.now
        → result ≡ Some (place_of (filter_at (map F.filter filters.now) 0).block n) }
{
    let channels = filters.len();
    if numbers.len() % channels != 0 {
        return None;
    }
    let size = numbers.len() / channels;
    let Some(place) = filters[0].place(numbers_of(numbers, size, 0)) else {
        return None;
    };
    for (channel, filter) in filters.iter().enumerate() {
        let Some(other) = filter.place(numbers_of(numbers, size, channel)) else {
            return None;
        };
        if other != place {
            return None;
        }
    }
    Some(place)
}

/// Each filter keeps its channel's numbers from now on.
pub fn restore_channels<T: Sample, F: Filter<T>>(filters: &mut [F], numbers: &[i64])
    requires alike { AreFilters T.format (filter_at (map F.filter filters.old) 0).capacity
        (map F.filter filters.old) }
    requires running { IsFalse (filter_at (map F.filter filters.old) 0).ended }
    requires fits { Fits T.format (length filters.old)
        (filter_at (map F.filter filters.old) 0).block numbers.now }
    ensures { AreRestored (map F.filter filters.old) (map F.filter filters.new) numbers.now }
{
    let channels = filters.len();
    let size = numbers.len() / channels;
    for channel in 0..channels {
        filters[channel].restore(numbers_of(numbers, size, channel));
    }
}
