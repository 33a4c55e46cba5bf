ghost use Rattle.std.specs.Prelude.{◌≡◌, ◌≤◌, ◌*◌, ◌↔◌, ℕ, length, map, flat_map, IsTrue};
ghost use Rattle.std.specs.List.{range_with_len};
ghost use Rattle.dsp_defs.specs.Kept.{Each, IsOfKind};

use crate::CascadeSection;
use dsp_sat::Sample;

/// Writes the numbers that the sections keep, one section after another.
pub(crate) fn keep_sections<T: Sample, S: CascadeSection<T>>(sections: &[S], out: &mut [i64])
    requires few { length sections.now ≤ 64 }
    requires count { length out.old ≡ length sections.now * 4 }
    ensures { out.new ≡ flat_map S.kept sections.now }
{
    for (k, section) in sections.iter().enumerate() {
        section.keep(&mut out[k * 4..k * 4 + 4]);
    }
}

/// Whether so many sections can keep these numbers.
pub(crate) fn fits_sections<T: Sample, S: CascadeSection<T>>(count: usize, numbers: &[i64]) -> bool
    requires { count ≤ 64 }
    ensures { IsTrue result ↔ Each IsOfKind
        (flat_map (λ (_ : ℕ). S.kinds) (range_with_len 0 count)) numbers.now }
{
    if numbers.len() != count * 4 {
        return false;
    }
    for k in 0..count {
        if !S::fits(&numbers[k * 4..k * 4 + 4]) {
            return false;
        }
    }
    true
}

/// Each section keeps its numbers from now on.
pub(crate) fn restore_sections<T: Sample, S: CascadeSection<T>>(sections: &mut [S], numbers: &[i64])
    requires few { length sections.old ≤ 64 }
    requires count { length numbers.now ≡ length sections.old * 4 }
    requires fits { Each IsOfKind (flat_map (λ (_ : ℕ). S.kinds)
        (range_with_len 0 (length sections.old))) numbers.now }
    ensures acts { map S.acts sections.new ≡ map S.acts sections.old }
    ensures kept { flat_map S.kept sections.new ≡ numbers.now }
{
    for k in 0..sections.len() {
        sections[k].restore(&numbers[k * 4..k * 4 + 4]);
    }
}
