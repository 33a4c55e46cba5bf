ghost use Rattle.std.specs.Prelude.{◌≡◌, ◌+◌, ◌^◌, ◌<◌, ◌≤◌, ℕ, ℤ, List, pos, ◌+ℤ◌, ◌*ℤ◌, length, map};
ghost use Rattle.std.specs.Prelude.{replicate};
ghost use Rattle.std.specs.Simd.Lanes.{zip2, chunk, put_chunk};
ghost use Rattle.dsp_defs.specs.Numbers.{wrap, Width};
ghost use Rattle.dsp_defs.specs.Formats.{close};
ghost use Rattle.dsp_defs.specs.Signal.{sample, sum_below};

use dsp_sat::Sample;

/// How a group of outputs of a filter, next to one another, takes the taps. The bodies differ only in
/// which lanes of which width they use.
pub(crate) trait RowForm<T: Sample> {
    /// The sums of a group.
    type Sums: Copy;

    ghost size: { ℕ };

    ghost width: { Width };

    ghost lanes: { Self.Sums → List ℤ };

    // The sums after so many taps.
    ghost AreSums: { Self.Sums → ℕ → Type 0 };

    ghost Takes: { List T → Type 0 };

    ghost shut: { ℤ → ℤ };

    /// The place behind a group that begins at `at`.
    fn behind(at: usize) -> usize
        requires { at + size < 2 ^ 64 }
        ensures { result ≡ at + size };

    /// Empty sums.
    fn no_sums() -> Self::Sums
        ensures sums { lanes result ≡ replicate size (pos 0) }
        ensures fit { AreSums result 0 };

    /// Adds the products of the tap `j` with the samples from `at` on.
    fn add_tap(sums: Self::Sums, taps: &[T], j: usize, window: &[T], at: usize) -> Self::Sums
        requires takes { Takes taps.now }
        requires fit { AreSums sums j }
        requires tap { j < length taps.now }
        requires window { at + size ≤ length window.now }
        ensures sums { lanes result ≡ zip2 (λ s x.
            wrap width (s +ℤ (sample (map T.number taps.now) j *ℤ x))) (lanes sums)
            (chunk at size (map T.number window.now)) }
        ensures fit { AreSums result (j + 1) };

    /// Adds the products of the tap `j` with the samples from `at` on, and those of the tap `j + 1`
    /// with the samples from `at + 1` on.
    fn add_pair(sums: Self::Sums, taps: &[T], j: usize, window: &[T], at: usize) -> Self::Sums
        requires takes { Takes taps.now }
        requires fit { AreSums sums j }
        requires taps { j + 2 ≤ length taps.now }
        requires window { at + 1 + size ≤ length window.now }
        ensures sums { lanes result ≡ zip2 (λ s x.
            wrap width (s +ℤ (sample (map T.number taps.now) (j + 1) *ℤ x)))
            (zip2 (λ s x. wrap width (s +ℤ (sample (map T.number taps.now) j *ℤ x))) (lanes sums)
            (chunk at size (map T.number window.now)))
            (chunk (at + 1) size (map T.number window.now)) }
        ensures fit { AreSums result (j + 2) };

    /// Does nothing: a sum of products by these taps is shut as its exact value is closed.
    fn closes(taps: &[T], window: &[T])
        requires { Takes taps.now }
        ensures { (p : ℕ)
            → shut (wrap width (sum_below (length taps.now) (λ j.
            sample (map T.number taps.now) j *ℤ sample (map T.number window.now) (p + j))))
            ≡ close T.format (sum_below (length taps.now) (λ j.
            sample (map T.number taps.now) j *ℤ sample (map T.number window.now) (p + j))) };

    /// Writes the outputs from `at` on.
    fn close(sums: Self::Sums, out: &mut [T], at: usize)
        requires fit { (n : ℕ) × AreSums sums n }
        requires room { at + size ≤ length out.old }
        ensures { map T.number out.new ≡ put_chunk at (map T.number out.old) (map shut (lanes sums)) };
}
