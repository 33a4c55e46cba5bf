ghost use Rattle.std.specs.Prelude.{◌≡◌, ◌+◌, ◌≤◌, ℕ, ℤ, pos, ◌+ℤ◌, ◌*ℤ◌, length, map};
ghost use Rattle.dsp_defs.specs.Numbers.{wrap, Width};
ghost use Rattle.dsp_defs.specs.Signal.{sample, sum_below};

use dsp_sat::Sample;

/// How a sum of products takes a group of them.
pub trait DotForm<T: Sample> {
    /// The sum so far, in parts.
    type Sums: Copy;

    ghost size: { ℕ };

    ghost width: { Width };

    ghost value: { Self.Sums → ℤ };

    ghost AreSums: { Self.Sums → Type 0 };

    /// The number of products of a group.
    fn size() -> usize
        ensures { result ≡ size };

    /// An empty sum.
    fn no_sums() -> Self::Sums
        ensures sums { value result ≡ pos 0 }
        ensures fit { AreSums result };

    /// Adds the products of two groups.
    fn add_products(sums: Self::Sums, taps: &[T], window: &[T], at: usize) -> Self::Sums
        requires fit { AreSums sums }
        requires taps { at + size ≤ length taps.now }
        requires window { at + size ≤ length window.now }
        ensures sums { wrap width (value result)
            ≡ wrap width (value sums +ℤ sum_below size (λ k.
            sample (map T.number taps.now) (at + k) *ℤ sample (map T.number window.now) (at + k))) }
        ensures fit { AreSums result };

    /// The sum.
    fn total(sums: Self::Sums) -> T::Acc
        requires { AreSums sums }
        ensures { T.total result ≡ wrap width (value sums) };
}
