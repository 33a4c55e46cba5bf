ghost use Rattle.std.specs.Prelude.{◌≡◌, ◌<◌, ℕ, ℤ, List};
ghost use Rattle.dsp_defs.specs.Numbers.{Width, wrap};
ghost use Rattle.dsp_lanes.specs.Regrouped.{list_sum, regrouped_sum, width_bits, wrap_bits};

/// The law by which sums are taken in lanes: in words of n bits, for any group length L of at least
/// 1, a list that is added by L lanes, and then the lanes and the rest one after another, with a
/// wrap after each addition, gives the wrapped sum of the list. It does nothing.
pub fn sums_regroup()
    ensures sums { (n L : ℕ) → 0 < L → (xs : List ℤ) → regrouped_sum n L xs ≡ wrap_bits n (list_sum xs) }
    ensures words { (w : Width) (x : ℤ) → wrap_bits (width_bits w) x ≡ wrap w x }
{}
