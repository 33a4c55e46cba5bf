ghost use Rattle.std.specs.Prelude.{◌≡◌, ◌≤◌, ◌*◌, ◌/◌, ◌↔◌, ℕ, ℤ, List, [], length, map, flat_map, IsTrue};
ghost use Rattle.std.specs.List.{range_with_len};
ghost use Rattle.dsp_defs.specs.Cost.{section_count};
ghost use Rattle.dsp_unit.specs.Filter.{IsStepwise};
ghost use Rattle.dsp_defs.specs.Kept.{Kind, kinds_by, Each, IsOfKind};
ghost use Rattle.dsp_defs.specs.Streaming.{Behaviour, chained};
ghost use Rattle.dsp_defs.specs.declared.script.Block.{Block};
ghost use Rattle.dsp_biquad.specs.Sections.{AreParameters, IsCascade, block_acts, coefficients_of};
ghost use Rattle.dsp_biquad.specs.Sections.{post_shift_of};

use dsp_filter::WaveMachine;
use dsp_sat::Sample;

/// A section of a cascade, from its numbers in a list, with four numbers that it keeps.
pub trait CascadeSection<T: Sample>: WaveMachine<T> {
    // How many numbers it has in a list.
    const SIZE: usize;

    const GREATEST_SHIFT: u8;

    ghost SIZE: { ℕ };

    ghost GREATEST_SHIFT: { ℕ };

    // The block of a post shift and a list, what a section does, and the kinds of the numbers that it keeps.
    ghost block: { ℕ → List ℤ → Block };

    ghost section: { ℕ → List ℤ → Behaviour };

    ghost kinds: { List Kind };

    ghost IsOf: { Block → Type 0 };

    /// A section that has taken nothing.
    fn new(post_shift: u8, numbers: &[T]) -> Self
        requires shift { post_shift ≤ GREATEST_SHIFT }
        requires size { length numbers.now ≡ SIZE }
        ensures acts { Self.acts result ≡ section post_shift (map T.number numbers.now) }
        ensures kept { Self.kept result ≡ (section post_shift (map T.number numbers.now)).keeps [] };

    /// Writes the numbers that it keeps.
    fn keep(&self, out: &mut [i64])
        requires { length out.old ≡ 4 }
        ensures { out.new ≡ Self.kept self.now };

    /// Whether a section can keep these numbers.
    fn fits(numbers: &[i64]) -> bool
        ensures { IsTrue result ↔ Each IsOfKind kinds numbers.now };

    /// Keeps these numbers from now on, and no others.
    fn restore(&mut self, numbers: &[i64])
        requires { Each IsOfKind kinds numbers.now }
        ensures acts { Self.acts self.new ≡ Self.acts self.old }
        ensures kept { Self.kept self.new ≡ numbers.now };

    ghost some: { 1 ≤ SIZE };

    ghost few: { SIZE ≤ 6 };

    ghost five: { Self.price ≡ 5 };

    ghost four: { (m : Self) → length (Self.kept m) ≡ 4 };

    ghost four_kinds: { length kinds ≡ 4 };

    ghost quiet: { (p : ℕ) (numbers : List ℤ) → (section p numbers).gives [] ≡ [] };

    ghost empty: { (p : ℕ) → block_acts T.format (block p []) ≡ chained [] };

    ghost cascade: { (p : ℕ) → IsCascade T.format (block p) SIZE (section p) };

    ghost count: { (numbers : List ℤ) → section_count T.format numbers ≡ length numbers / SIZE };

    ghost numbers: { (p : ℕ) (numbers : List ℤ) → coefficients_of (block p numbers) ≡ numbers };

    ghost of_numbers: { (p : ℕ) (numbers : List ℤ)
        → AreParameters T.format GREATEST_SHIFT SIZE p numbers → IsOf (block p numbers) };

    ghost is_block: { (b : Block) → IsOf b → b ≡ block (post_shift_of b) (coefficients_of b) };

    ghost parameters: { (b : Block) → IsOf b
        → AreParameters T.format GREATEST_SHIFT SIZE (post_shift_of b) (coefficients_of b) };

    ghost kinds_are: { (p : ℕ) (numbers : List ℤ) → kinds_by T.format (block p numbers) 0
        ≡ flat_map (λ (_ : ℕ). kinds) (range_with_len 0 (section_count T.format numbers)) };

    ghost stepwise: { (b : Block) → IsOf b
        → IsStepwise T.format b (5 * section_count T.format (coefficients_of b)) };
}
