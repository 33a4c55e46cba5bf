//! Laws of saved states, each the contract of a function that does nothing.

ghost use Rattle.std.specs.Prelude.{◌≡◌, ◌<◌, ◌≤◌, ◌^◌, ℕ, ℤ, List, All, FitsSigned, length, true};
ghost use Rattle.dsp_defs.specs.Canon.{canon};
ghost use Rattle.dsp_defs.specs.Grammar.{IsSound};
ghost use Rattle.dsp_defs.specs.Numbers.{w64};
ghost use Rattle.dsp_defs.specs.Shape.{default_block, is_legal};
ghost use Rattle.dsp_defs.specs.StateBytes.{state_of};
ghost use Rattle.dsp_defs.specs.declared.limits.TheConstants.{MAX_SCRIPT};
ghost use Rattle.dsp_defs.specs.declared.script.Script.{Script};

use dsp_script::unit_divides_legal_lengths;

/// A list of bytes is the state of at most one script, one number of frames and one list of numbers.
pub fn one_state()
    ensures { (s t : Script) (m n : ℕ) (xs ys : List ℤ) → IsSound s → IsSound t
        → length (canon s) ≤ MAX_SCRIPT → length (canon t) ≤ MAX_SCRIPT
        → m < 2 ^ 32 → n < 2 ^ 32 → All (FitsSigned w64) xs → All (FitsSigned w64) ys
        → state_of s m xs ≡ state_of t n ys
        → (s ≡ t) × (m ≡ n) × (xs ≡ ys) }
{}

/// Where any block length is legal for a script, the default is.
pub fn default_length_is_legal()
    ensures { (s : Script) (block : ℕ) → IsSound s
        → is_legal s.input.channels s.blocks block ≡ true
        → is_legal s.input.channels s.blocks (default_block s.input.channels s.blocks) ≡ true }
{
    unit_divides_legal_lengths();
}
