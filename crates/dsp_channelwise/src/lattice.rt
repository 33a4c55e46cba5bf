//! The lattice without feedback, one whole signal after another.
ghost use Rattle.std.specs.Prelude.{◌≡◌, ◌+◌, ◌*◌, ◌+ℤ◌, ◌*ℤ◌, ◌≤◌, ℤ, pos, All, FitsSigned, IfOk, get_or, length, map};
ghost use Rattle.std.specs.Prelude.{reverse};
ghost use Rattle.dsp_defs.specs.Formats.{word};
ghost use Rattle.dsp_defs.specs.Lattice.{lattice_fir, lattice_output};
ghost use Rattle.dsp_defs.specs.Numbers.{floor_shift, saturate};
ghost use Rattle.dsp_defs.specs.declared.format.Fmt.TheVariants.{Q15};

use dsp_defs::{Fmt, Steps};
use dsp_exact::{Recurrence, outputs, product, saturate, sum};
use dsp_sat::floor_shift;
use std::alloc::{AllocError, Global};
use std::sync::ledger::Ledger;

/// f and g of one place.
type Pair = (i32, i32);

/// sat_16((k*x >> 15) + y)
fn crossed<L: Ledger>(k: i32, x: i32, y: i32, steps: &mut Steps<L>) -> i32
    ensures value { result ≡ saturate 16 (floor_shift (k *ℤ x) 15 +ℤ y) }
    ensures fits { FitsSigned (word Q15) result }
    ensures products { steps.new.multiplies ≡ steps.old.multiplies + 1 }
{
    let p = product(k, x, steps);
    saturate(Fmt::Q15, sum(floor_shift(p, 15), i128::from(y)))
}

/// f_m(n) and g_m(n) from f_{m-1}(n), g_{m-1}(n-1).
#[derive(Clone, Copy)]
struct LatticeSection {
    k: i32,
}

impl Recurrence for LatticeSection {
    type In = Pair;

    type Out = Pair;

    ghost next = { λ s. lattice_output s.k };

    ghost IsValue = { λ s (w : ℤ × ℤ). FitsSigned (word Q15) w.0 × FitsSigned (word Q15) w.1 };

    ghost cost = { λ s. 2 };

    fn next<L: Ledger>(&self, x: &[Pair], _y: &[Pair], steps: &mut Steps<L>) -> Pair {
        let (f, _) = newest(x, 0);
        let (_, g) = newest(x, 1);
        (crossed(self.k, g, f, steps), crossed(self.k, f, g, steps))
    }
}

/// The newest pair but k, and zeros before the start.
fn newest(x: &[Pair], k: usize) -> Pair
    ensures { result ≡ get_or (reverse x.now) k (pos 0, pos 0) }
{
    if k < x.len() {
        x[x.len() - 1 - k]
    } else {
        (0, 0)
    }
}

/// The sections k_1 to k_S one after another, from f_0(n) = g_0(n) = x(n), as many values as x has samples;
/// each in Q15. The source is `arm_fir_lattice_q15` of CMSIS-DSP.
pub fn lattice_fir<L: Ledger>(
    alloc: Global,
    k: &[i32],
    x: &[i32],
    steps: &mut Steps<L>,
) -> Result<Vec<i32>, AllocError>
    requires { All (FitsSigned (word Q15)) x.now }
    ensures values { IfOk result (λ y. y.items ≡ lattice_fir k.now x.now) }
    ensures fits { IfOk result (λ y. All (FitsSigned (word Q15)) y.items) }
    ensures products { steps.new.multiplies ≤ steps.old.multiplies + length x.now * (2 * length k.now) }
{
    let mut pairs = paired(alloc, x)?;
    for section in k {
        let section = LatticeSection { k: *section };
        pairs = outputs(alloc, &section, pairs.as_slice(), steps)?;
    }
    firsts(alloc, pairs.as_slice())
}

/// Each sample as a pair of itself.
fn paired(alloc: Global, x: &[i32]) -> Result<Vec<Pair>, AllocError>
    requires { All (FitsSigned (word Q15)) x.now }
    ensures values { IfOk result (λ y. y.items ≡ map (λ (a : ℤ). (a, a)) x.now) }
    ensures length { IfOk result (λ y. length y.items ≡ length x.now) }
    ensures fits { IfOk result (λ y. All (λ (w : ℤ × ℤ). FitsSigned (word Q15) w.0 × FitsSigned (word Q15) w.1)
        y.items) }
{
    x.iter().map(|a| (*a, *a)).collect(alloc)
}

/// The first number of each pair.
fn firsts(alloc: Global, pairs: &[Pair]) -> Result<Vec<i32>, AllocError>
    requires { All (λ (w : ℤ × ℤ). FitsSigned (word Q15) w.0 × FitsSigned (word Q15) w.1) pairs.now }
    ensures values { IfOk result (λ y. y.items ≡ map (λ (w : ℤ × ℤ). w.0) pairs.now) }
    ensures fits { IfOk result (λ y. All (FitsSigned (word Q15)) y.items) }
{
    pairs.iter().map(|pair| pair.0).collect(alloc)
}
