//! Sums of the newest values, each times a weight.
ghost use Rattle.std.specs.Prelude.{◌*ℤ◌, reverse};
ghost use Rattle.dsp_defs.specs.Signal.{sample};

use dsp_defs::Steps;
use dsp_exact::{Terms, back, product, sample};
use std::sync::ledger::Ledger;

/// The terms w_k * x(n-k), for the values up to x(n).
#[derive(Clone, Copy)]
pub(crate) struct Weighted<'a> {
    pub w: &'a [i32],
    pub x: &'a [i32],
}

impl<'a> Terms for Weighted<'a> {
    ghost Has = { λ t k. Unit {0} };

    ghost term = { λ t k. sample t.w.now k *ℤ sample (reverse t.x.now) k };

    fn term<L: Ledger>(&self, k: usize, steps: &mut Steps<L>) -> i128 {
        product(sample(self.w, k), back(self.x, k), steps)
    }
}
