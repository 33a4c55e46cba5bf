ghost use Rattle.std.specs.Prelude.{◌≡◌, ◌≤◌, ℕ, Some, length, slice_get};
ghost use Rattle.std.specs.Prelude.{IfSome, IsFalse, ⊤};
ghost use Rattle.dsp_defs.specs.Kept.{FitsAfter, place_of};
ghost use Rattle.dsp_unit.specs.Unit.{measures_of, most_kept};

use crate::Look;
use dsp_defs::Measure;
use dsp_unit::Unit;

/// How many numbers it keeps.
#[derive(Drop)]
pub struct KeptCount;

impl Look for KeptCount {
    type Answer = usize;

    ghost Asks = { λ it u room. ⊤ };

    ghost Tells = { λ it u out count. (count ≡ length u.kept) × (count ≤ most_kept) };

    fn look<U: Unit>(&self, unit: &U, _out: &mut [i64]) -> usize {
        unit.kept_count()
    }
}

/// The numbers that it keeps.
#[derive(Drop)]
pub struct Keep;

impl Look for Keep {
    type Answer = ();

    ghost Asks = { λ it u room. (IsFalse u.ended) × (room ≡ length u.kept) };

    ghost Tells = { λ it u out nothing. out ≡ u.kept };

    fn look<U: Unit>(&self, unit: &U, out: &mut [i64]) {
        unit.keep(out);
    }
}

/// The least number of frames that lead to these numbers.
#[derive(Drop)]
pub struct Place<'a> {
    pub numbers: &'a [i64],
}

impl<'a> Look for Place<'a> {
    type Answer = Option<u64>;

    ghost Asks = { λ it u room. ⊤ };

    ghost Tells = { λ it u out place.
        (IfSome place (λ n. FitsAfter u.format u.channels u.block n it.numbers.now))
        × ((n : ℕ) → FitsAfter u.format u.channels u.block n it.numbers.now
        → place ≡ Some (place_of u.block n)) };

    fn look<U: Unit>(&self, unit: &U, _out: &mut [i64]) -> Option<u64> {
        unit.place(self.numbers)
    }
}

/// How many measures it has.
#[derive(Drop)]
pub struct Measures;

impl Look for Measures {
    type Answer = usize;

    ghost Asks = { λ it u room. ⊤ };

    ghost Tells = { λ it u out count. count ≡ length (measures_of 0 u) };

    fn look<U: Unit>(&self, unit: &U, _out: &mut [i64]) -> usize {
        unit.measures()
    }
}

/// One of the measures.
#[derive(Drop)]
pub struct MeasureAt {
    pub number: u8,
    pub index: usize,
}

impl Look for MeasureAt {
    type Answer = Option<Measure>;

    ghost Asks = { λ it u room. ⊤ };

    ghost Tells = { λ it u out measure. measure ≡ slice_get (measures_of it.number u) it.index };

    fn look<U: Unit>(&self, unit: &U, _out: &mut [i64]) -> Option<Measure> {
        unit.measure(self.number, self.index)
    }
}
