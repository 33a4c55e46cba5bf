ghost use Rattle.std.specs.Prelude.{ℕ, ℤ, List, length};
ghost use Rattle.dsp_unit.specs.Unit.{UnitState};

use dsp_unit::Unit;

/// What changes a unit, whichever it is.
pub trait Drive {
    // What the unit is given.
    type Given;

    // What counts its work.
    type Counter;

    // What it asks of the unit, of what is given, and of the room for the output.
    ghost Asks: { UnitState → List Self.Given → ℕ → Type 0 };

    // What it does: the unit before and after, what was given, the room, the output, the number of
    // samples written, and the counter before and after.
    ghost Does: { UnitState → UnitState → List Self.Given → ℕ → List ℤ → ℕ → Self.Counter
        → Self.Counter → Type 0 };

    /// Changes the unit, and answers the number of samples that it wrote.
    fn drive<U: Unit>(
        unit: &mut U,
        given: &[Self::Given],
        out: &mut [i32],
        counter: &mut Self::Counter,
    ) -> usize
        requires { Asks (U.unit unit.old) given.now (length out.old) }
        ensures { Does (U.unit unit.old) (U.unit unit.new) given.now (length out.old) out.new
            result counter.old counter.new };
}
