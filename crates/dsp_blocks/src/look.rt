ghost use Rattle.std.specs.Prelude.{ℕ, ℤ, List, length};
ghost use Rattle.dsp_unit.specs.Unit.{UnitState};

use dsp_unit::Unit;

/// What is asked of a unit, whichever it is.
pub trait Look {
    type Answer;

    // What it asks of the unit and of the room for numbers.
    ghost Asks: { Self → UnitState → ℕ → Type 0 };

    // What is told: the unit, the numbers that are written and the answer.
    ghost Tells: { Self → UnitState → List ℤ → Self.Answer → Type 0 };

    /// Reads the unit.
    fn look<U: Unit>(&self, unit: &U, out: &mut [i64]) -> Self::Answer
        requires { Asks self.now (U.unit unit.now) (length out.old) }
        ensures { Tells self.now (U.unit unit.now) out.new result };
}
