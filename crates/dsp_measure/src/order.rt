ghost use Rattle.std.specs.Prelude.{◌≡◌, Bool, true, false};
ghost use Rattle.dsp_measure.specs.Extremes.{wins};

/// Which of two samples wins.
pub trait Order {
    // Whether it is the lesser one.
    ghost least: { Bool };

    /// Whether the first sample wins over the second; none wins over an equal one.
    fn wins(a: i32, b: i32) -> bool
        ensures { result ≡ wins least a b };
}

/// The greater sample wins.
#[derive(Clone, Copy, Debug)]
pub struct Greatest;

impl Order for Greatest {
    ghost least = { false };

    fn wins(a: i32, b: i32) -> bool {
        a > b
    }
}

/// The lesser sample wins.
#[derive(Clone, Copy, Debug)]
pub struct Least;

impl Order for Least {
    ghost least = { true };

    fn wins(a: i32, b: i32) -> bool {
        a < b
    }
}
