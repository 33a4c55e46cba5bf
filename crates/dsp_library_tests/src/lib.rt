//! Callers of the blocks' crates: what to write to use them, and tests.
#![tactic(auto)]

/// Ends the test where what was found is not what is wanted, and shows both. It is a call, since all that
/// `assert_eq!` writes would be proved again at each place; that one stands where a clause of the test
/// follows from what was found. `rt` is a reference, which is handed on as it is: a reference to it would
/// be one more value at each place.
#[cfg(test)]
macro_rules! assert_same {
    ($rt:expr; $found:expr, $wanted:expr) => {
        crate::same::same($rt, &$found, &$wanted)
    };
}

/// Ends the test where a condition does not hold, and shows its text. It is a call for the same reason;
/// the test knows the condition from then on.
#[cfg(test)]
macro_rules! assert_holds {
    ($rt:expr; $condition:expr) => {
        crate::same::holds($rt, $condition, stringify!($condition))
    };
}

/// Ends the test where a call has not given so many values, or where its whole output is then another.
/// One call serves for both, and the test knows the count from then on.
#[cfg(test)]
macro_rules! assert_gives {
    ($rt:expr; $call:expr, $count:expr, $output:expr, $wanted:expr) => {
        crate::same::gave($rt, $call, $count, &$output, &$wanted)
    };
}

#[cfg(test)]
mod adapt;
#[cfg(test)]
mod bank;
#[cfg(test)]
mod biquad;
#[cfg(test)]
mod complex;
#[cfg(test)]
mod conv;
#[cfg(test)]
mod fir;
#[cfg(test)]
mod lanes;
#[cfg(test)]
mod lattice;
#[cfg(test)]
mod line;
#[cfg(test)]
mod matrix;
#[cfg(test)]
mod measure;
#[cfg(test)]
mod rate;
#[cfg(test)]
mod refusals;
#[cfg(test)]
mod same;
#[cfg(test)]
mod sat;
#[cfg(test)]
mod step_filters;
#[cfg(test)]
mod tests;
#[cfg(test)]
mod vector;
#[cfg(test)]
mod window;
