//! The tests of the second evaluator, as a caller writes them.
#![tactic(auto)]

/// Ends the test where what was found is not what is wanted, and shows both.
#[cfg(test)]
macro_rules! assert_same {
    ($rt:expr; $found:expr, $wanted:expr) => {
        crate::same::same(&$rt, &$found, &$wanted)
    };
}

#[cfg(test)]
mod files;
#[cfg(test)]
mod numbers;
#[cfg(test)]
mod same;
#[cfg(test)]
mod signals;
#[cfg(test)]
mod whole_channels;
