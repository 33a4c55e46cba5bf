//! Callers of the crates in front of the blocks: script, ports, files, chain and session; and whole runs of
//! the program over ports in memory and over real files. Runs that are data alone are lines of dsp_replay.
#![tactic(auto)]

/// Ends the test where what was found is not what is wanted, and shows both. It is a call, since all that
/// `assert_eq!` writes would be proved again at each place; that one stands where a fact that is used later
/// follows from what was found. `rt` is a reference, which is handed on as it is: a reference to it would
/// be one more value at each place.
#[cfg(test)]
macro_rules! assert_same {
    ($rt:expr; $found:expr, $wanted:expr) => {
        crate::same::same($rt, &$found, &$wanted)
    };
}

/// Ends the test where a condition does not hold, and shows its text. It is a call for the same reason;
/// the test knows the condition from then on.
#[cfg(test)]
macro_rules! assert_holds {
    ($rt:expr; $condition:expr) => {
        crate::same::holds($rt, $condition, stringify!($condition))
    };
}

#[cfg(test)]
mod au;
#[cfg(test)]
mod chain;
#[cfg(test)]
mod files;
#[cfg(test)]
mod full_disk;
#[cfg(test)]
mod host;
#[cfg(test)]
mod memory;
#[cfg(test)]
mod ports;
#[cfg(test)]
mod resume;
#[cfg(test)]
mod runs;
#[cfg(test)]
mod same;
#[cfg(test)]
mod script;
#[cfg(test)]
mod session;
#[cfg(test)]
mod wave;
