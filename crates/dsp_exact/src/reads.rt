//! Samples of a signal, with zeros before its start and after its end.
ghost use Rattle.std.specs.Prelude.{◌≡◌, reverse};
ghost use Rattle.dsp_defs.specs.Signal.{delayed, sample};

/// x(n), and 0 past the end.
pub fn sample(x: &[i32], n: usize) -> i32
    ensures { result ≡ sample x.now n }
{
    if n < x.len() { x[n] } else { 0 }
}

/// x(n-k), and 0 before the start.
pub fn delayed(x: &[i32], n: usize, k: usize) -> i32
    ensures { result ≡ delayed x.now n k }
{
    if n < k { 0 } else { sample(x, n - k) }
}

/// The newest number but k, and 0 before the start.
pub fn back(x: &[i32], k: usize) -> i32
    ensures { result ≡ sample (reverse x.now) k }
{
    if k < x.len() { x[x.len() - 1 - k] } else { 0 }
}

/// The same of numbers of 64 bits.
pub fn back_wide(x: &[i64], k: usize) -> i64
    ensures { result ≡ sample (reverse x.now) k }
{
    if k < x.len() { x[x.len() - 1 - k] } else { 0 }
}
