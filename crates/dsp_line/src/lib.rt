//! The pieces of a line of text, and the line of a measure. A line is built in place and takes no memory.
#![tactic(auto)]

ghost use Rattle.std.specs.Prelude.{◌≡◌, ◌+◌, ◌≤◌, ◌++◌, length, decimal};
ghost use Rattle.std.specs.Fmt.{signed_decimal};
ghost use Rattle.arrayvec.specs.ArrayVec.{array_vec_len};

mod measure_lines;

use arrayvec::ArrayVec;
use itoa::Buffer;
pub use measure_lines::{MeasureLine, measure_line};

/// Adds a text to a line.
pub fn text<const N: usize>(line: &mut ArrayVec<u8, N>, text: &[u8])
    requires { array_vec_len line.old + length text.now ≤ N }
    ensures items { line.new.items ≡ line.old.items ++ text.now }
    ensures len { array_vec_len line.new ≡ array_vec_len line.old + length text.now }
{
    line.try_extend_from_slice(text).unwrap();
}

/// Adds a number in decimal, which takes 20 bytes at most.
pub fn natural<const N: usize>(line: &mut ArrayVec<u8, N>, number: u64)
    requires { array_vec_len line.old + 20 ≤ N }
    ensures items { line.new.items ≡ line.old.items ++ decimal number }
    ensures len { array_vec_len line.new ≤ array_vec_len line.old + 20 }
{
    text(line, Buffer::new().format(number).as_bytes());
}

/// Adds a number of more than 64 bits, which takes 39 bytes at most.
pub fn wide_natural<const N: usize>(line: &mut ArrayVec<u8, N>, number: u128)
    requires { array_vec_len line.old + 39 ≤ N }
    ensures items { line.new.items ≡ line.old.items ++ decimal number }
    ensures len { array_vec_len line.new ≤ array_vec_len line.old + 39 }
{
    text(line, Buffer::new().format(number).as_bytes());
}

/// Adds a number with its sign, where it is negative; it takes 20 bytes at most.
pub fn integer<const N: usize>(line: &mut ArrayVec<u8, N>, number: i64)
    requires { array_vec_len line.old + 20 ≤ N }
    ensures items { line.new.items ≡ line.old.items ++ signed_decimal number }
    ensures len { array_vec_len line.new ≤ array_vec_len line.old + 20 }
{
    text(line, Buffer::new().format(number).as_bytes());
}
