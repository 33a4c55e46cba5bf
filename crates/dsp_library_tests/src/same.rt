ghost use Rattle.std.specs.Prelude.{◌≡◌, IsTrue};

use std::fmt::Debug;
use std::process::Abort;

/// Ends the test where what was found is not what is wanted.
pub fn same<A: PartialEq + Debug>(rt: &impl Abort, found: &A, wanted: &A) {
    assert_eq!(rt; *found, *wanted);
}

/// Ends the test where a count is not what is wanted.
pub fn same_count(rt: &impl Abort, found: usize, wanted: usize)
    ensures { found ≡ wanted }
{
    assert_eq!(rt; found, wanted);
}

/// Ends the test where the condition with this text does not hold.
pub fn holds(rt: &impl Abort, condition: bool, text: &str)
    ensures { IsTrue condition }
{
    assert!(rt; condition, "{text}");
}

/// Ends the test where a call has not given so many values, or where its whole output is not what is
/// wanted.
pub fn gave<A: PartialEq + Debug>(
    rt: &impl Abort,
    count: usize,
    wanted_count: usize,
    output: &A,
    wanted: &A,
)
    ensures { count ≡ wanted_count }
{
    same_count(rt, count, wanted_count);
    same(rt, output, wanted);
}
