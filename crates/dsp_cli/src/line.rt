//! The lines of the report, and their fields.
ghost use Rattle.std.specs.Prelude.{◌≡◌, ◌+◌, ◌≤◌, ◌++◌, length, codes, decimal};
ghost use Rattle.std.specs.Fmt.{signed_decimal};
ghost use Rattle.arrayvec.specs.ArrayVec.{array_vec_len};
ghost use Rattle.dsp_command.specs.Report.{field};
ghost use Rattle.dsp_defs.specs.Table.{format_name};

use arrayvec::ArrayVec;
use dsp_defs::Fmt;
use dsp_line::{integer, natural, text};

/// The bytes of a line at most.
const LINE: usize = 256;

pub type Line = ArrayVec<u8, LINE>;

pub fn field_name(line: &mut Line, name: &[u8])
    requires name { length name.now ≤ 8 }
    requires room { array_vec_len line.old ≤ 117 }
    ensures items { line.new.items ≡ line.old.items ++ (codes ", " ++ name.now ++ codes " ") }
    ensures len { array_vec_len line.new ≤ array_vec_len line.old + 11 }
{
    text(line, b", ");
    text(line, name);
    text(line, b" ");
}

pub fn natural_field(line: &mut Line, name: &[u8], number: u64)
    requires name { length name.now ≤ 8 }
    requires room { array_vec_len line.old ≤ 97 }
    ensures items { line.new.items ≡ line.old.items ++ field name.now (decimal number) }
    ensures len { array_vec_len line.new ≤ array_vec_len line.old + 31 }
{
    field_name(line, name);
    natural(line, number);
}

pub fn integer_field(line: &mut Line, name: &[u8], number: i64)
    requires name { length name.now ≤ 8 }
    requires room { array_vec_len line.old ≤ 97 }
    ensures items { line.new.items ≡ line.old.items ++ field name.now (signed_decimal number) }
    ensures len { array_vec_len line.new ≤ array_vec_len line.old + 31 }
{
    field_name(line, name);
    integer(line, number);
}

pub fn format_name(format: Fmt) -> &'static [u8]
    ensures name { result.now ≡ format_name format }
    ensures short { length result.now ≤ 3 }
{
    match format {
        Fmt::Q7 => b"q7",
        Fmt::Q15 => b"q15",
        Fmt::Q31 => b"q31",
    }
}
