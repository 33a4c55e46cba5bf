//! The line of a measure in a report. It is built in place and takes no memory.
ghost use Rattle.std.specs.Prelude.{◌≡◌, ◌+◌, ◌≤◌, ◌++◌, length};
ghost use Rattle.arrayvec.specs.ArrayVec.{array_vec_len};
ghost use Rattle.dsp_command.specs.Report.{channel_text, extreme_line, found_text, measure_line, sums_line};

use crate::{integer, natural, text};
use arrayvec::ArrayVec;
use dsp_defs::Measure;

/// The bytes of a measure's line at most.
const LINE: usize = 160;

/// A line that ends with a line feed.
pub type MeasureLine = ArrayVec<u8, LINE>;

/// `WORD B channel C = `
fn start_of_channel(word: &[u8], number: u8, channel: u8) -> MeasureLine
    requires { length word.now ≤ 6 }
    ensures items { result.items ≡ channel_text word.now number channel }
    ensures len { array_vec_len result ≤ 60 }
{
    let mut line = ArrayVec::new();
    text(&mut line, word);
    text(&mut line, b" ");
    natural(&mut line, u64::from(number));
    text(&mut line, b" channel ");
    natural(&mut line, u64::from(channel));
    text(&mut line, b" = ");
    line
}

/// An extreme and its index, or `none`.
fn add_found(line: &mut MeasureLine, found: Option<(i32, u64)>)
    requires { array_vec_len line.old ≤ 60 }
    ensures items { line.new.items ≡ line.old.items ++ found_text found }
    ensures len { array_vec_len line.new ≤ array_vec_len line.old + 44 }
{
    match found {
        Some((value, index)) => {
            integer(line, i64::from(value));
            text(line, b" at ");
            natural(line, index);
        }
        None => text(line, b"none"),
    }
}

/// The line of one sum, or of two.
fn sums_line(word: &[u8], number: u8, first: i64, second: Option<i64>) -> MeasureLine
    requires { length word.now ≤ 9 }
    ensures { result.items ≡ sums_line word.now number first second }
{
    let mut line = ArrayVec::new();
    text(&mut line, word);
    text(&mut line, b" ");
    natural(&mut line, u64::from(number));
    text(&mut line, b" = ");
    integer(&mut line, first);
    if let Some(second) = second {
        text(&mut line, b" ");
        integer(&mut line, second);
    }
    text(&mut line, b"\n");
    line
}

/// The line of an extreme of a channel.
fn extreme_line(word: &[u8], number: u8, channel: u8, found: Option<(i32, u64)>) -> MeasureLine
    requires { length word.now ≤ 3 }
    ensures { result.items ≡ extreme_line word.now number channel found }
{
    let mut line = start_of_channel(word, number, channel);
    add_found(&mut line, found);
    text(&mut line, b"\n");
    line
}

/// The line of a measure in a report, as `power 1 channel 0 = 25`.
pub fn measure_line(measure: &Measure) -> MeasureLine
    ensures { result.items ≡ measure_line measure.now }
{
    match *measure {
        Measure::Power {
            number,
            channel,
            value,
        } => {
            let mut line = start_of_channel(b"power", number, channel);
            integer(&mut line, value);
            text(&mut line, b"\n");
            line
        }
        Measure::Dot { number, value } => sums_line(b"dot", number, value, None),
        Measure::CmplxDot { number, re, im } => sums_line(b"cmplx_dot", number, re, Some(im)),
        Measure::Max {
            number,
            channel,
            found,
        } => extreme_line(b"max", number, channel, found),
        Measure::Min {
            number,
            channel,
            found,
        } => extreme_line(b"min", number, channel, found),
    }
}
