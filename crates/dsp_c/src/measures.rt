ghost use Rattle.std.specs.Prelude.{◌≡◌, ◌^◌, ◌-◌, ◌++◌, length, map, min, take, drop};
ghost use Rattle.dsp_chain.specs.Line.{measure_counts};
ghost use Rattle.dsp_session.specs.Session.{measured};
ghost use Rattle.dsp_c.specs.Measures.{extreme_row, row_of};

use dsp_defs::Measure;
use dsp_session::Session;
use dsp_unit::AnyUnit;

/// A measure, as C sees it.
#[repr(C)]
#[derive(Clone, Copy)]
pub struct MeasureRow {
    pub kind: u32,
    pub number: u32,
    pub channel: u32,
    pub found: u32,
    pub value: i64,
    pub other: i64,
}

/// The row of an extreme.
fn extreme(kind: u32, number: u8, channel: u8, found: Option<(i32, u64)>) -> MeasureRow
    ensures { result ≡ extreme_row kind number channel found }
{
    let (is_found, value, index) = match found {
        Some((value, index)) => (1, i64::from(value), index.min(i64::MAX as u64) as i64),
        None => (0, 0, 0),
    };
    MeasureRow {
        kind,
        number: u32::from(number),
        channel: u32::from(channel),
        found: is_found,
        value,
        other: index,
    }
}

/// The row of a sum.
fn sum(kind: u32, number: u8, channel: u8, value: i64, other: i64) -> MeasureRow
    ensures { result ≡ record {
      kind = kind;
      number = number;
      channel = channel;
      found = 1;
      value = value;
      other = other;
    } }
{
    MeasureRow {
        kind,
        number: u32::from(number),
        channel: u32::from(channel),
        found: 1,
        value,
        other,
    }
}

/// The row of a measure.
fn row_of(measure: Measure) -> MeasureRow
    ensures { result ≡ row_of measure }
{
    match measure {
        Measure::Power {
            number,
            channel,
            value,
        } => sum(1, number, channel, value, 0),
        Measure::Dot { number, value } => sum(2, number, 0, value, 0),
        Measure::CmplxDot { number, re, im } => sum(3, number, 0, re, im),
        Measure::Max {
            number,
            channel,
            found,
        } => extreme(4, number, channel, found),
        Measure::Min {
            number,
            channel,
            found,
        } => extreme(5, number, channel, found),
    }
}

/// Writes the measures of a session to the front, as many as there is room for, and answers their number.
pub fn write_measures<U: AnyUnit + Drop>(session: &Session<U>, measures: &mut [MeasureRow]) -> usize
    ensures count { result ≡ min (measure_counts session.now.script.input.channels
        session.now.script.blocks) (length measures.old) }
    ensures rows { take result measures.new ≡ map row_of (take result (measured session.now)) }
    ensures rest { drop result measures.new ≡ drop result measures.old }
{
    let count = session.measures().min(measures.len());
    for index in 0..count {
        measures[index] = row_of(session.measure(index));
    }
    count
}
