ghost use Rattle.std.specs.Prelude.{◌≡◌, ◌≤◌, ◌^◌, length, IfOk, IfErr};
ghost use Rattle.dsp_ports.specs.Ports.{SourceState, SinkState};
ghost use Rattle.dsp_defs.specs.Au.{open_frame_bytes};
ghost use Rattle.dsp_au.specs.Convert.{Begun, Done, Passed, Stopped, block_bytes};
ghost use Rattle.dsp_au.specs.declared.conversion.TheConstants.{CONVERT_BLOCK};

use crate::exchange::exchange;
use crate::fault::ConvertFault;
use crate::source::{frame_bytes, read_block, read_source};
use crate::target::{close, riff_fault, write_target_header};
use dsp_defs::{Direction, OpenHeader};
use dsp_ports::{Sink, Source, write_all};
use dsp_wave::width;

/// What a conversion did: the whole frames that it took, their channels, and the bits of a sample.
#[derive(Clone, Copy, Debug, PartialEq, Eq)]
pub struct Converted {
    pub frames: u64,
    pub channels: u8,
    pub bits: u16,
}

/// At most so many bytes are taken before what they give is written.
pub const CONVERT_BLOCK: usize = 65_536;

/// The bytes of a block: as many whole frames as there is room for.
fn block_bytes(header: OpenHeader) -> usize
    requires { 1 ≤ open_frame_bytes header }
    ensures value { result ≡ block_bytes header }
    ensures within { result ≤ CONVERT_BLOCK }
{
    let frame = frame_bytes(header);
    CONVERT_BLOCK / frame * frame
}

/// Takes the header of the input, and writes that of the output.
fn open<S: Source, K: Sink>(
    direction: Direction,
    input: &mut S,
    output: &mut K,
) -> Result<OpenHeader, ConvertFault>
    ensures ok { IfOk result (λ header. Begun direction header (S.state input.old)
        (S.state input.new) (K.state output.old) (K.state output.new)) }
    ensures err { IfErr result (λ fault. Stopped direction fault (S.state input.old)
        (S.state input.new) (K.state output.old) (K.state output.new)) }
{
    let header = read_source(direction, input)?;
    if let Some(fault) = riff_fault(direction, header) {
        return Err(fault);
    }
    match write_target_header(direction, header, output) {
        Ok(()) => Ok(header),
        Err(_) => Err(ConvertFault::Write),
    }
}

/// Takes block after block of the samples, and writes them in the other form; it answers how many
/// bytes of samples came.
fn pass_samples<S: Source, K: Sink>(
    direction: Direction,
    header: OpenHeader,
    block: &mut [u8],
    input: &mut S,
    output: &mut K,
) -> Result<u64, ConvertFault>
    requires block { length block.old ≡ block_bytes header }
    requires begun { (before : SourceState) × (empty : SinkState)
        × Begun direction header before (S.state input.old) empty (K.state output.old) }
    ensures ok { (before : SourceState) (empty : SinkState)
        → Begun direction header before (S.state input.old) empty (K.state output.old)
        → IfOk result (λ count. Passed direction header count before (S.state input.new) empty
        (K.state output.new)) }
    ensures err { (before : SourceState) (empty : SinkState)
        → Begun direction header before (S.state input.old) empty (K.state output.old)
        → IfErr result (λ fault. Stopped direction fault before (S.state input.new) empty
        (K.state output.new)) }
{
    let frame = frame_bytes(header);
    let mut taken = 0;
    'passing: loop {
        let count = read_block(direction, header, taken, block, input)?;
        let samples = &mut block[..count / frame * frame];
        exchange(width(header.coding), samples);
        match write_all(output, samples) {
            Ok(()) => taken += count as u64,
            Err(_) => return Err(ConvertFault::Write),
        }
        if count < block.len() {
            return Ok(taken);
        }
    }
}

/// Takes a file of one form to the other: a header with the same rate, channels and length, the same
/// signal in as many bits, and the pad byte of a WAVE file; it flushes the output once at the end. It
/// takes no memory, and holds at most 65,536 bytes of the samples.
///
/// The output of a block is accepted wholly before a byte of the next block is asked for.
pub fn convert<S: Source, K: Sink>(
    direction: Direction,
    input: &mut S,
    output: &mut K,
) -> Result<Converted, ConvertFault>
    ensures ok { IfOk result (λ converted.
        Done direction converted (S.state input.old) (S.state input.new) (K.state output.old)
        (K.state output.new)) }
    ensures err { IfErr result (λ fault.
        Stopped direction fault (S.state input.old) (S.state input.new) (K.state output.old)
        (K.state output.new)) }
{
    let header = open(direction, input, output)?;
    let mut buffer = [0; CONVERT_BLOCK];
    let size = block_bytes(header);
    let taken = pass_samples(direction, header, &mut buffer[..size], input, output)?;
    match close(direction, header, output) {
        Ok(()) => Ok(Converted {
            frames: taken / frame_bytes(header) as u64,
            channels: header.channels,
            bits: 8 * width(header.coding) as u16,
        }),
        Err(_) => Err(ConvertFault::Write),
    }
}
