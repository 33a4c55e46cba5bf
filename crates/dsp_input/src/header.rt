ghost use Rattle.std.specs.Prelude.{◌≡◌, ◌≢◌, ◌<◌, IfOk, IfErr, IfSome, IsNone};
ghost use Rattle.dsp_defs.specs.Bytes.{format_in};
ghost use Rattle.dsp_defs.specs.Grammar.{IsSound};
ghost use Rattle.dsp_defs.specs.Output.{channels_of, format_of, known_frames, output_header};
ghost use Rattle.dsp_defs.specs.Wave.{HeaderFits};
ghost use Rattle.dsp_defs.specs.declared.format.Container.TheVariants as container;
ghost use Rattle.dsp_shape.specs.Lengths.{HasLegalBlock};
ghost use Rattle.dsp_input.specs.Taking.{frame_bytes, Opened, Unopened, IsTooLong};

use crate::fault::InputFault;
use arrayvec::ArrayVec;
use dsp_defs::{Coding, Container, Header, InputKind, MAX_INPUT, MAX_RIFF_SIZE, Script, Wanted};
use dsp_ports::Source;
use dsp_script::{frames_given, output_flow, output_rate};
use dsp_wave::{HEADER_ROOM, HeaderOr, coding_of, read_header, riff_size, width, write_header};

/// The bytes of a frame of the input in a coding.
pub fn frame_bytes(script: &Script, coding: Coding) -> u64
    ensures { result ≡ frame_bytes script.now coding }
{
    u64::from(script.input.channels) * width(coding) as u64
}

/// The header of the input; raw samples have none.
pub fn read_input_header<S: Source>(script: &Script, input: &mut S) -> Result<Header, InputFault>
    ensures ok { IfOk result (λ header. Opened script.now header (S.state input.old) (S.state input.new)) }
    ensures coding { IfOk result (λ header. format_in header.coding ≡ script.now.input.format) }
    ensures err { IfErr result (λ fault.
        Unopened script.now fault (S.state input.old) (S.state input.new)) }
{
    if let InputKind::Raw { rate } = script.input.kind {
        return Ok(Header {
            rate,
            start: 0,
            size: None,
            coding: coding_of(Container::Raw, script.input.format),
        });
    }
    let wanted = Wanted {
        format: script.input.format,
        channels: script.input.channels,
    };
    match read_header(input, wanted) {
        Ok(header) => Ok(header),
        Err(HeaderOr::Fault { fault, offset }) => Err(InputFault::Header { fault, offset }),
        Err(HeaderOr::Read) => Err(InputFault::Failed),
        Err(HeaderOr::Long) => Err(InputFault::Limit {
            taken: MAX_INPUT,
            limit: MAX_INPUT,
        }),
    }
}

/// The frames that the output is to have, where the header of the input declares its own.
pub fn known_frames(script: &Script, header: Header) -> Option<u64>
    requires sound { IsSound script.now }
    requires legal { HasLegalBlock script.now }
    ensures { result ≡ known_frames script.now header }
{
    let frames = u64::from(header.size?) / frame_bytes(script, header.coding);
    Some(frames_given(script, frames))
}

/// The RIFF size of a WAVE output of so many frames, where it would be too long for its header.
pub fn long_riff(script: &Script, known: Option<u64>) -> Option<u128>
    requires sound { IsSound script.now }
    requires legal { HasLegalBlock script.now }
    ensures some { IfSome result (λ size. IsTooLong script.now known size) }
    ensures none { IsNone result → script.now.output ≢ container.Raw
        → HeaderFits script.now.output (format_of script.now) (channels_of script.now) known }
{
    if script.output == Container::Raw {
        return None;
    }
    let flow = output_flow(script);
    let size = riff_size(script.output, flow.format, flow.channels, known?);
    if size <= u128::from(MAX_RIFF_SIZE) {
        return None;
    }
    Some(size)
}

/// What stands in the output before the samples; raw samples have nothing before them.
pub fn output_header(
    script: &Script,
    header: Header,
    known: Option<u64>,
) -> ArrayVec<u8, HEADER_ROOM>
    requires sound { IsSound script.now }
    requires legal { HasLegalBlock script.now }
    requires known { known ≡ known_frames script.now header }
    requires fits { script.now.output ≢ container.Raw
        → HeaderFits script.now.output (format_of script.now) (channels_of script.now) known }
    ensures { result.items ≡ output_header script.now header }
{
    if script.output == Container::Raw {
        return ArrayVec::new();
    }
    let flow = output_flow(script);
    let rate = output_rate(script, header.rate);
    write_header(script.output, flow.format, flow.channels, rate, known)
}
