ghost use Rattle.std.specs.Prelude.{◌≡◌, ◌<◌, ℕ, Bool, length, take, IfOk, IfErr};
ghost use Rattle.dsp_ports.specs.Ports.{CountsFaults, Took};
ghost use Rattle.dsp_defs.specs.Bytes.{format_in};
ghost use Rattle.dsp_defs.specs.Counts.{Counts};
ghost use Rattle.dsp_defs.specs.Output.{known_frames, output_header};
ghost use Rattle.dsp_input.specs.Taking.{Fits, Opened};
ghost use Rattle.dsp_session.specs.Session.{IsReady};
ghost use Rattle.dsp_session.specs.declared.fault.StreamFault.TheVariants.{Output};
ghost use Rattle.dsp_session.specs.SessionState.{SessionState};
ghost use Rattle.dsp_session.specs.Opening.{Untaken, Begun};
ghost use Rattle.dsp_session.specs.Stream.{Stopped, StaysRefused};

use crate::fault::{LengthFault, StreamFault};
use dsp_defs::{Header, MAX_RIFF_SIZE, Script};
use dsp_input::{known_frames, long_riff, output_header, read_input_header};
use dsp_ports::{Sink, Source, write_all};

/// Writes what stands in the output before the samples; raw samples have nothing before them.
pub fn write_output_header<K: Sink>(
    script: &Script,
    header: Header,
    output: &mut K,
) -> Result<(), StreamFault>
    requires ready { (block : ℕ) × IsReady script.now block }
    requires fits { Fits script.now header }
    ensures ok { IfOk result (λ _.
        Took (K.state output.old) (K.state output.new) (output_header script.now header)) }
    ensures err { IfErr result (λ fault. (count : ℕ) × (fault ≡ Output)
        × (count < length (output_header script.now header)) × Took (K.state output.old) (K.state output.new)
        (take count (output_header script.now header))) }
    ensures faults { CountsFaults result (K.state output.old).faults (K.state output.new).faults }
{
    let known = known_frames(script, header);
    match write_all(output, &output_header(script, header, known)) {
        Ok(()) => Ok(()),
        Err(_) => Err(StreamFault::Output),
    }
}

/// Takes the header of the input, of which an output can be written.
pub fn take_header<S: Source>(script: &Script, input: &mut S) -> Result<Header, StreamFault>
    requires { (block : ℕ) × IsReady script.now block }
    ensures ok { IfOk result (λ header. Opened script.now header (S.state input.old) (S.state input.new)) }
    ensures fits { IfOk result (λ header. Fits script.now header) }
    ensures coding { IfOk result (λ header. format_in header.coding ≡ script.now.input.format) }
    ensures err { IfErr result (λ fault.
        Untaken script.now fault (S.state input.old) (S.state input.new)) }
{
    let header = read_input_header(script, input)?;
    match long_riff(script, known_frames(script, header)) {
        Some(size) => Err(StreamFault::Lengths(LengthFault::Riff {
            size,
            limit: u64::from(MAX_RIFF_SIZE),
        })),
        None => Ok(header),
    }
}

/// Takes the header of the input, and writes that of the output.
pub fn open<S: Source, K: Sink>(
    script: &Script,
    input: &mut S,
    output: &mut K,
) -> Result<Header, StreamFault>
    requires { (block : ℕ) × IsReady script.now block }
    ensures ok { IfOk result (λ header.
        Begun script.now header (S.state input.old) (S.state input.new) (K.state output.old)
        (K.state output.new)) }
    ensures coding { IfOk result (λ header. format_in header.coding ≡ script.now.input.format) }
    ensures err { (banked : Bool) (block : ℕ) (counts : Counts) → IsReady script.now block
        → IfErr result (λ fault. Stopped banked script.now block fault (S.state input.old)
        (S.state input.new) (K.state output.old) (K.state output.new) counts counts) }
    ensures unfed { (s : SessionState) → IfErr result (λ fault. StaysRefused fault s) }
{
    let header = take_header(script, input)?;
    write_output_header(script, header, output)?;
    Ok(header)
}
