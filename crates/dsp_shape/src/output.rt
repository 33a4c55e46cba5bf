//! What flows at the ends of a script's chain.

ghost use Rattle.std.specs.Prelude.{◌≡◌};
ghost use Rattle.dsp_defs.specs.Grammar.{IsSound, input_flow};
ghost use Rattle.dsp_defs.specs.Output.{format_of, channels_of, rate_of};

use dsp_defs::{Block, Flow, Input, Script};

/// What flows at the input.
pub fn input_flow(input: Input) -> Flow
    ensures { result ≡ input_flow input }
{
    Flow {
        format: input.format,
        channels: input.channels,
    }
}

/// The format and the channels of the output.
pub fn output_flow(script: &Script) -> Flow
    requires { IsSound script.now }
    ensures { result ≡ record { format = format_of script.now; channels = channels_of script.now } }
{
    let mut flow = input_flow(script.input);
    for block in script.blocks.as_slice() {
        flow = flow.after(block);
    }
    flow
}

/// The rate of the output, in frames a second, where the input has this one: an interpolator
/// multiplies it, up to 2^32 - 1, and a decimator divides it and drops a fraction.
pub fn output_rate(script: &Script, mut rate: u32) -> u32
    requires { IsSound script.now }
    ensures { result ≡ rate_of script.now rate }
{
    for block in script.blocks.as_slice() {
        rate = match block {
            Block::Interpolate { factor, .. } => rate.saturating_mul(u32::from(*factor)),
            Block::Decimate { factor, .. } => rate / u32::from(*factor),
            _ => rate,
        };
    }
    rate
}
