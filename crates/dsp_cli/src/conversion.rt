//! A conversion, out of line.
ghost use Rattle.std.specs.Prelude.{IfOk, IfErr};
ghost use Rattle.dsp_au.specs.Convert.{Done, Stopped};

use dsp_au::{ConvertFault, Converted};
use dsp_defs::Direction;
use dsp_ports::{Sink, Source};

/// Takes a file of one form to the other. It is a call of its own, so that the buffer of a conversion does
/// not stand on the stack of every other command.
#[inline(never)]
pub fn convert<S: Source, K: Sink>(
    direction: Direction,
    input: &mut S,
    output: &mut K,
) -> Result<Converted, ConvertFault>
    ensures ok { IfOk result (λ converted.
        Done direction converted (S.state input.old) (S.state input.new) (K.state output.old)
        (K.state output.new)) }
    ensures err { IfErr result (λ fault.
        Stopped direction fault (S.state input.old) (S.state input.new) (K.state output.old)
        (K.state output.new)) }
{
    dsp_au::convert(direction, input, output)
}
