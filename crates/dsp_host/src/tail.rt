ghost use Rattle.std.specs.Prelude.{◌≡◌, ◌≤◌, ◌<◌, length, IfOk, IfErr};
ghost use Rattle.dsp_session.specs.Advancing.{Runs};
ghost use Rattle.dsp_host.specs.Tail.{Finished, NotFinished};

use crate::refusal::Refusal;
use dsp_defs::{MAX_INPUT, Steps, WindowFault};
use dsp_ports::Piece;
use dsp_session::Session;
use dsp_unit::AnyUnit;
use std::sync::ledger::Ledger;

/// Ends the input of a session, writes the bytes of its whole tail to the front of the output, and answers
/// their number. The session then has the measures of the whole signal.
pub fn finish<U: AnyUnit + Drop, L: Ledger>(
    session: &mut Session<U>,
    out: &mut [u8],
    steps: &mut Steps<L>,
) -> Result<usize, Refusal>
    requires runs { Runs session.old }
    requires few { session.old.chain.frames ≤ MAX_INPUT }
    ensures ok { IfOk result (λ given. Finished session.old session.new given out.old out.new) }
    ensures err { IfErr result (λ why. NotFinished why session.old session.new out.old out.new
        steps.old steps.new) }
{
    if let Some(WindowFault { end, length }) = session.window_fault(0) {
        return Err(Refusal::Window { end, length });
    }
    let room = out.len();
    let bytes = session.tail_bytes();
    if bytes > room as u128 {
        return Err(Refusal::Room { bytes });
    }
    let mut given = 0;
    'giving: loop {
        let count = session.end(steps);
        if count == 0 {
            return Ok(given);
        }
        session.out().write_to(&mut out[given..given + count]);
        given += count;
    }
}
