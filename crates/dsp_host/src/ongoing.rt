ghost use Rattle.std.specs.Prelude.{◌≡◌, ◌≤◌, ◌++◌, length, take, drop, IfOk, IfErr};
ghost use Rattle.dsp_host.specs.Pieces.{FailsToReopen, IsReopened};
ghost use Rattle.dsp_host.specs.Ongoing.{FailsToPush, FailsToSave, HeldIsText, IsKeptOf, Pushed};

use crate::pieces::{feed_judged, judge, reopen, save};
use crate::refusal::Refusal;
use dsp_defs::{MAX_GATHERED, Steps};
use dsp_session::Session;
use dsp_unit::AnyUnit;
use std::alloc::Global;
use std::marker::Model;
use std::sync::ledger::Ledger;

/// A signal that a host holds from call to call: its script at work, which has taken some frames and can
/// take more. A call takes no memory.
#[derive(Drop)]
pub struct Ongoing<U: AnyUnit + Drop> {
    session: Session<U>,
}

impl<U: AnyUnit + Drop> Model for Ongoing<U> {
    ghost use Rattle.dsp_session.specs.SessionState.{SessionState};
    ghost use Rattle.dsp_host.specs.Ongoing.{IsOngoing};

    ghost Value = { SessionState };

    ghost view = { λ o. o.session };

    ghost invariant = { λ o. IsOngoing o.session };
}

impl<U: AnyUnit + Drop> Ongoing<U> {
    /// The signal of a text that goes on behind so many frames, which left these numbers; 0 frames may leave
    /// none. All memory is taken here.
    pub fn new(
        alloc: Global,
        text: &[u8],
        block: u64,
        frames: u64,
        numbers: &[i64],
    ) -> Result<Self, Refusal>
        ensures ok { IfOk result (IsReopened text.now block frames numbers.now) }
        ensures err { IfErr result (λ why. FailsToReopen why text.now block frames numbers.now) }
    {
        match reopen::<U>(alloc, text, block, frames, numbers) {
            Ok(session) => Ok(Ongoing { session }),
            Err(why) => Err(why),
        }
    }

    /// Takes the whole frames of some bytes, at most a block, writes the bytes of the live values that they
    /// add to the front of the output, and answers their number.
    pub fn push<L: Ledger>(
        &mut self,
        bytes: &[u8],
        out: &mut [u8],
        steps: &mut Steps<L>,
    ) -> Result<usize, Refusal>
        ensures ok { IfOk result (λ given. Pushed self.old self.new bytes.now (length out.old)
            (take given out.new)) }
        ensures within { IfOk result (λ given. given ≤ length out.old) }
        ensures rest { IfOk result (λ given. out.new ≡ take given out.new ++ drop given out.old) }
        ensures err { IfErr result (λ why. FailsToPush why self.old bytes.now (length out.old)) }
        ensures unchanged { IfErr result (λ _. (self.new ≡ self.old) × (out.new ≡ out.old)) }
    {
        let count = judge(&self.session, bytes, out.len())?;
        let samples = self.session.gathered(self.session.frames() + count);
        if samples > MAX_GATHERED as u64 {
            return Err(Refusal::Full { samples });
        }
        match feed_judged(&mut self.session, bytes, out, steps) {
            Ok(given) => Ok(given),
            Err(_) => unreachable!(),
        }
    }

    /// Writes the numbers that the blocks keep to the front, and answers how many they are.
    pub fn save(&self, numbers: &mut [i64]) -> Result<usize, Refusal>
        ensures ok { IfOk result (λ count. IsKeptOf self.now (take count numbers.new)) }
        ensures within { IfOk result (λ count. count ≤ length numbers.old) }
        ensures rest { IfOk result (λ count.
            numbers.new ≡ take count numbers.new ++ drop count numbers.old) }
        ensures err { IfErr result (λ why. FailsToSave why self.now (length numbers.old)) }
        ensures unwritten { IfErr result (λ _. numbers.new ≡ numbers.old) }
    {
        let wanted = self.session.kept_count();
        if wanted > numbers.len() {
            return Err(Refusal::KeptRoom {
                numbers: wanted as u128,
            });
        }
        Ok(save(&self.session, numbers))
    }
}

/// A signal that is held gives what its text gives from call to call, and leaves the same numbers.
pub fn held_is_text()
    ensures { HeldIsText }
{}
