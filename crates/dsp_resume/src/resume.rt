ghost use Rattle.std.specs.Prelude.{◌≡◌, ◌<◌, ◌≤◌, ◌^◌, ℕ, [], length, Some, IfOk, IfErr, IsTrue, IsFalse};
ghost use Rattle.std.specs.Prelude.{slice_get};
ghost use Rattle.dsp_chain.specs.Line.{measure_counts};
ghost use Rattle.dsp_defs.specs.KeptOfScript.{kept_count};
ghost use Rattle.dsp_defs.specs.Shape.{frames_given, gathered, is_legal};
ghost use Rattle.dsp_defs.specs.StateBytes.{state_head};
ghost use Rattle.dsp_defs.specs.declared.limits.TheConstants.{MAX_GATHERED};
ghost use Rattle.dsp_session.specs.Session.{IsReady, StandsFor, cost_of, measured};
ghost use Rattle.dsp_session.specs.Advancing.{Runs};
ghost use Rattle.dsp_session.specs.Resuming.{FirstDone, FirstStopped, RestDone, RestStopped};
ghost use Rattle.dsp_state.specs.SavedState.{IsNewFault};
ghost use Rattle.dsp_resume.specs.ResumeState.{IsNewResume, IsResumed, Saves, SavesNothing};

use dsp_defs::{MAX_GATHERED, Measure, Script, Steps};
use dsp_ports::{Sink, Source};
use dsp_session::{PartFault, Session, Totals, stream_first, stream_rest};
use dsp_state::{NewFault, Saved, append_numbers, begin_state};
use dsp_unit::{AnyUnit, Unit};
use std::alloc::{AllocError, Global};
use std::marker::Model;
use std::sync::ledger::Ledger;

/// A run of a script that is stopped after a frame, or that goes on from there.
#[derive(Drop)]
pub struct Resume<U: Unit + Drop> {
    session: Session<U>,
    frames: u32,
    /// It is to be stopped.
    stops: bool,
    numbers: Vec<i64>,
    state: Vec<u8>,
}

impl<U: Unit + Drop> Model for Resume<U> {
    ghost use Rattle.std.specs.Prelude.{vec_len, vec_capacity};
    ghost use Rattle.dsp_resume.specs.ResumeState.{ResumeState, HasRoom};

    ghost Value = { ResumeState };

    ghost view = { λ r. record {
      session = r.session;
      frames = r.frames;
      stops = r.stops;
      state =
          r.state.items;
    } };

    ghost invariant = { λ r. HasRoom
        (record { session = r.session; frames = r.frames; stops = r.stops; state = r.state.items })
        (vec_len r.numbers) (vec_capacity r.state) };
}

/// How many numbers the state of a session after so many frames has. Where a correlation would gather too
/// much the run is refused before it is stopped, and no number is kept.
fn count_numbers<U: AnyUnit + Drop>(session: &Session<U>, frames: u32) -> Result<usize, AllocError>
    ensures kept { gathered session.now.script.blocks frames ≤ MAX_GATHERED
        → IfOk result (λ count. count ≡ kept_count session.now.script frames) }
    ensures none { MAX_GATHERED < gathered session.now.script.blocks frames
        → IfOk result (λ count. count ≡ 0) }
{
    let frames = u64::from(frames);
    if session.gathered(frames) > MAX_GATHERED as u64 {
        return Ok(0);
    }
    match usize::try_from(session.kept_count_of(frames)) {
        Ok(count) => Ok(count),
        Err(_) => Err(AllocError),
    }
}

impl<U: AnyUnit + Drop> Resume<U> {
    /// A run of the script, in blocks of at most `block` frames, that is to be stopped after so many
    /// frames. All its memory is taken here, also that of its state.
    pub fn new(alloc: Global, script: Script, block: u64, frames: u32) -> Result<Self, NewFault>
        requires { IsReady script block }
        ensures ok { IfOk result (IsNewResume script block frames) }
        ensures err { IfErr result (λ fault. IsNewFault fault script) }
    {
        let session = Session::new(alloc, script, block)?;
        let count = count_numbers(&session, frames)?;
        let state = begin_state(alloc, session.script(), frames, count)?;
        let numbers = vec![in alloc; 0; count]?;
        Ok(Resume {
            session,
            frames,
            stops: true,
            numbers,
            state,
        })
    }

    /// A run that goes on from a state. All its memory is taken here.
    pub fn from_saved(alloc: Global, saved: Saved, block: u64) -> Result<Self, AllocError>
        requires { IsTrue (is_legal saved.script.input.channels saved.script.blocks block) }
        ensures { IfOk result (IsResumed saved block) }
    {
        let (script, frames, numbers) = saved.into_parts();
        let mut session = Session::new(alloc, script, block)?;
        session.restore(u64::from(frames), &numbers);
        Ok(Resume {
            session,
            frames,
            stops: false,
            numbers: Vec::new(alloc),
            state: Vec::new(alloc),
        })
    }

    /// The script.
    pub fn script(&self) -> &Script
        ensures { result.now ≡ self.now.session.script }
    {
        self.session.script()
    }

    /// Takes the header of the input and the first frames, and writes the header of the output and
    /// what the script gives of these frames. After it there is a state.
    pub fn stop<S: Source, K: Sink, L: Ledger>(
        &mut self,
        input: &mut S,
        output: &mut K,
        steps: &mut Steps<L>,
    ) -> Result<(), PartFault>
        requires stops { IsTrue self.old.stops }
        requires new { StandsFor self.old.session [] }
        requires head { self.old.state ≡ state_head self.old.session.script self.old.frames }
        ensures ok { IfOk result (λ _. FirstDone self.old.session.script self.old.frames
            self.new.session (S.state input.old) (S.state input.new) (K.state output.old)
            (K.state output.new) steps.old steps.new) }
        ensures saved { IfOk result (λ _. Saves self.old self.new) }
        ensures err { IfErr result (λ fault. FirstStopped self.old.session.banked
            self.old.session.script self.old.session.block self.old.frames fault
            (S.state input.old) (S.state input.new)
            (K.state output.old) (K.state output.new) steps.old steps.new) }
        ensures unsaved { IfErr result (λ _. SavesNothing self.old self.new) }
    {
        self.stops = false;
        stream_first(&mut self.session, self.frames, input, output, steps)?;
        let count = self.session.kept_count();
        let numbers = &mut self.numbers[..count];
        self.session.keep(numbers);
        append_numbers(&mut self.state, numbers);
        Ok(())
    }

    /// The state after a run that was stopped.
    pub fn state(&self) -> &[u8]
        ensures { result.now ≡ self.now.state }
    {
        &self.state
    }

    /// The same, which it gives away.
    pub fn into_state(self) -> Vec<u8>
        ensures { result.items ≡ self.state }
    {
        self.state
    }

    /// The session.
    pub fn session(&self) -> &Session<U>
        ensures { result.now ≡ self.now.session }
    {
        &self.session
    }

    /// Passes over the frames that the state has taken, works on those that follow, and writes what
    /// the script gives of them, to its end. It returns the totals of the whole input.
    pub fn go<S: Source, K: Sink, L: Ledger>(
        &mut self,
        input: &mut S,
        output: &mut K,
        steps: &mut Steps<L>,
    ) -> Result<Totals, PartFault>
        requires goes { IsFalse self.old.stops }
        requires runs { Runs self.old.session }
        requires frames { self.old.session.chain.frames ≡ self.old.frames }
        ensures ok { IfOk result (λ totals. RestDone self.old.session.script self.old.session
            self.old.frames totals.frames_taken (S.state input.old) (S.state input.new)
            (K.state output.old) (K.state output.new) steps.old steps.new
            (measured self.new.session)) }
        ensures given { IfOk result (λ totals.
            totals.frames_given ≡ frames_given self.old.session.script.blocks totals.frames_taken) }
        ensures multiplies { IfOk result (λ totals.
            totals.multiplies ≡ cost_of self.old.session.script totals.frames_taken) }
        ensures err { IfErr result (λ fault. RestStopped self.old.session.script
            self.old.session.block self.old.session self.old.frames fault (S.state input.old)
            (S.state input.new) (K.state output.old) (K.state output.new) steps.old steps.new) }
        ensures same { SavesNothing self.old self.new }
    {
        stream_rest(&mut self.session, self.frames, input, output, steps)
    }

    /// How many measures the script has: in the order of its blocks, then by channel.
    pub fn measures(&self) -> usize
        ensures count { result ≡ length (measured self.now.session) }
        ensures stays { result ≡ measure_counts self.now.session.script.input.channels
            self.now.session.script.blocks }
    {
        self.session.measures()
    }

    /// The measure at this index: of the whole signal at its place after a run that went on to its end.
    pub fn measure(&self, index: usize) -> Measure
        requires { index < length (measured self.now.session) }
        ensures { slice_get (measured self.now.session) index ≡ Some result }
    {
        self.session.measure(index)
    }
}
