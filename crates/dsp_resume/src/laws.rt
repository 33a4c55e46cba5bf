//! Laws of both parts of a run, each the contract of a function that does nothing.

ghost use Rattle.std.specs.Prelude.{◌≡◌, ◌≤◌, ℕ, List, ◌++◌, take, IfSome};
ghost use Rattle.dsp_defs.specs.Counts.{Counts};
ghost use Rattle.dsp_defs.specs.Output.{input_header, input_signal, output};
ghost use Rattle.dsp_defs.specs.declared.measure.Measure.{Measure};
ghost use Rattle.dsp_defs.specs.declared.script.Script.{Script};
ghost use Rattle.dsp_ports.specs.Ports.{SourceState, SinkState};
ghost use Rattle.dsp_session.specs.Resuming.{FirstDone, RestDone, first_output};
ghost use Rattle.dsp_session.specs.Session.{StandsFor};
ghost use Rattle.dsp_session.specs.SessionState.{SessionState};

/// Where a run goes on from the first frames of its own input, what it writes is what follows the first
/// output in the output of the script.
pub fn parts_make_the_whole()
    ensures { (script : Script) (start : SessionState) (from frames : ℕ) (input now : SourceState)
        (sink after : SinkState) (before counts : Counts) (found : List Measure)
        (done : RestDone script start from frames input now sink after before counts found)
        → StandsFor start (take from (input_signal script done.given))
        → first_output script from done.given ++ done.written ≡ output script done.given }
{}

/// Where the input tells its bytes, what a run that was stopped has written is the first output of all of them,
/// and the frames for which its session stands are the first ones of all.
pub fn first_part_is_told()
    ensures { (script : Script) (frames : ℕ) (session : SessionState) (input now : SourceState)
        (sink after : SinkState) (before counts : Counts)
        (done : FirstDone script frames session input now sink after before counts)
        → 1 ≤ script.input.channels → IfSome input.left (λ bytes.
        (first_output script frames bytes ≡ first_output script frames done.given)
        × (take frames (input_signal script bytes) ≡ input_signal script done.given)) }
{}

/// Where the input tells its bytes, a run that went on to its end has worked on the signal of all of them, by the
/// header of all.
pub fn rest_is_told()
    ensures { (script : Script) (start : SessionState) (from frames : ℕ) (input now : SourceState)
        (sink after : SinkState) (before counts : Counts) (found : List Measure)
        (done : RestDone script start from frames input now sink after before counts found)
        → 1 ≤ script.input.channels → IfSome input.left (λ bytes.
        (input_signal script bytes ≡ input_signal script done.given)
        × (input_header script bytes ≡ input_header script done.given)) }
{}
