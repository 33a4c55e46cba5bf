//! Laws over the end of a call, each the contract of a function that does nothing. Their premise is the clause `ended`
//! of `dsp_cli::run`.

ghost use Rattle.std.specs.Prelude.{◌⊎◌, ℕ};
ghost use Rattle.dsp_ports.specs.Ports.{SinkState};
ghost use Rattle.dsp_cli.specs.Call.{Call, Ended};
ghost use Rattle.dsp_cli.specs.Run.{IsDone, IsStream};
ghost use Rattle.dsp_laws.specs.Origins.{Origins};
ghost use Rattle.dsp_laws.specs.Reports.{Reports};
ghost use Rattle.dsp_laws.specs.Stands.{IsStopped, Stands};

/// Once a run or a gen has begun its stream, and however it ended: which bytes were taken, that exactly the output of
/// them was written, or a front of it where the output has failed, that at most one block was taken beyond what was
/// written, which length was past its limit, what the multiplies and the turns come to, and what a run that is done
/// says of itself.
pub fn what_stands()
    ensures { (c : Call) (status : ℕ) (report told : SinkState) → Ended c status report told
        → IsStream c.words → IsDone status ⊎ IsStopped status → Stands c status report told }
{}

/// With status 0 no port has failed and the report is settled; a print has reported the canonical text, and a check how
/// many bytes the file has that is the output; and each fault has its line.
pub fn what_is_reported()
    ensures { (c : Call) (status : ℕ) (report told : SinkState) → Ended c status report told
        → Reports c status report told }
{}

/// Where the status is 1, the words are no command, and only there; where it is 2, the script has a fault; with 3, the
/// chosen block length isn't legal; with 4, the header of the input or its end is at fault; with 6 to 9 and 14, a port
/// has failed, once; with 11, the file of a check is not the output, and the line says the first place where it
/// differs; and with 13, the state to go on from is at fault. Where as many bytes were taken as may be, the status is 5,
/// but for a few ends just there.
pub fn where_statuses_come_from()
    ensures { (c : Call) (status : ℕ) (report told : SinkState) → Ended c status report told
        → Origins c status report told }
{}
