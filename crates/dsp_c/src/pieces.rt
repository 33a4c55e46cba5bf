ghost use Rattle.std.specs.Prelude.{◌≡◌, ◌≤◌, ◌++◌, length, take, drop, IfOk, IfErr};
ghost use Rattle.dsp_host.specs.Pieces.{FailsToGoOn, GoesOn};
ghost use Rattle.dsp_c.specs.Pieces.{EndsWith, FailsToEnd};

use crate::measures::{MeasureRow, write_measures};
use dsp_defs::Steps;
use dsp_host::{Piece, Refusal, feed_piece, finish, reopen};
use dsp_unit::AnyUnit;
use std::alloc::Global;
use std::sync::ledger::{Blank, Ledger};

/// A piece of a signal, with a counter of its own.
pub fn counted_piece<U: AnyUnit + Drop, L: Ledger>(
    alloc: Global,
    script: &[u8],
    block: u64,
    frames: u64,
    kept: &[i64],
    input: &[u8],
    output: &mut [u8],
    kept_out: &mut [i64],
    blank: Blank,
) -> Result<Piece, Refusal>
    requires name { blank.name ≡ L.name }
    requires parts { blank.parts ≡ 2 }
    requires ledger_parts { L.parts ≡ 2 }
    ensures ok { IfOk result (λ piece. GoesOn script.now block frames kept.now input.now
        (length output.old) (length kept_out.old) (take piece.given output.new)
        (take piece.kept kept_out.new)) }
    ensures within { IfOk result (λ piece. (piece.given ≤ length output.old)
        × (piece.kept ≤ length kept_out.old)) }
    ensures rest { IfOk result (λ piece.
        (output.new ≡ take piece.given output.new ++ drop piece.given output.old)
        × (kept_out.new ≡ take piece.kept kept_out.new ++ drop piece.kept kept_out.old)) }
    ensures err { IfErr result (λ why. FailsToGoOn why script.now block frames kept.now input.now
        (length output.old) (length kept_out.old)) }
    ensures unwritten { IfErr result (λ _. (output.new ≡ output.old)
        × (kept_out.new ≡ kept_out.old)) }
{
    let mut steps: Steps<L> = Steps::new(blank);
    feed_piece::<U, _>(
        alloc, script, block, frames, kept, input, output, kept_out, &mut steps,
    )
}

/// The tail of a signal and its measures, with a counter of its own.
pub fn counted_tail<U: AnyUnit + Drop, L: Ledger>(
    alloc: Global,
    script: &[u8],
    block: u64,
    frames: u64,
    kept: &[i64],
    output: &mut [u8],
    measures: &mut [MeasureRow],
    blank: Blank,
) -> Result<Piece, Refusal>
    requires name { blank.name ≡ L.name }
    requires parts { blank.parts ≡ 2 }
    requires ledger_parts { L.parts ≡ 2 }
    ensures ok { IfOk result (λ piece. EndsWith script.now block frames kept.now (length output.old)
        (length measures.old) (take piece.given output.new) (take piece.kept measures.new)) }
    ensures within { IfOk result (λ piece. (piece.given ≤ length output.old)
        × (piece.kept ≤ length measures.old)) }
    ensures rest { IfOk result (λ piece.
        (output.new ≡ take piece.given output.new ++ drop piece.given output.old)
        × (measures.new ≡ take piece.kept measures.new ++ drop piece.kept measures.old)) }
    ensures err { IfErr result (λ why. FailsToEnd why script.now block frames kept.now
        (length output.old)) }
    ensures unwritten { IfErr result (λ _. (output.new ≡ output.old)
        × (measures.new ≡ measures.old)) }
{
    let mut steps: Steps<L> = Steps::new(blank);
    let mut session = reopen::<U>(alloc, script, block, frames, kept)?;
    let given = finish(&mut session, output, &mut steps)?;
    let kept = write_measures(&session, measures);
    Ok(Piece { given, kept })
}
