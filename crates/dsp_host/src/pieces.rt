ghost use Rattle.std.specs.Prelude.{◌≡◌, ◌+◌, ◌*◌, ◌^◌, ◌<◌, ◌≤◌, ◌↔◌, ◌++◌, ℕ, List, [], length, take, drop};
ghost use Rattle.std.specs.Prelude.{IfOk, IfErr, IfSome, IfNone, IsFalse, IsTrue};
ghost use Rattle.dsp_defs.specs.Block.{Frame};
ghost use Rattle.dsp_defs.specs.declared.fault.GatherFull.{GatherFull};
ghost use Rattle.dsp_defs.specs.KeptOfScript.{kept, kept_count};
ghost use Rattle.dsp_input.specs.Taking.{frame_bytes};
ghost use Rattle.dsp_session.specs.Advancing.{Runs};
ghost use Rattle.dsp_session.specs.Session.{StandsFor, Feeds, Fails, SameSession, signal};
ghost use Rattle.dsp_host.specs.Pieces.{Accepts, AreWhole, FailsToGoOn, FailsToReopen, Fed, GoesOn, IsFirst};
ghost use Rattle.dsp_host.specs.Pieces.{IsFull, IsReopened, NotFed, Refuses, frames_of};

use crate::opening::open;
use crate::refusal::Refusal;
use dsp_defs::{GatherFull, MAX_INPUT, Steps};
use dsp_ports::Piece as _;
use dsp_session::Session;
use dsp_unit::AnyUnit;
use std::alloc::Global;
use std::sync::ledger::Ledger;

/// Nothing came before, and nothing was kept.
fn is_first(frames: u64, numbers: &[i64]) -> bool
    ensures { IsTrue result ↔ IsFirst frames numbers.now }
{
    frames == 0 && numbers.is_empty()
}

/// A session of a text that goes on behind so many frames, which left these numbers; 0 frames may leave
/// none.
pub fn reopen<U: AnyUnit + Drop>(
    alloc: Global,
    text: &[u8],
    block: u64,
    frames: u64,
    numbers: &[i64],
) -> Result<Session<U>, Refusal>
    ensures ok { IfOk result (IsReopened text.now block frames numbers.now) }
    ensures err { IfErr result (λ why. FailsToReopen why text.now block frames numbers.now) }
{
    let mut session = match open::<U>(alloc, text, block) {
        Ok(session) => session,
        Err(fault) => return Err(Refusal::Open(fault)),
    };
    if is_first(frames, numbers) {
        return Ok(session);
    }
    if !session.fits(frames, numbers) {
        return Err(Refusal::State);
    }
    session.restore(frames, numbers);
    Ok(session)
}

/// How many frames of so many bytes these are, where they are whole.
fn whole_frames(bytes: &[u8], frame: usize) -> Option<usize>
    requires { 0 < frame }
    ensures some { IfSome result (λ n. length bytes.now ≡ n * frame) }
    ensures none { IfNone result ((n : ℕ) → length bytes.now ≡ n * frame → ⊥) }
{
    let count = bytes.len() / frame;
    if count * frame == bytes.len() {
        Some(count)
    } else {
        None
    }
}

/// Behind so many frames, at most 2^40, so many more may come.
fn may_come(frames: u64, more: u64) -> bool
    requires { frames ≤ MAX_INPUT }
    ensures few { IsTrue result → frames + more ≤ MAX_INPUT }
    ensures many { IsFalse result → MAX_INPUT < frames + more }
{
    more <= MAX_INPUT - frames
}

/// They are at most this many.
fn is_within(count: u64, most: u64) -> bool
    ensures within { IsTrue result → count ≤ most }
    ensures over { IsFalse result → most < count }
{
    count <= most
}

/// How many frames the bytes of a call are, where the session may be fed with them, and the output has room
/// for what they give.
pub fn judge<U: AnyUnit + Drop>(
    session: &Session<U>,
    bytes: &[u8],
    room: usize,
) -> Result<u64, Refusal>
    requires runs { Runs session.now }
    requires few { session.now.chain.frames ≤ MAX_INPUT }
    ensures ok { IfOk result (λ _. Accepts session.now.script session.now.coding session.now.block
        session.now.chain.frames bytes.now room) }
    ensures count { IfOk result (λ count. count ≡ frames_of session.now.script session.now.coding
        bytes.now) }
    ensures err { IfErr result (λ why. Refuses why session.now.script session.now.coding
        session.now.block session.now.chain.frames bytes.now room) }
    ensures not_full { IfErr result (λ why. (told more : ℕ) → why ≡ Refusal.Gather told more → ⊥) }
{
    let wanted = session.room();
    if !is_within(wanted as u64, room as u64) {
        return Err(Refusal::Room {
            bytes: wanted as u128,
        });
    }
    let frame = session.frame_bytes();
    let Some(count) = whole_frames(bytes, frame) else {
        return Err(Refusal::Frames {
            frame: frame as u64,
        });
    };
    let count = count as u64;
    let block = session.block() as u64;
    if !is_within(count, block) {
        return Err(Refusal::Length { block });
    }
    if !may_come(session.frames(), count) {
        return Err(Refusal::Input { limit: MAX_INPUT });
    }
    Ok(count)
}

/// Feeds a session with bytes that were judged, and writes what they give to the front of the output.
pub(crate) fn feed_judged<U: AnyUnit + Drop, L: Ledger>(
    session: &mut Session<U>,
    bytes: &[u8],
    out: &mut [u8],
    steps: &mut Steps<L>,
) -> Result<usize, Refusal>
    requires runs { Runs session.old }
    requires accepts { Accepts session.old.script session.old.coding session.old.block
        session.old.chain.frames bytes.now (length out.old) }
    ensures ok { IfOk result (λ given. Fed session.old session.new given bytes.now out.old out.new
        steps.old steps.new) }
    ensures err { IfErr result (λ why. NotFed why session.old session.new bytes.now out.old out.new
        steps.old steps.new) }
{
    match session.feed(bytes, steps) {
        Ok(given) => {
            session.out().write_to(&mut out[..given]);
            Ok(given)
        }
        Err(GatherFull { held, more }) => Err(Refusal::Gather { held, more }),
    }
}

/// Takes the whole frames of some bytes, at most a block, writes the bytes of the live values that they add
/// to the front of the output, and answers their number.
pub fn feed<U: AnyUnit + Drop, L: Ledger>(
    session: &mut Session<U>,
    bytes: &[u8],
    out: &mut [u8],
    steps: &mut Steps<L>,
) -> Result<usize, Refusal>
    requires runs { Runs session.old }
    requires few { session.old.chain.frames ≤ MAX_INPUT }
    ensures ok { IfOk result (λ given. Fed session.old session.new given bytes.now out.old out.new
        steps.old steps.new) }
    ensures err { IfErr result (λ why. NotFed why session.old session.new bytes.now out.old out.new
        steps.old steps.new) }
{
    judge(session, bytes, out.len())?;
    feed_judged(session, bytes, out, steps)
}

/// Writes the numbers that a session keeps to the front, and answers how many they are.
pub fn save<U: AnyUnit + Drop>(session: &Session<U>, numbers: &mut [i64]) -> usize
    requires runs { Runs session.now }
    requires room { kept_count session.now.script session.now.chain.frames ≤ length numbers.old }
    ensures count { result ≡ kept_count session.now.script session.now.chain.frames }
    ensures stands { (x : List Frame) → StandsFor session.now x
        → take result numbers.new ≡ kept session.now.script x }
    ensures rest { numbers.new ≡ take result numbers.new ++ drop result numbers.old }
{
    let count = session.kept_count();
    session.keep(&mut numbers[..count]);
    count
}

/// How many bytes a piece gave, and how many numbers it left.
#[derive(Clone, Copy, Debug, PartialEq, Eq)]
pub struct Piece {
    pub given: usize,
    pub kept: usize,
}

/// Feeds the next frames of a signal, of which so many came before and left these numbers: writes what
/// they add to the output, and the numbers that they leave.
pub fn feed_piece<U: AnyUnit + Drop, L: Ledger>(
    alloc: Global,
    text: &[u8],
    block: u64,
    frames: u64,
    numbers: &[i64],
    bytes: &[u8],
    out: &mut [u8],
    kept_out: &mut [i64],
    steps: &mut Steps<L>,
) -> Result<Piece, Refusal>
    ensures ok { IfOk result (λ piece. GoesOn text.now block frames numbers.now bytes.now
        (length out.old) (length kept_out.old) (take piece.given out.new)
        (take piece.kept kept_out.new)) }
    ensures within { IfOk result (λ piece. (piece.given ≤ length out.old)
        × (piece.kept ≤ length kept_out.old)) }
    ensures rest { IfOk result (λ piece.
        (out.new ≡ take piece.given out.new ++ drop piece.given out.old)
        × (kept_out.new ≡ take piece.kept kept_out.new ++ drop piece.kept kept_out.old)) }
    ensures err { IfErr result (λ why. FailsToGoOn why text.now block frames numbers.now bytes.now
        (length out.old) (length kept_out.old)) }
    ensures unwritten { IfErr result (λ _. (out.new ≡ out.old) × (kept_out.new ≡ kept_out.old)) }
{
    let mut session = reopen::<U>(alloc, text, block, frames, numbers)?;
    let count = judge(&session, bytes, out.len())?;
    let wanted = session.kept_count_of(frames + count);
    if wanted > kept_out.len() as u128 {
        return Err(Refusal::KeptRoom { numbers: wanted });
    }
    let given = feed_judged(&mut session, bytes, out, steps)?;
    let kept = save(&session, kept_out);
    Ok(Piece { given, kept })
}
