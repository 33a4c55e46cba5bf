//! What C calls on a handle.

ghost use Rattle.std.specs.Prelude.{◌≡◌, ◌≢◌, ◌≤◌, ◌⊎◌, ◌++◌, length, take, drop, Some, None};
ghost use Rattle.dsp_host.specs.declared.refusal.Refusal.{Refusal};
ghost use Rattle.dsp_host.specs.Pieces.{FailsToReopen, IsReopened};
ghost use Rattle.dsp_host.specs.Ongoing.{FailsToPush, FailsToSave, IsKeptOf, Pushed};
ghost use Rattle.dsp_c.specs.Answer.{answer_of, status_of};
ghost use Rattle.dsp_c.specs.Holding.{Holds, IsEmpty};
ghost use Rattle.dsp_c.specs.declared.held.Held.{Held};

use crate::answer::{Answer, EMPTY, MEMORY, OK, answer_of, status_of};
use crate::held::{Handle, Held, counted_push, put_held, take_held};
use dsp_blocks::BlockUnit;
use dsp_host::{Ongoing, Refusal};
use std::alloc::Global;
use std::marker::Brand;
use std::sync::ledger::Blank;

/// Has a handle hold the signal of a script that goes on behind so many frames, which left these numbers. What
/// it held before is freed.
#[unsafe(no_mangle)]
pub extern "C" fn tozbirem_hold(
    alloc: Global,
    script: &[u8],
    block: u64,
    frames: u64,
    kept: &[i64],
    handle: &mut Handle,
    answer: &mut Answer,
) -> u32
    // The handle holds a session of the text that stands for each signal of so many frames that left these
    // numbers.
    ensures ok { result ≡ 0 → Holds handle.new (IsReopened script.now block frames kept.now) }
    ensures told { result ≡ 0 → answer.new ≡ Answer.NOTHING }

    // Each other status has its cause, with its numbers, and the handle is as it was.
    ensures err { result ≢ 0 → (why : Refusal) × (result ≡ status_of why)
        × (answer.new ≡ answer_of why) × FailsToReopen why script.now block frames kept.now }
    ensures unchanged { result ≢ 0 → handle.new ≡ handle.old }
{
    let ongoing = match Ongoing::<BlockUnit>::new(alloc, script, block, frames, kept) {
        Ok(ongoing) => ongoing,
        Err(why) => {
            *answer = answer_of(why);
            return status_of(why);
        }
    };
    let Ok(held) = Box::new(alloc, Held { ongoing }) else {
        *answer = Answer::NOTHING;
        return MEMORY;
    };
    let _was = take_held(alloc, handle);
    put_held(handle, held);
    *answer = Answer::NOTHING;
    OK
}

/// Takes the next frames of the signal that a handle holds, and writes what they add to the output.
#[unsafe(no_mangle)]
pub extern "C" fn tozbirem_push(
    alloc: Global,
    handle: &mut Handle,
    input: &[u8],
    output: &mut [u8],
    answer: &mut Answer,
) -> u32
    // For each signal that was held so far: the bytes given are what the frames of the input add to its
    // output, and the signal with them is held.
    ensures ok { result ≡ 0 → (old : Held) × (new : Held) × (handle.old.hidden.held ≡ Some old)
        × (handle.new.hidden.held ≡ Some new) × Pushed old.ongoing new.ongoing input.now
        (length output.old) (take answer.new.given output.new) }
    ensures within { result ≡ 0 → answer.new.given ≤ length output.old }
    ensures rest { result ≡ 0
        → output.new ≡ take answer.new.given output.new ++ drop answer.new.given output.old }

    // Each other status has its cause, with its numbers, and nothing has changed.
    ensures err { result ≢ 0 → IsEmpty handle.old result answer.new ⊎ ((why : Refusal)
        × (result ≡ status_of why) × (answer.new ≡ answer_of why)
        × Holds handle.old (λ s. FailsToPush why s input.now (length output.old))) }
    ensures unchanged { result ≢ 0 → (handle.new.hidden.held ≡ handle.old.hidden.held)
        × (output.new ≡ output.old) }
{
    let Some(mut held) = take_held(alloc, handle) else {
        *answer = Answer::NOTHING;
        return EMPTY;
    };
    let done = counted_push::<Brand>(&mut held, input, output, Blank::new(2));
    put_held(handle, held);
    match done {
        Ok(given) => {
            *answer = Answer {
                given: given as u64,
                ..Answer::NOTHING
            };
            OK
        }
        Err(why) => {
            *answer = answer_of(why);
            status_of(why)
        }
    }
}

/// Writes the numbers that the signal of a handle leaves.
#[unsafe(no_mangle)]
pub extern "C" fn tozbirem_keep(
    alloc: Global,
    handle: &mut Handle,
    kept_out: &mut [i64],
    answer: &mut Answer,
) -> u32
    // These numbers are those that the blocks keep of each signal that is held.
    ensures ok { result ≡ 0 → Holds handle.old (λ s. IsKeptOf s (take answer.new.kept kept_out.new)) }
    ensures within { result ≡ 0 → answer.new.kept ≤ length kept_out.old }
    ensures rest { result ≡ 0
        → kept_out.new ≡ take answer.new.kept kept_out.new ++ drop answer.new.kept kept_out.old }

    // Each other status has its cause, with its numbers, and nothing was written.
    ensures err { result ≢ 0 → IsEmpty handle.old result answer.new ⊎ ((why : Refusal)
        × (result ≡ status_of why) × (answer.new ≡ answer_of why)
        × Holds handle.old (λ s. FailsToSave why s (length kept_out.old))) }
    ensures unwritten { result ≢ 0 → kept_out.new ≡ kept_out.old }

    // The signal is still held.
    ensures stays { handle.new.hidden.held ≡ handle.old.hidden.held }
{
    let Some(held) = take_held(alloc, handle) else {
        *answer = Answer::NOTHING;
        return EMPTY;
    };
    let done = held.ongoing.save(kept_out);
    put_held(handle, held);
    match done {
        Ok(kept) => {
            *answer = Answer {
                kept: kept as u64,
                ..Answer::NOTHING
            };
            OK
        }
        Err(why) => {
            *answer = answer_of(why);
            status_of(why)
        }
    }
}

/// Frees what a handle holds.
#[unsafe(no_mangle)]
pub extern "C" fn tozbirem_let_go(alloc: Global, handle: &mut Handle) -> u32
    ensures status { result ≡ 0 }
    ensures empty { handle.new.hidden.held ≡ None }
{
    let _was = take_held(alloc, handle);
    OK
}
