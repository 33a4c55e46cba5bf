//! The state of a run, made of its script, its frames and its kept numbers.

ghost use Rattle.std.specs.Prelude.{◌≡◌, ◌+◌, ◌*◌, ◌≤◌, ◌++◌, length, flat_map, vec_len, vec_capacity, IfOk};
ghost use Rattle.std.specs.Prelude.{IfErr, IfSome};
ghost use Rattle.dsp_defs.specs.Canon.{canon};
ghost use Rattle.dsp_defs.specs.StateBytes.{number_bytes, state_head};
ghost use Rattle.dsp_defs.specs.declared.limits.TheConstants.{MAX_SCRIPT};
ghost use Rattle.dsp_state.specs.SavedState.{IsNewFault};

use crate::fault::NewFault;
use crate::fields::TEXT_PLACE;
use byteorder::{ByteOrder, LittleEndian};
use dsp_defs::{MAX_SCRIPT, Script};
use dsp_script::print;
use std::alloc::{AllocError, Global};

/// The bytes of a state with a text and numbers, where they can be counted.
fn size_of_state(text: usize, numbers: usize) -> Option<usize>
    requires { text ≤ MAX_SCRIPT }
    ensures { IfSome result (λ size. size ≡ text + 20 + 8 * numbers) }
{
    numbers.checked_mul(8)?.checked_add(text + TEXT_PLACE + 4)
}

/// The state of a run of the script up to its numbers, with room for that many.
pub fn begin_state(
    alloc: Global,
    script: &Script,
    frames: u32,
    numbers: usize,
) -> Result<Vec<u8>, NewFault>
    ensures head { IfOk result (λ state. state.items ≡ state_head script.now frames) }
    ensures room { IfOk result (λ state. vec_len state + 8 * numbers ≤ vec_capacity state) }
    ensures short { IfOk result (λ _. length (canon script.now) ≤ MAX_SCRIPT) }
    ensures err { IfErr result (λ fault. IsNewFault fault script.now) }
{
    let text = print(alloc, script)?;
    if text.len() > MAX_SCRIPT {
        return Err(NewFault::LongText {
            size: text.len() as u64,
        });
    }
    let size = size_of_state(text.len(), numbers).ok_or(AllocError)?;
    let mut state = Vec::with_capacity(alloc, size)?;
    state.extend_from_slice(b"DSPSTATE")?;
    state.extend_from_slice(&1u32.to_le_bytes())?;
    state.extend_from_slice(&(text.len() as u32).to_le_bytes())?;
    state.extend_from_slice(&text)?;
    state.extend_from_slice(&frames.to_le_bytes())?;
    Ok(state)
}

/// Adds the bytes of the numbers to a state that has room for them.
pub fn append_numbers(state: &mut Vec<u8>, numbers: &[i64])
    requires { vec_len state.old + 8 * length numbers.now ≤ vec_capacity state.old }
    ensures { state.new.items ≡ state.old.items ++ flat_map number_bytes numbers.now }
{
    let end = state.len();
    state.resize(end + 8 * numbers.len(), 0).unwrap();
    LittleEndian::write_i64_into(numbers, &mut state[end..]);
}
