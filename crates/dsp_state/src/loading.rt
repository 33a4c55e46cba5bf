ghost use Rattle.std.specs.Prelude.{◌≡◌, ◌≤◌, length, IfOk, IfErr};
ghost use Rattle.dsp_defs.specs.StateBytes.{IsState};
ghost use Rattle.dsp_defs.specs.StateFields.{HasNumbers, HasText, count_in, frames_in_state, numbers_in};
ghost use Rattle.dsp_defs.specs.StateFields.{numbers_place, state_end};
ghost use Rattle.dsp_defs.specs.declared.limits.TheConstants.{MAX_STATE};
ghost use Rattle.dsp_state.specs.SavedState.{IsLoadFault};

use crate::fault::LoadFault;
use crate::fields::{TEXT_PLACE, read_length, read_numbers, read_script, state_fault};
use crate::laws::default_length_is_legal;
use crate::saved::Saved;
use byteorder::{ByteOrder, LittleEndian};
use dsp_chain::Chain;
use dsp_defs::{MAX_GATHERED, MAX_STATE, Script, StateKind};
use dsp_script::default_block;
use dsp_unit::AnyUnit;
use std::alloc::Global;

/// The numbers after the frames, which the blocks of the script can keep and which end the state.
fn read_kept<U: AnyUnit + Drop>(
    alloc: Global,
    script: &Script,
    bytes: &[u8],
    at: usize,
    frames: u32,
) -> Result<Vec<i64>, LoadFault>
    requires short { length bytes.now ≤ MAX_STATE }
    requires text { HasText bytes.now script.now }
    requires at { at ≡ numbers_place bytes.now }
    requires long { numbers_place bytes.now ≤ length bytes.now }
    requires frames { frames ≡ frames_in_state bytes.now }
    ensures fields { IfOk result (λ _. HasNumbers bytes.now script.now) }
    ensures ends { IfOk result (λ _. length bytes.now ≡ state_end bytes.now script.now) }
    ensures numbers { IfOk result (λ numbers.
        numbers.items ≡ numbers_in bytes.now (count_in bytes.now script.now)) }
    ensures err { IfErr result (λ fault. IsLoadFault fault bytes.now) }
{
    default_length_is_legal();
    let chain = Chain::<U>::new(alloc, script, default_block(script))?;
    if chain.gathered(u64::from(frames)) > MAX_GATHERED as u64 {
        return Err(state_fault(StateKind::Value, at - 4));
    }
    let count = chain.kept_count_of(u64::from(frames));
    let rest = bytes.len() - at;
    if count > (rest / 8) as u128 {
        return Err(state_fault(StateKind::Cut, bytes.len()));
    }
    let count = count as usize;
    let numbers = read_numbers(alloc, &bytes[at..], count)?;
    if !chain.fits(u64::from(frames), &numbers) {
        return Err(state_fault(StateKind::Value, at));
    }
    if 8 * count < rest {
        return Err(state_fault(StateKind::Extra, at + 8 * count));
    }
    Ok(numbers)
}

/// Reads a saved state. The units of its script say which numbers they can keep.
pub fn load<U: AnyUnit + Drop>(alloc: Global, bytes: &[u8]) -> Result<Saved, LoadFault>
    ensures ok { IfOk result (λ saved. IsState bytes.now saved.script saved.frames saved.numbers) }
    ensures err { IfErr result (λ fault. IsLoadFault fault bytes.now) }
{
    if bytes.len() > MAX_STATE {
        return Err(state_fault(StateKind::TooLong, MAX_STATE));
    }
    let size = read_length(bytes)?;
    let script = read_script(alloc, bytes, size)?;
    let at = TEXT_PLACE + size + 4;
    if bytes.len() < at {
        return Err(state_fault(StateKind::Cut, bytes.len()));
    }
    let frames = LittleEndian::read_u32(&bytes[at - 4..]);
    let numbers = read_kept::<U>(alloc, &script, bytes, at, frames)?;
    Ok(Saved {
        script,
        frames,
        numbers,
    })
}
