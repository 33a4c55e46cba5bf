//! The fields of a state before its numbers.

ghost use Rattle.std.specs.Prelude.{◌≡◌, ◌≤◌, ◌*◌, Ok, Some, None, length, take, drop, IfOk, IfErr};
ghost use Rattle.dsp_defs.specs.Canon.{canon};
ghost use Rattle.dsp_defs.specs.Signal.{values};
ghost use Rattle.dsp_defs.specs.StateBytes.{CanRun, number_of};
ghost use Rattle.dsp_defs.specs.StateFields.{HasLength, HasText, text_size};
ghost use Rattle.dsp_defs.specs.declared.limits.TheConstants.{MAX_SCRIPT, MAX_STATE};
ghost use Rattle.dsp_defs.specs.declared.script.Script.{Script};
ghost use Rattle.dsp_state.specs.SavedState.{IsLoadFault};
ghost use Rattle.dsp_state.specs.declared.fault.LoadFault.TheVariants.{State};

use crate::fault::LoadFault;
use crate::laws::default_length_is_legal;
use byteorder::{ByteOrder, LittleEndian};
use dsp_defs::{MAX_SCRIPT, Script, StateKind};
use dsp_script::{
    ParseFault, canonical_text_is_read_back, default_block, legal, one_reading, parse, print,
};
use std::alloc::{AllocError, Global};

/// Where the version of a state is.
const VERSION_PLACE: usize = 8;

/// Where the length of its text is.
const LENGTH_PLACE: usize = 12;

/// Where its text is.
pub const TEXT_PLACE: usize = 16;

/// What is wrong with a state, and where.
pub fn state_fault(kind: StateKind, offset: usize) -> LoadFault
    ensures { result ≡ State kind offset }
{
    LoadFault::State {
        kind,
        offset: offset as u64,
    }
}

/// The length of the text, after the mark and the version.
pub fn read_length(bytes: &[u8]) -> Result<usize, LoadFault>
    requires { length bytes.now ≤ MAX_STATE }
    ensures fields { IfOk result (λ _. HasLength bytes.now) }
    ensures size { IfOk result (λ size. size ≡ text_size bytes.now) }
    ensures err { IfErr result (λ fault. IsLoadFault fault bytes.now) }
{
    if bytes.len() < VERSION_PLACE || &bytes[..VERSION_PLACE] != b"DSPSTATE".as_slice() {
        return Err(state_fault(StateKind::NotState, 0));
    }
    if bytes.len() < LENGTH_PLACE {
        return Err(state_fault(StateKind::Cut, bytes.len()));
    }
    let got = LittleEndian::read_u32(&bytes[VERSION_PLACE..]);
    if got != 1 {
        return Err(state_fault(StateKind::Version { got }, VERSION_PLACE));
    }
    if bytes.len() < TEXT_PLACE {
        return Err(state_fault(StateKind::Cut, bytes.len()));
    }
    let size = LittleEndian::read_u32(&bytes[LENGTH_PLACE..]) as usize;
    if size > MAX_SCRIPT {
        return Err(state_fault(StateKind::Text, TEXT_PLACE));
    }
    Ok(size)
}

/// The script of a canonical text, where it can run.
fn read_canonical(alloc: Global, text: &[u8]) -> Result<Option<Script>, AllocError>
    requires { length text.now ≤ MAX_SCRIPT }
    ensures some { (script : Script) → result ≡ Ok (Some script)
        → CanRun script × (canon script ≡ text.now) }
    ensures none { result ≡ Ok None → (script : Script) → CanRun script
        → canon script ≡ text.now → ⊥ }
{
    one_reading();
    canonical_text_is_read_back();
    default_length_is_legal();
    let script = match parse(alloc, text) {
        Ok(script) => script,
        Err(ParseFault::Script(_)) => return Ok(None),
        Err(ParseFault::Memory) => return Err(AllocError),
    };
    let canonical = print(alloc, &script)?;
    if canonical.as_slice() != text {
        return Ok(None);
    }
    if !legal(&script, default_block(&script)) {
        return Ok(None);
    }
    Ok(Some(script))
}

/// The script, of whose text the length is known.
pub fn read_script(alloc: Global, bytes: &[u8], size: usize) -> Result<Script, LoadFault>
    requires short { length bytes.now ≤ MAX_STATE }
    requires fields { HasLength bytes.now }
    requires size { size ≡ text_size bytes.now }
    ensures ok { IfOk result (HasText bytes.now) }
    ensures err { IfErr result (λ fault. IsLoadFault fault bytes.now) }
{
    if bytes.len() - TEXT_PLACE < size {
        return Err(state_fault(StateKind::Cut, bytes.len()));
    }
    match read_canonical(alloc, &bytes[TEXT_PLACE..TEXT_PLACE + size])? {
        Some(script) => Ok(script),
        None => Err(state_fault(StateKind::Text, TEXT_PLACE)),
    }
}

/// The first numbers of some bytes, 8 bytes each.
pub fn read_numbers(alloc: Global, bytes: &[u8], count: usize) -> Result<Vec<i64>, AllocError>
    requires { 8 * count ≤ length bytes.now }
    ensures { IfOk result (λ numbers.
        numbers.items ≡ values count (λ i. number_of (take 8 (drop (i * 8) bytes.now)))) }
{
    let mut numbers = vec![in alloc; 0; count]?;
    LittleEndian::read_i64_into(&bytes[..8 * count], numbers.as_mut_slice());
    Ok(numbers)
}
