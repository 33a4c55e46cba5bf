//! Samples as bytes: those of an input as a signal, and a signal as the bytes of an output.
ghost use Rattle.std.specs.Prelude.{◌≡◌, ◌++◌, ◌≤◌, length, IfOk};
ghost use Rattle.dsp_defs.specs.Block.{frames_of};
ghost use Rattle.dsp_defs.specs.Bytes.{coded, coding_of, format_in, samples};
ghost use Rattle.dsp_check.specs.Channels.{InFormat};

use crate::signal::Signal;
use dsp_defs::{Coding, Container, Fmt};
use dsp_wave::{coding_of, decode, encode, width};
use std::alloc::{AllocError, Global};

/// The signal of all whole frames of the bytes.
pub fn signal_of(
    alloc: Global,
    coding: Coding,
    channels: u8,
    bytes: &[u8],
) -> Result<Signal, AllocError>
    requires some { 1 ≤ channels }
    requires few { channels ≤ 16 }
    ensures values { IfOk result (λ y. frames_of y ≡ samples coding channels bytes.now) }
    ensures channels { IfOk result (λ y. length y ≡ channels) }
    ensures format { IfOk result (InFormat (format_in coding)) }
{
    let mut signal = Signal::new(alloc, channels)?;
    let mut room = vec![in alloc; 0; usize::from(channels)]?;
    let frame = room.as_mut_slice();
    let size = usize::from(channels) * width(coding);
    for n in 0..bytes.len() / size {
        let from = n * size;
        decode(coding, &bytes[from..from + size], frame);
        signal.put(frame)?;
    }
    Ok(signal)
}

/// Adds the bytes of a signal of this format behind those that are there, frame by frame, as they
/// stand in a container. Where memory is wanting, a front of them may be there.
pub fn add_coded(
    alloc: Global,
    container: Container,
    format: Fmt,
    signal: &Signal,
    out: &mut Vec<u8>,
) -> Result<(), AllocError>
    requires { InFormat format signal.now }
    ensures { IfOk result (λ _. out.new.items
        ≡ out.old.items ++ coded (coding_of container format) (frames_of signal.now)) }
{
    let coding = coding_of(container, format);
    let mut frame_room = vec![in alloc; 0; signal.channels()]?;
    let frame = frame_room.as_mut_slice();
    let mut bytes_room = vec![in alloc; 0; signal.channels() * width(coding)]?;
    let bytes = bytes_room.as_mut_slice();
    for n in 0..signal.frames() {
        signal.write_frame(n, frame);
        encode(coding, frame, bytes);
        out.extend_from_slice(bytes)?;
    }
    Ok(())
}
