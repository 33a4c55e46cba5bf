//! Ports in memory, and words.
ghost use Rattle.std.specs.Prelude.{◌<◌};

use dsp_cli::Words;
use dsp_ports::{MemSink, MemSource};
use std::alloc::Global;
use std::process::Abort;

/// A source over these bytes, `piece` of them a read at most. The reads of these numbers fail.
pub fn source_of(
    rt: &impl Abort,
    alloc: Global,
    bytes: &[u8],
    piece: usize,
    failing: &[u32],
) -> MemSource
    requires { 0 < piece }
{
    MemSource::new(alloc, bytes, piece, failing).expect(rt, "memory")
}

/// A sink with so much room, which takes `piece` bytes a write at most. The calls of these numbers
/// fail.
pub fn sink_of(
    rt: &impl Abort,
    alloc: Global,
    room: usize,
    piece: usize,
    failing: &[u32],
) -> MemSink
    requires { 0 < piece }
{
    MemSink::new(alloc, room, piece, failing).expect(rt, "memory")
}

/// The words of a call.
pub fn words_of(rt: &impl Abort, alloc: Global, texts: &[&str]) -> Words {
    let mut words = Words::new(alloc);
    for text in texts {
        words.push(text).expect(rt, "memory");
    }
    words
}
