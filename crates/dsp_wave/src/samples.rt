//! The samples of a file, block by block, whatever its header was.

ghost use Rattle.std.specs.Prelude.{◌≡◌, ◌+◌, ◌≤◌, ◌↔◌, length, IfOk, IfErr, IsTrue};
ghost use Rattle.dsp_wave.specs.Samples.{HasBlock, InDeclared, IsUnread, PartRead, PartUnread, declared_bytes};
ghost use Rattle.dsp_wave.specs.Samples.{in_whole_frames};

use dsp_defs::MAX_INPUT;
use dsp_ports::{FillFault, Source, fill};

/// Where the samples of a file stand: behind `start` bytes, in frames of so many bytes, and of how many
/// bytes the header says that they are; no size means that they go to the end of the file.
#[derive(Clone, Copy)]
pub struct Stored {
    pub start: u64,
    pub size: Option<u32>,
    pub frame: u64,
}

/// Why a block of samples is not read.
#[derive(Clone, Copy, Debug, PartialEq, Eq)]
pub enum SampleFault {
    /// The file ends before the declared whole frames: their bytes, those that it has of them, and the
    /// file's length.
    Short {
        declared: u32,
        got: u64,
        offset: u64,
    },
    /// The source failed.
    Failed,
    /// 2^40 bytes of the file were taken, and another is needed.
    LimitReached,
}

/// The bytes of the whole frames among so many bytes.
fn in_whole_frames(frame: u64, size: u32) -> u64
    requires { 1 ≤ frame }
    ensures value { result ≡ in_whole_frames frame size }
    ensures few { result ≤ size }
{
    u64::from(size) / frame * frame
}

/// Whether the samples, and the part of them that ends behind `end` bytes, have so many bytes behind the first `taken`
/// ones, and these may be taken.
pub fn has_block(stored: Stored, end: u64, taken: u64, size: usize) -> bool
    requires limit { stored.start + taken ≤ MAX_INPUT }
    requires frame { 1 ≤ stored.frame }
    requires part { taken ≤ end }
    ensures { IsTrue result ↔ HasBlock stored end taken size }
{
    let size = size as u64;
    if size > MAX_INPUT - stored.start - taken || size > end - taken {
        return false;
    }
    match stored.size {
        Some(declared) => taken + size <= in_whole_frames(stored.frame, declared),
        None => true,
    }
}

/// Takes the next block of samples behind `taken` bytes of them: less than a block where the samples end,
/// or the part of them that ends behind `end` bytes. All samples end at `u64::MAX` at the latest.
pub fn read_samples<S: Source>(
    stored: Stored,
    end: u64,
    taken: u64,
    block: &mut [u8],
    input: &mut S,
) -> Result<usize, SampleFault>
    requires limit { stored.start + taken ≤ MAX_INPUT }
    requires frame { 1 ≤ stored.frame }
    requires declared { InDeclared (declared_bytes stored) taken }
    requires part { taken ≤ end }
    ensures ok { IfOk result (λ count. PartRead stored end taken block.new count
        (S.state input.old) (S.state input.new)) }
    ensures err { IfErr result (λ fault.
        PartUnread stored end taken (length block.old)
        (λ n. IsUnread fault stored n (S.state input.old) (S.state input.new))
        (S.state input.old) (S.state input.new)) }
{
    let stop = match stored.size {
        Some(size) => in_whole_frames(stored.frame, size).min(end),
        None => end,
    };
    let want = (stop - taken).min(block.len() as u64) as usize;
    match fill(input, &mut block[..want], MAX_INPUT - stored.start - taken) {
        Ok(count) => match stored.size {
            Some(declared) if count < want => {
                let got = taken + count as u64;
                Err(SampleFault::Short {
                    declared,
                    got,
                    offset: stored.start + got,
                })
            }
            _ => Ok(count),
        },
        Err(FillFault::Failed) => Err(SampleFault::Failed),
        Err(FillFault::LimitReached) => Err(SampleFault::LimitReached),
    }
}
