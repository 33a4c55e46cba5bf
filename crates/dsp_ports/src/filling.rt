ghost use Rattle.std.specs.Prelude.{◌≡◌, ◌+◌, ◌<◌, ◌≤◌, ◌^◌, ◌⊎◌, length, min, IfOk, IfErr};
ghost use Rattle.dsp_ports.specs.Fill.{AsksForAll, Filled, Skipped, Unfilled};

use crate::source::Source;

/// Why a block was not filled: its source has failed, or no more bytes may be taken of it.
#[derive(Clone, Copy, Debug, PartialEq, Eq)]
pub enum FillFault {
    /// The source has failed.
    Failed,
    /// No more bytes may be taken.
    LimitReached,
}

/// Bytes that are skipped are read in pieces of so many.
const PIECE: usize = 4096;

/// Reads until the block is full or the input has ended, and takes at most `room` bytes. It does not read where
/// nothing is missing or nothing may be taken.
pub fn fill<S: Source>(input: &mut S, block: &mut [u8], room: u64) -> Result<usize, FillFault>
    ensures ok { IfOk result (λ count.
        Filled (S.state input.old) (S.state input.new) block.new room count) }
    ensures err { IfErr result (λ fault.
        Unfilled (S.state input.old) (S.state input.new) (length block.new) room fault) }
    ensures untouched { length block.old ≡ 0 ⊎ room ≡ 0 → input.new ≡ input.old }
    ensures asks { AsksForAll S.Reads (λ s.
        (S.state s).taken) (min (length block.old) room) input.old input.new }
{
    let mut filled = 0;
    while filled < block.len() {
        let missing = (block.len() - filled) as u64;
        let want = missing.min(room - filled as u64) as usize;
        if want == 0 {
            return Err(FillFault::LimitReached);
        }
        match input.read(&mut block[filled..filled + want]) {
            Ok(0) => return Ok(filled),
            Ok(count) => filled += count,
            Err(_) => return Err(FillFault::Failed),
        }
    }
    Ok(filled)
}

/// Takes so many bytes and forgets them, or all to the end of the input, and answers how many came. It takes at most
/// `room` bytes.
pub fn skip<S: Source>(input: &mut S, count: u64, room: u64) -> Result<u64, FillFault>
    ensures ok { IfOk result (λ came.
        Skipped (S.state input.old) (S.state input.new) count room came) }
    ensures err { IfErr result (λ fault.
        Unfilled (S.state input.old) (S.state input.new) count room fault) }
{
    let mut buffer = [0; PIECE];
    let mut skipped = 0;
    while skipped < count {
        let size = (count - skipped).min(PIECE as u64) as usize;
        let came = fill(input, &mut buffer[..size], room - skipped)?;
        skipped += came as u64;
        if came < size {
            return Ok(skipped);
        }
    }
    Ok(skipped)
}
