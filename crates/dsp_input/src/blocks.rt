ghost use Rattle.std.specs.Prelude.{◌≡◌, ◌+◌, ◌≤◌, ◌↔◌, length, IfOk, IfErr, IsTrue};
ghost use Rattle.dsp_wave.specs.Samples.{HasBlock, InDeclared};
ghost use Rattle.dsp_input.specs.Taking.{frame_bytes, declared_bytes, stored, PartRead, PartUnread};

use crate::fault::InputFault;
use crate::header::frame_bytes;
use dsp_defs::{Header, HeaderFault, MAX_INPUT, Script};
use dsp_ports::Source;
use dsp_wave::{SampleFault, Stored, read_samples};

/// Where the samples stand behind a header.
fn stored(script: &Script, header: Header) -> Stored
    ensures { result ≡ stored script.now header }
{
    Stored {
        start: header.start,
        size: header.size,
        frame: frame_bytes(script, header.coding),
    }
}

/// Whether the samples, and the part of them that ends behind `end` bytes, have so many bytes behind the first `taken`
/// ones, and these may be taken.
pub fn has_block(script: &Script, header: Header, end: u64, taken: u64, size: usize) -> bool
    requires limit { header.start + taken ≤ MAX_INPUT }
    requires frame { 1 ≤ frame_bytes script.now header.coding }
    requires part { taken ≤ end }
    ensures { IsTrue result ↔ HasBlock (stored script.now header) end taken size }
{
    dsp_wave::has_block(stored(script, header), end, taken, size)
}

/// Takes the next block of samples: less than a block where the samples end, or the part of them that
/// ends behind `end` bytes. All samples end at `u64::MAX` at the latest.
pub fn read_block<S: Source>(
    script: &Script,
    header: Header,
    end: u64,
    taken: u64,
    block: &mut [u8],
    input: &mut S,
) -> Result<usize, InputFault>
    requires limit { header.start + taken ≤ MAX_INPUT }
    requires frame { 1 ≤ frame_bytes script.now header.coding }
    requires declared { InDeclared (declared_bytes script.now header) taken }
    requires part { taken ≤ end }
    ensures ok { IfOk result (λ count. PartRead script.now header end taken block.new count
        (S.state input.old) (S.state input.new)) }
    ensures err { IfErr result (λ fault.
        PartUnread script.now header end taken (length block.old) fault (S.state input.old)
        (S.state input.new)) }
{
    match read_samples(stored(script, header), end, taken, block, input) {
        Ok(count) => Ok(count),
        Err(
            SampleFault::Short {
                declared,
                got,
                offset,
            },
        ) => Err(InputFault::Header {
            fault: HeaderFault::Short { declared, got },
            offset,
        }),
        Err(SampleFault::Failed) => Err(InputFault::Failed),
        Err(SampleFault::LimitReached) => Err(InputFault::Limit {
            taken: MAX_INPUT,
            limit: MAX_INPUT,
        }),
    }
}
