//! The file that is read: its header, and its samples block by block.

ghost use Rattle.std.specs.Prelude.{◌≡◌, ◌+◌, ◌*◌, ◌<◌, ◌≤◌, ℕ, length, get_or, IfOk, IfErr};
ghost use Rattle.dsp_defs.specs.Au.{open_frame_bytes};
ghost use Rattle.dsp_au.specs.Convert.{BlockRead, InDeclared, IsShort, Opened, Unopened, Unread};
ghost use Rattle.dsp_au.specs.Convert.{declared_bytes};

use crate::fault::{AuOr, ConvertFault};
use crate::reader::read_au;
use dsp_defs::{AuFault, Direction, HeaderFault, MAX_INPUT, OpenHeader};
use dsp_ports::Source;
use dsp_wave::{HeaderOr, SampleFault, Stored, read_open_header, read_samples, width};

/// The bytes of a frame.
pub(crate) fn frame_bytes(header: OpenHeader) -> usize
    ensures { result ≡ open_frame_bytes header }
{
    usize::from(header.channels) * width(header.coding)
}

/// No more bytes of the input may be taken.
const LIMIT_REACHED: ConvertFault = ConvertFault::Input {
    taken: MAX_INPUT,
    limit: MAX_INPUT,
};

/// Takes the header of the input.
pub(crate) fn read_source<S: Source>(
    direction: Direction,
    input: &mut S,
) -> Result<OpenHeader, ConvertFault>
    ensures ok { IfOk result (λ header.
        Opened direction header (S.state input.old) (S.state input.new)) }
    ensures err { IfErr result (λ fault.
        Unopened direction fault (S.state input.old) (S.state input.new)) }
{
    match direction {
        Direction::WaveToAu => match read_open_header(input) {
            Ok(header) => Ok(header),
            Err(HeaderOr::Fault { fault, offset }) => Err(ConvertFault::Wave { fault, offset }),
            Err(HeaderOr::Read) => Err(ConvertFault::Read),
            Err(HeaderOr::Long) => Err(LIMIT_REACHED),
        },
        Direction::AuToWave => match read_au(input) {
            Ok(header) => Ok(header),
            Err(AuOr::Fault { fault, offset }) => Err(ConvertFault::Au { fault, offset }),
            Err(AuOr::Read) => Err(ConvertFault::Read),
            Err(AuOr::Long) => Err(LIMIT_REACHED),
        },
    }
}

/// The input ended behind so many bytes of samples, before those that were declared.
fn short(direction: Direction, declared: u32, got: u64, offset: u64) -> ConvertFault
    ensures { IsShort direction result declared got offset }
{
    match direction {
        Direction::WaveToAu => ConvertFault::Wave {
            fault: HeaderFault::Short { declared, got },
            offset,
        },
        Direction::AuToWave => ConvertFault::Au {
            fault: AuFault::Short { declared, got },
            offset,
        },
    }
}

/// Takes the next block of samples: less than a block where the samples end.
pub(crate) fn read_block<S: Source>(
    direction: Direction,
    header: OpenHeader,
    taken: u64,
    block: &mut [u8],
    input: &mut S,
) -> Result<usize, ConvertFault>
    requires limit { header.start + taken ≤ MAX_INPUT }
    requires frame { 1 ≤ open_frame_bytes header }
    requires declared { InDeclared (declared_bytes header) taken }
    ensures ok { IfOk result (λ count. BlockRead header taken block.new count
        (S.state input.old) (S.state input.new)) }
    ensures err { IfErr result (λ fault.
        Unread direction header taken (length block.old) fault (S.state input.old)
        (S.state input.new)) }
    ensures small { (i : ℕ) → get_or block.new i 0 < 256 }
{
    let stored = Stored {
        start: header.start,
        size: header.size,
        frame: frame_bytes(header) as u64,
    };
    match read_samples(stored, u64::MAX, taken, block, input) {
        Ok(count) => Ok(count),
        Err(
            SampleFault::Short {
                declared,
                got,
                offset,
            },
        ) => Err(short(direction, declared, got, offset)),
        Err(SampleFault::Failed) => Err(ConvertFault::Read),
        Err(SampleFault::LimitReached) => Err(LIMIT_REACHED),
    }
}
