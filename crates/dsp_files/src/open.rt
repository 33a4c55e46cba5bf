//! How files are opened: none under the number of a standard stream.
ghost use Rattle.std.specs.Prelude.{IfOk, IfSome, pos, ◌<ℤ◌};

use std::fs::{Files, OpenFile, OpenOptions};
use std::io::{self, ErrorKind};
use std::os::fd::{AsRawFd, RawFd};

/// The greatest number of a standard stream.
const LAST_STREAM: RawFd = 2;

/// Opens a file under a number past those of the standard streams. A stream that is closed leaves its number to the
/// next file that is opened, which would then have what is meant for the stream.
pub fn open_past_streams<R: Files<File: AsRawFd>>(
    files: &R,
    options: &OpenOptions,
    path: &str,
) -> io::Result<R::File>
    ensures { IfOk result (λ file. IfSome (R.File.raw_fd file) (λ number. LAST_STREAM <ℤ number)) }
{
    let mut file = options.open(files, path)?;
    if file.as_raw_fd() <= LAST_STREAM {
        file = file.try_clone()?;
    }
    if file.as_raw_fd() > LAST_STREAM {
        return Ok(file);
    }
    Err(io::Error::from(ErrorKind::Unsupported))
}
