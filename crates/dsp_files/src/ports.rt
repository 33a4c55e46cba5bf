//! Files as ports. They tell no bytes: what a file holds is not proved. Each counts its faults up to the
//! greatest `u64`.
ghost use Rattle.std.specs.Prelude.{◌≡◌, false, IfOk, IsTrue, ◌<◌, ◌≤◌, length, vec_len};
ghost use Rattle.dsp_files.specs.declared.ports.TheConstants.{GATHERED};

use crate::open::open_past_streams;
use dsp_ports::{Failed, Piece, Sink, Source, Taker};
use std::alloc::{AllocError, Global};
use std::fs::{Files, Metadata, OpenFile, OpenOptions};
use std::io::{ErrorKind, Read, Write};
use std::marker::Model;
use std::os::fd::AsRawFd;
use std::os::unix::fs::{FileTypeExt, MetadataExt};
use std::{fs, io};

/// The bytes that were read ahead, of which those from `start` to `end` are still to be given. The room for them is
/// taken into use at the first read.
#[derive(Drop)]
struct Ahead {
    bytes: Vec<u8>,
    start: usize,
    end: usize,
    ghost in_order: { start ≤ end },
    ghost within: { end ≤ vec_len bytes },
}

/// A file that is opened at the first read, and read ahead: so that small reads are few calls.
#[derive(Drop)]
pub struct FileSource<'a, R: Files> {
    files: &'a R,
    path: &'a str,
    file: Option<R::File>,
    ahead: Ahead,
    taken: u64,
    faults: u64,
    ended: bool,
    strayed: bool,
}

impl<'a, R: Files> Model for FileSource<'a, R> {
    ghost use Rattle.dsp_files.specs.Files.{FileInput};

    ghost Value = { FileInput };

    ghost view = { λ s. record {
      path = s.path.now;
      taken = s.taken;
      faults = s.faults;
      ended = s.ended;
      strayed = s.strayed;
    } };
}

impl<'a, R: Files> FileSource<'a, R> {
    /// The file of this name, which isn't opened yet, and the room to read so many bytes ahead: none for a caller who
    /// asks for many at once. A source with an empty name takes no room, and gives nothing. It errs where memory is
    /// wanting.
    pub fn new(
        alloc: Global,
        files: &'a R,
        path: &'a str,
        room: usize,
    ) -> Result<FileSource<'a, R>, AllocError>
        ensures { IfOk result (λ source. source ≡ record {
          path = path.now;
          taken = 0;
          faults = 0;
          ended = false;
          strayed = false;
        }) }
    {
        let room = if path.is_empty() { 0 } else { room };
        Ok(FileSource {
            files,
            path,
            file: None,
            ahead: Ahead {
                bytes: Vec::with_capacity(alloc, room)?,
                start: 0,
                end: 0,
            },
            taken: 0,
            faults: 0,
            ended: false,
            strayed: false,
        })
    }
}

/// Reads from the file, which is opened where it isn't yet.
fn read_file<R: Files<File: AsRawFd>>(
    files: &R,
    path: &str,
    file: &mut Option<R::File>,
    into: &mut [u8],
) -> io::Result<usize>
    ensures { IfOk result (λ count. count ≤ length into.new) }
{
    if file.is_none() {
        *file = Some(open_past_streams(files, OpenOptions::new().read(true), path)?);
    }
    match file {
        Some(file) => file.read(into),
        None => Ok(0),
    }
}

/// Gives bytes that were read ahead, and where there are none reads ahead first. A read of as many bytes as there is
/// room for goes to the file itself.
fn read_ahead<R: Files<File: AsRawFd>>(
    files: &R,
    path: &str,
    file: &mut Option<R::File>,
    ahead: &mut Ahead,
    into: &mut [u8],
) -> io::Result<usize>
    ensures { IfOk result (λ count. count ≤ length into.new) }
{
    if ahead.start == ahead.end {
        let room = ahead.bytes.capacity();
        if into.len() >= room {
            return read_file(files, path, file, into);
        }
        ahead.start = 0;
        ahead.end = 0;
        if ahead.bytes.resize(room, 0).is_err() {
            unreachable!();
        }
        ahead.end = read_file(files, path, file, &mut ahead.bytes)?;
    }
    let ready = &ahead.bytes[ahead.start..ahead.end];
    let count = into.len().min(ready.len());
    into[..count].copy_from_slice(&ready[..count]);
    ahead.start += count;
    Ok(count)
}

impl<R: Files<File: AsRawFd>> Source for FileSource<'_, R> {
    ghost use Rattle.std.specs.Prelude.{⊤};
    ghost use Rattle.dsp_files.specs.Files.{input_state};

    ghost state = { input_state };

    // A file tells nothing of its reads.
    ghost Reads = { λ _ _ _. ⊤ };

    fn read(&mut self, into: &mut [u8]) -> Result<usize, Failed> {
        self.strayed |= self.ended | into.is_empty();
        if into.len() as u64 <= u64::MAX - self.taken {
            if let Ok(count) = read_ahead(
                self.files,
                self.path,
                &mut self.file,
                &mut self.ahead,
                into,
            ) {
                self.taken += count as u64;
                self.ended |= count == 0;
                return Ok(count);
            }
        }
        self.ended = true;
        self.faults = self.faults.saturating_add(1);
        Err(Failed)
    }

    fn lend<T: Taker>(&mut self, count: usize, taker: &mut T) -> bool {
        let ready = self.ahead.end - self.ahead.start;
        if count == 0 || count > ready || count as u64 > u64::MAX - self.taken {
            return false;
        }
        self.strayed |= self.ended;
        let start = self.ahead.start;
        let end = start + count;
        taker.take(&self.ahead.bytes[start..end]);
        self.ahead.start = end;
        self.taken += count as u64;
        true
    }
}

/// How many bytes a sink gathers.
const GATHERED: usize = 65_536;

/// A piece of so many bytes is written by itself, since copying it costs more than a call.
const ALONE: usize = 16_384;

/// The bytes that were accepted, and not written to the file yet: those from `start` to `end`. The others are room. The
/// place of a byte is its place in the file modulo `GATHERED`, so that what is written where there is no more room ends
/// at a multiple of it in the file: a kernel takes whole pages faster.
#[derive(Drop)]
struct Gathered {
    bytes: Vec<u8>,
    start: usize,
    end: usize,
    ghost long: { vec_len bytes ≡ GATHERED },
    ghost in_order: { start ≤ end },
    ghost within: { end ≤ GATHERED },
}

impl Gathered {
    /// All that was gathered is in the file, and so many bytes behind it.
    fn go_on(&mut self, count: usize) {
        self.start = (self.end + count % GATHERED) % GATHERED;
        self.end = self.start;
    }
}

/// A file that is opened and emptied, or made, at the first write or flush. A file that the run reads, by this name
/// or by another, is not emptied: the write fails and the file stays as it is. The first piece goes to the file at
/// once. What is accepted after it is gathered, and written where there is no more room, at a flush, and by `spill`.
#[derive(Drop)]
pub struct FileSink<'a, R: Files> {
    files: &'a R,
    path: &'a str,
    script: &'a str,
    input: &'a str,
    file: Option<R::File>,
    gathered: Option<Gathered>,
    faults: u64,
    strayed: bool,
}

impl<'a, R: Files> Model for FileSink<'a, R> {
    ghost use Rattle.dsp_files.specs.Files.{FileOutput};

    ghost Value = { FileOutput };

    ghost view = { λ s. record {
      path = s.path.now;
      script = s.script.now;
      input = s.input.now;
      faults = s.faults;
      strayed = s.strayed;
    } };
}

impl<'a, R: Files> FileSink<'a, R> {
    /// The file of this name, which is not opened yet, beside the files that are read: the names of a script and of
    /// an input, empty where there is none. The room for what is gathered is taken here; a sink with an empty name
    /// takes none, and accepts nothing. It errs where memory is wanting.
    pub fn new(
        alloc: Global,
        files: &'a R,
        path: &'a str,
        script: &'a str,
        input: &'a str,
    ) -> Result<FileSink<'a, R>, AllocError>
        ensures { IfOk result (λ sink. sink ≡ record {
          path = path.now;
          script = script.now;
          input = input.now;
          faults = 0;
          strayed = false;
        }) }
    {
        let mut gathered = None;
        if !path.is_empty() {
            let bytes = vec![in alloc; 0; GATHERED]?;
            gathered = Some(Gathered {
                bytes,
                start: 0,
                end: 0,
            });
        }
        Ok(FileSink {
            files,
            path,
            script,
            input,
            file: None,
            gathered,
            faults: 0,
            strayed: false,
        })
    }

    /// Writes all that was accepted to the file. After a failure it is given up; no fault is counted.
    pub fn spill(&mut self) -> Result<(), Failed>
        ensures { self.new ≡ self.old }
    {
        match (&mut self.file, &mut self.gathered) {
            (Some(file), Some(gathered)) => match spill_to(file, gathered) {
                Ok(()) => Ok(()),
                Err(_) => Err(Failed),
            },
            _ => Ok(()),
        }
    }
}

/// Whether a file keeps what is written to it, as no terminal, pipe or null device does.
fn is_storage(file: &Metadata) -> bool {
    file.is_file() || file.file_type().is_block_device()
}

/// Whether the file of this name is that one.
fn is_named<R: Files>(files: &R, file: &Metadata, name: &str) -> bool {
    match fs::metadata(files, name) {
        Ok(named) => named.dev() == file.dev() && named.ino() == file.ino(),
        Err(_) => false,
    }
}

/// Opens a file for writing and empties it, or makes it where it is not there. A file that has one of these other
/// names too is left as it is.
fn open_output<R: Files<File: AsRawFd>>(
    files: &R,
    path: &str,
    script: &str,
    input: &str,
) -> io::Result<R::File> {
    let file = open_past_streams(files, OpenOptions::new().write(true).create(true), path)?;
    let opened = file.metadata()?;
    if is_storage(&opened) {
        if is_named(files, &opened, script) || is_named(files, &opened, input) {
            return Err(io::Error::from(ErrorKind::InvalidInput));
        }
        file.set_len(0)?;
    }
    Ok(file)
}

/// Writes what was gathered. After a failure it is given up, since a part of it may have been written.
fn spill_to<F: Write>(file: &mut F, gathered: &mut Gathered) -> io::Result<()> {
    let written = match gathered.start == gathered.end {
        true => Ok(()),
        false => file.write_all(&gathered.bytes[gathered.start..gathered.end]),
    };
    gathered.go_on(0);
    written
}

/// Gathers as much of the piece as there is room for, of which it makes some first where there is none. A long piece
/// is written, behind what was gathered.
fn gather<F: Write>(file: &mut F, gathered: &mut Gathered, piece: &[u8]) -> io::Result<usize>
    ensures { IfOk result (λ count. count ≤ length piece.now) }
{
    let is_long = piece.len() >= ALONE;
    if is_long || gathered.end == GATHERED {
        spill_to(file, gathered)?;
    }
    if is_long {
        let count = file.write(piece)?;
        gathered.go_on(count);
        return Ok(count);
    }
    let count = piece.len().min(GATHERED - gathered.end);
    let end = gathered.end + count;
    gathered.bytes[gathered.end..end].copy_from_slice(&piece[..count]);
    gathered.end = end;
    Ok(count)
}

/// Makes a piece that is not long behind what was gathered, where there is room for all of it, and answers whether it
/// did.
fn gather_made<P: Piece>(gathered: &mut Gathered, piece: &P) -> bool
    ensures { IsTrue result → 0 < length (P.bytes piece.now) }
{
    let size = piece.size();
    if size == 0 || size >= ALONE || size > GATHERED - gathered.end {
        return false;
    }
    let end = gathered.end + size;
    piece.write_to(&mut gathered.bytes[gathered.end..end]);
    gathered.end = end;
    true
}

impl<R: Files<File: AsRawFd>> FileSink<'_, R> {
    /// Writes the piece to the file where that was not open yet, and else gathers it.
    fn put(&mut self, piece: &[u8]) -> io::Result<usize>
        ensures count { IfOk result (λ count. count ≤ length piece.now) }
        ensures same { self.new ≡ self.old }
    {
        let Some(gathered) = &mut self.gathered else {
            return Err(io::Error::from(ErrorKind::InvalidInput));
        };
        if let Some(file) = &mut self.file {
            return gather(file, gathered, piece);
        }
        let mut file = open_output(self.files, self.path, self.script, self.input)?;
        let count = file.write(piece)?;
        gathered.go_on(count);
        self.file = Some(file);
        Ok(count)
    }

    /// Writes what was gathered, and makes sure of it.
    fn settle(&mut self) -> io::Result<()>
        ensures same { self.new ≡ self.old }
    {
        let Some(gathered) = &mut self.gathered else {
            return Err(io::Error::from(ErrorKind::InvalidInput));
        };
        if self.file.is_none() {
            self.file = Some(open_output(self.files, self.path, self.script, self.input)?);
        }
        if let Some(file) = &mut self.file {
            spill_to(file, gathered)?;
            file.flush()?;
        }
        Ok(())
    }
}

impl<R: Files<File: AsRawFd>> Sink for FileSink<'_, R> {
    ghost use Rattle.std.specs.Prelude.{⊤};
    ghost use Rattle.dsp_files.specs.Files.{output_state};

    ghost state = { output_state };

    // A file tells nothing of its writes.
    ghost Writes = { λ _ _ _. ⊤ };

    fn write(&mut self, piece: &[u8]) -> Result<usize, Failed> {
        if piece.is_empty() {
            self.strayed = true;
            return Ok(0);
        }
        match self.put(piece) {
            Ok(count) if count > 0 => Ok(count),
            _ => {
                self.faults = self.faults.saturating_add(1);
                Err(Failed)
            }
        }
    }

    fn accept<P: Piece>(&mut self, piece: &P) -> bool {
        match (&self.file, &mut self.gathered) {
            (Some(_), Some(gathered)) => gather_made(gathered, piece),
            _ => false,
        }
    }

    fn flush(&mut self) -> Result<(), Failed> {
        match self.settle() {
            Ok(()) => Ok(()),
            Err(_) => {
                self.faults = self.faults.saturating_add(1);
                Err(Failed)
            }
        }
    }
}
