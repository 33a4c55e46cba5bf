//! Files on a disk that has little room: each is made and read, and takes so many bytes and no more.
use std::alloc::Allocator;
use std::fmt::Display;
use std::fs::{Files, Metadata, OpenFile, OpenOptions};
use std::io::{self, ErrorKind, Print, Read, Seek, SeekFrom, Write};
use std::os::fd::{AsRawFd, RawFd};

/// A runtime whose disk has room for so many bytes of each file.
#[derive(Drop)]
pub struct FullDisk<'a, R> {
    pub files: &'a R,
    pub room: u64,
}

/// A file on such a disk, with the room that is left.
#[derive(Drop)]
pub struct FullFile<F> {
    file: F,
    room: u64,
}

impl<F: Read> Read for FullFile<F> {
    fn read(&mut self, into: &mut [u8]) -> io::Result<usize> {
        self.file.read(into)
    }
}

impl<F: Write> Write for FullFile<F> {
    fn write(&mut self, piece: &[u8]) -> io::Result<usize> {
        if piece.len() as u64 > self.room {
            return Err(io::Error::from(ErrorKind::StorageFull));
        }
        let count = self.file.write(piece)?;
        self.room = self.room.saturating_sub(count as u64);
        Ok(count)
    }

    fn flush(&mut self) -> io::Result<()> {
        Ok(())
    }
}

impl<F: Seek> Seek for FullFile<F> {
    fn seek(&mut self, to: SeekFrom) -> io::Result<u64> {
        self.file.seek(to)
    }
}

impl<F: OpenFile> OpenFile for FullFile<F> {
    fn metadata(&self) -> io::Result<Metadata> {
        self.file.metadata()
    }

    fn set_len(&self, size: u64) -> io::Result<()> {
        self.file.set_len(size)
    }

    fn sync_all(&self) -> io::Result<()> {
        self.file.sync_all()
    }

    fn sync_data(&self) -> io::Result<()> {
        self.file.sync_data()
    }
}

impl<F: AsRawFd> AsRawFd for FullFile<F> {
    fn as_raw_fd(&self) -> RawFd {
        self.file.as_raw_fd()
    }
}

impl<R: Files> Files for FullDisk<'_, R> {
    type File = FullFile<R::File>;

    type Dir = R::Dir;

    fn open_file(&self, how: &OpenOptions, path: &str) -> io::Result<FullFile<R::File>> {
        Ok(FullFile {
            file: self.files.open_file(how, path)?,
            room: self.room,
        })
    }

    fn open_dir(&self, path: &str) -> io::Result<R::Dir> {
        self.files.open_dir(path)
    }

    fn metadata(&self, path: &str) -> io::Result<Metadata> {
        self.files.metadata(path)
    }

    fn symlink_metadata(&self, path: &str) -> io::Result<Metadata> {
        self.files.symlink_metadata(path)
    }

    fn copy(&self, from: &str, to: &str) -> io::Result<u64> {
        self.files.copy(from, to)
    }

    fn rename(&self, from: &str, to: &str) -> io::Result<()> {
        self.files.rename(from, to)
    }

    fn remove_file(&self, path: &str) -> io::Result<()> {
        self.files.remove_file(path)
    }

    fn create_dir(&self, path: &str) -> io::Result<()> {
        self.files.create_dir(path)
    }

    fn remove_dir(&self, path: &str) -> io::Result<()> {
        self.files.remove_dir(path)
    }

    fn remove_dir_all<A: Allocator>(&self, alloc: A, path: &str) -> io::Result<()> {
        self.files.remove_dir_all(alloc, path)
    }
}

impl<R: Print> Print for FullDisk<'_, R> {
    fn print<D: Display + Drop>(&self, value: D) -> io::Result<()> {
        self.files.print(value)
    }

    fn println<D: Display + Drop>(&self, value: D) -> io::Result<()> {
        self.files.println(value)
    }

    fn write_all(&self, bytes: &[u8]) -> io::Result<()> {
        self.files.write_all(bytes)
    }
}
