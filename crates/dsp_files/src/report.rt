//! Standard output as the port of the report. It tells no bytes.
ghost use Rattle.std.specs.Prelude.{◌≡◌, length};
ghost use Rattle.dsp_files.specs.Files.{new_sink};

use arrayvec::ArrayVec;
use dsp_ports::{Failed, Sink};
use std::io::{self, Print, Write};
use std::marker::Model;

/// How many bytes of a report are held.
const HELD: usize = 4096;

/// Standard output. What is accepted is held until it is released or there is no more room, so that a line can still be
/// replaced when the run has ended.
#[derive(Drop)]
pub struct OutSink<'a, R: Print> {
    rt: &'a R,
    held: ArrayVec<u8, HELD>,
    faults: u64,
    strayed: bool,
}

impl<'a, R: Print> Model for OutSink<'a, R> {
    ghost use Rattle.std.specs.Prelude.{None};
    ghost use Rattle.dsp_ports.specs.Ports.{SinkState};

    ghost Value = { SinkState };

    ghost view = { λ s. record {
      put = record { told = None; strayed = s.strayed };
      settled = None;
      faults = s.faults;
    } };
}

impl<'a, R: Print> OutSink<'a, R> {
    /// The standard output of the process.
    pub fn new(rt: &'a R) -> OutSink<'a, R>
        ensures { result ≡ new_sink }
    {
        OutSink {
            rt,
            held: ArrayVec::new(),
            faults: 0,
            strayed: false,
        }
    }

    /// Writes all that is held. After a failure it is given up; no fault is counted.
    pub fn release(&mut self) -> Result<(), Failed>
        ensures { self.new ≡ self.old }
    {
        let written = self.rt.write_all(self.held.as_slice());
        self.held.clear();
        match written {
            Ok(()) => Ok(()),
            Err(_) => Err(Failed),
        }
    }

    /// Gives up what is held.
    pub fn clear(&mut self)
        ensures { self.new ≡ self.old }
    {
        self.held.clear();
    }
}

impl<R: Print> Sink for OutSink<'_, R> {
    ghost use Rattle.std.specs.Prelude.{⊤};

    ghost state = { λ s. s };

    // Standard output tells nothing of its writes.
    ghost Writes = { λ _ _ _. ⊤ };

    fn write(&mut self, piece: &[u8]) -> Result<usize, Failed> {
        self.strayed |= piece.is_empty();
        if self.held.try_extend_from_slice(piece).is_ok() {
            return Ok(piece.len());
        }
        if self.release().is_ok() {
            if let Ok(count) = self.rt.write_some(piece) {
                if count > 0 {
                    return Ok(count);
                }
            }
        }
        self.faults = self.faults.saturating_add(1);
        Err(Failed)
    }

    /// What is held stays held until it is released, and what went out before is made sure of.
    fn flush(&mut self) -> Result<(), Failed> {
        if self.held.is_empty() && io::writer(self.rt).flush().is_err() {
            self.faults = self.faults.saturating_add(1);
            return Err(Failed);
        }
        Ok(())
    }
}
