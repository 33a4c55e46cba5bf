ghost use Rattle.std.specs.Prelude.{◌≡◌, ◌<◌, ◌≤◌, IsTrue, IsFalse, IfSome, length};
ghost use Rattle.dsp_ports.specs.Lend.{Lent};
ghost use Rattle.dsp_ports.specs.Memory.{lent};

use crate::source::{Failed, Source, Taker};
use std::marker::Model;

/// A source over bytes of the caller, which are read and lent where they are. It never fails.
#[derive(Drop)]
pub struct LentSource<'a> {
    bytes: &'a [u8],
    position: usize,
    ended: bool,
    strayed: bool,
}

impl<'a> Model for LentSource<'a> {
    ghost use Rattle.std.specs.Prelude.{◌≤◌, length, drop, Some};
    ghost use Rattle.dsp_ports.specs.Ports.{SourceState};

    ghost Value = { SourceState };

    ghost view = { λ s. record {
      left = Some (drop s.position s.bytes.now);
      taken = s.position;
      faults = 0;
      ended = s.ended;
      strayed = s.strayed;
    } };

    ghost invariant = { λ s. s.position ≤ length s.bytes.now };
}

impl<'a> LentSource<'a> {
    /// Each read gives as many bytes as fit.
    pub fn new(bytes: &'a [u8]) -> LentSource<'a>
        ensures { result ≡ lent bytes.now }
    {
        LentSource {
            bytes,
            position: 0,
            ended: false,
            strayed: false,
        }
    }
}

impl<'a> Source for LentSource<'a> {
    ghost use Rattle.std.specs.Prelude.{⊤, ◌<◌, IfSome, length};

    ghost state = { λ s. s };

    ghost Reads = { λ _ _ _. ⊤ };

    // It lends what it has.
    ghost Refuses = { λ s count. IfSome s.left (λ bytes. length bytes < count) };

    fn read(&mut self, into: &mut [u8]) -> Result<usize, Failed> {
        self.strayed |= self.ended | into.is_empty();
        let count = into.len().min(self.bytes.len() - self.position);
        let end = self.position + count;
        into[..count].copy_from_slice(&self.bytes[self.position..end]);
        self.position = end;
        self.ended |= count == 0;
        Ok(count)
    }

    fn lend<T: Taker>(&mut self, count: usize, taker: &mut T) -> bool
        requires { count ≤ T.room taker.old }
        ensures lent { IsTrue result → Lent (λ _ _ _. ⊤) T.Takes self.old self.new self.old self.new
            taker.old taker.new count }
        ensures same { IsFalse result → (self.new ≡ self.old) × (taker.new ≡ taker.old)
            × IfSome self.old.left (λ bytes. length bytes < count) }
    {
        if count > self.bytes.len() - self.position {
            return false;
        }
        self.strayed |= self.ended | (count == 0);
        let end = self.position + count;
        taker.take(&self.bytes[self.position..end]);
        self.position = end;
        true
    }
}
