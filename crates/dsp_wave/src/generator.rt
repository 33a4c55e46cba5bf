ghost use Rattle.std.specs.Prelude.{◌≡◌, ◌+◌, ◌<◌, ◌≤◌, ◌⊎◌, ◌==◌, ◌||◌, [], false, Some, length, take, IfOk, IsOk, FitsSigned};
ghost use Rattle.std.specs.Io.KnownBytes.{IsAtEnd};
ghost use Rattle.arrayvec.specs.ArrayVec.{array_vec_len};
ghost use Rattle.dsp_defs.specs.Formats.{word};
ghost use Rattle.dsp_defs.specs.Generator.{generated_bytes, state_sample};
ghost use Rattle.dsp_defs.specs.declared.limits.TheConstants.{MAX_CHANNELS, MAX_GENERATED};
ghost use Rattle.dsp_ports.specs.Ports.{CountsFaults, Gave, GaveNothing, asked, strayed_after};
ghost use Rattle.dsp_wave.specs.Generated.{Generation, generation_state, next_state, to_come};

use crate::coding::{bytes_of, coding_of, width};
use crate::writer::{HEADER_ROOM, append, data_size, write_header};
use arrayvec::ArrayVec;
use dsp_defs::{Container, Fmt, GENERATED_RATE, Input, InputKind};
use dsp_ports::{Failed, Source, Taker};
use std::marker::Model;

/// The state behind a state of the generator.
fn next_state(state: u32) -> u32
    ensures { result ≡ next_state state }
{
    state.wrapping_mul(1_664_525).wrapping_add(1_013_904_223)
}

/// The sample of a state.
fn state_sample(format: Fmt, state: u32) -> i32
    ensures value { result ≡ state_sample format state }
    ensures fits { FitsSigned (word format) result }
{
    match format {
        Fmt::Q7 => i32::from(((state >> 24) as u8).cast_signed()),
        Fmt::Q15 => i32::from(((state >> 16) as u16).cast_signed()),
        Fmt::Q31 => state.cast_signed(),
    }
}

/// What a generated input is still to give: the rest of the bytes that are ready, of which `given`
/// were given, then so many samples behind the state, then the pad byte.
#[derive(Drop)]
struct Pieces {
    container: Container,
    format: Fmt,
    ready: ArrayVec<u8, HEADER_ROOM>,
    given: usize,
    state: u32,
    samples: u64,
    has_pad: bool,
}

impl Pieces {
    /// Makes the bytes of the next sample ready, or the pad byte, once all that was ready is given.
    fn refill(&mut self)
        requires { self.old.given ≤ array_vec_len self.old.ready }
        ensures same { to_come self.new ≡ to_come self.old }
        ensures within { self.new.given ≤ array_vec_len self.new.ready }
        ensures filled { (self.new.given < array_vec_len self.new.ready) ⊎ (to_come self.new ≡ []) }
    {
        if self.given < self.ready.len() {
            return;
        }
        if self.samples > 0 {
            self.samples -= 1;
            self.state = next_state(self.state);
            let coding = coding_of(self.container, self.format);
            let mut bytes = [0; 4];
            let sample = &mut bytes[..width(coding)];
            bytes_of(coding, state_sample(self.format, self.state), sample);
            self.given = 0;
            self.ready.clear();
            append(&mut self.ready, sample);
        } else if self.has_pad {
            self.has_pad = false;
            self.given = 0;
            self.ready.clear();
            self.ready.push(0);
        }
    }
}

/// A source that gives a generated input: samples from a linear congruential sequence, and where the
/// input is WAVE the header before them and the pad byte behind them. It takes no memory, and never
/// fails.
#[derive(Drop)]
pub struct GenSource {
    pieces: Pieces,
    taken: u64,
    ended: bool,
    strayed: bool,
}

impl Model for GenSource {
    ghost use Rattle.std.specs.Prelude.{◌+◌, ◌≤◌, length};
    ghost use Rattle.arrayvec.specs.ArrayVec.{array_vec_len};
    ghost use Rattle.dsp_defs.specs.declared.limits.TheConstants.{MAX_INPUT};
    ghost use Rattle.dsp_wave.specs.Generated.{Generation, to_come};

    ghost Value = { Generation };

    ghost view = { λ s. record {
      rest = to_come s.pieces;
      taken = s.taken;
      ended = s.ended;
      strayed = s.strayed;
    } };

    ghost invariant = { λ s. (s.pieces.given ≤ array_vec_len s.pieces.ready)
        × (s.taken + length (to_come s.pieces) ≤ MAX_INPUT) };
}

impl GenSource {
    /// The input that `seed` gives, of so many frames. A WAVE file says the rate 48,000.
    pub fn new(input: &Input, seed: u32, frames: u32) -> GenSource
        requires channels { input.now.channels ≤ MAX_CHANNELS }
        requires frames { frames ≤ MAX_GENERATED }
        ensures { result ≡ record {
          rest = generated_bytes input.now seed frames;
          taken = 0;
          ended = false;
          strayed = false;
        } }
    {
        let count = u64::from(frames);
        let (container, ready, has_pad) = match input.kind {
            InputKind::Raw { .. } => (Container::Raw, ArrayVec::new(), false),
            InputKind::Wave => (
                Container::Wave,
                write_header(
                    Container::Wave,
                    input.format,
                    input.channels,
                    GENERATED_RATE,
                    Some(count),
                ),
                data_size(input.format, input.channels, count) % 2 != 0,
            ),
        };
        GenSource {
            pieces: Pieces {
                container,
                format: input.format,
                ready,
                given: 0,
                state: seed,
                samples: count * u64::from(input.channels),
                has_pad,
            },
            taken: 0,
            ended: false,
            strayed: false,
        }
    }
}

impl Source for GenSource {
    ghost use Rattle.std.specs.Prelude.{⊤};

    ghost state = { generation_state };

    // It says no more of a read than its clauses.
    ghost Reads = { λ _ _ _. ⊤ };

    fn read(&mut self, into: &mut [u8]) -> Result<usize, Failed>
        ensures ok { IsOk result }
        ensures within { IfOk result (λ count. count ≤ length into.new) }
        ensures gave { IfOk result (λ count.
            Gave (asked (generation_state self.old) (length into.old)) (generation_state self.new)
            (take count into.new)) }
        ensures end { IfOk result (λ count.
            count ≡ 0 → 0 < length into.new → IsAtEnd (Some self.new.rest)) }
        ensures ended { IfOk result (λ count. self.new.ended ≡ (self.old.ended || (count == 0))) }
        ensures strayed { self.new.strayed
            ≡ strayed_after self.old.ended self.old.strayed (length into.old) }
    {
        self.strayed |= self.ended | into.is_empty();
        self.pieces.refill();
        let piece = &self.pieces.ready[self.pieces.given..];
        let count = into.len().min(piece.len());
        into[..count].copy_from_slice(&piece[..count]);
        self.pieces.given += count;
        self.taken += count as u64;
        self.ended |= count == 0;
        Ok(count)
    }

    // It makes its bytes one piece at a time.
    fn lend<T: Taker>(&mut self, _count: usize, _taker: &mut T) -> bool {
        false
    }
}
