//! The bytes of a port against those that are wanted.
ghost use Rattle.std.specs.Prelude.{◌≡◌, ◌∷◌, [], length, IfOk, IfErr, IfSome, MatchResult};
ghost use Rattle.std.specs.Prelude.{MatchOption};
ghost use Rattle.std.specs.Io.KnownBytes.{IsAtEnd};
ghost use Rattle.dsp_ports.specs.Ports.{CountsFaults, Gave, GaveNothing};
ghost use Rattle.dsp_check.specs.Comparing.{HasAll, Mismatches};

use dsp_ports::{Failed, Source};

/// Why the bytes of a port are not those wanted.
#[derive(Clone, Copy, Debug, PartialEq, Eq)]
pub enum Mismatch {
    /// At this offset is another byte, or only one of the two has ended.
    Differs { offset: u64 },
    /// The port has failed.
    Failed,
}

/// The next byte, or none where the bytes have ended.
fn next_byte<O: Source>(other: &mut O) -> Result<Option<u8>, Failed>
    ensures gave { MatchResult result
        (λ next. MatchOption next
        (Gave (O.state other.old) (O.state other.new) [] × IsAtEnd (O.state other.new).left)
        (λ byte. Gave (O.state other.old) (O.state other.new) (byte ∷ [])))
        (λ _. GaveNothing (O.state other.old) (O.state other.new)) }
    ensures faults { CountsFaults result (O.state other.old).faults (O.state other.new).faults }
    ensures going { IfOk result (λ next. IfSome next (λ _.
        (O.state other.new).ended ≡ (O.state other.old).ended)) }
{
    let mut byte = [0];
    match other.read(&mut byte) {
        Ok(0) => Ok(None),
        Ok(_) => Ok(Some(byte[0])),
        Err(failed) => Err(failed),
    }
}

/// Reads a port to its end, byte after byte, as long as each is the one wanted, and answers their
/// number. It takes no byte behind the first one that decides.
pub fn compare<O: Source>(other: &mut O, wanted: &[u8]) -> Result<u64, Mismatch>
    ensures ok { IfOk result (λ count. (count ≡ length wanted.now)
        × HasAll wanted.now (O.state other.old) (O.state other.new)) }
    ensures err { IfErr result (λ fault.
        Mismatches fault wanted.now (O.state other.old) (O.state other.new)) }
{
    for offset in 0..wanted.len() {
        match next_byte(other) {
            Ok(Some(byte)) if byte == wanted[offset] => {}
            Ok(_) => {
                return Err(Mismatch::Differs {
                    offset: offset as u64,
                });
            }
            Err(_) => return Err(Mismatch::Failed),
        }
    }
    match next_byte(other) {
        Ok(None) => Ok(wanted.len() as u64),
        Ok(Some(_)) => Err(Mismatch::Differs {
            offset: wanted.len() as u64,
        }),
        Err(_) => Err(Mismatch::Failed),
    }
}
