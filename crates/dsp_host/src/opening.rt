ghost use Rattle.std.specs.Prelude.{◌≡◌, IfOk, IfErr};
ghost use Rattle.dsp_defs.specs.Grammar.{IsSound};
ghost use Rattle.dsp_host.specs.Opening.{IsOpened, FailsToOpen, asked};

use crate::refusal::OpenFault;
use dsp_defs::Script;
use dsp_script::{ParseFault, default_block, legal, parse, unit};
use dsp_session::Session;
use dsp_unit::AnyUnit;
use std::alloc::Global;

/// The block length that is asked for: 0 is the script's own, or the default where it names none.
fn asked(block: u64, script: &Script) -> u64
    requires { IsSound script.now }
    ensures { result ≡ asked block script.now }
{
    match (block, script.block) {
        (0, Some(frames)) => u64::from(frames),
        (0, None) => default_block(script),
        _ => block,
    }
}

/// A session of the script that a text reads as, in blocks of at most this many frames; 0 is the
/// script's own length, or the default where it names none.
pub fn open<U: AnyUnit + Drop>(
    alloc: Global,
    text: &[u8],
    block: u64,
) -> Result<Session<U>, OpenFault>
    ensures ok { IfOk result (IsOpened text.now block) }
    ensures err { IfErr result (λ fault. FailsToOpen fault text.now block) }
{
    let script = match parse(alloc, text) {
        Ok(script) => script,
        Err(ParseFault::Script(fault)) => return Err(OpenFault::Script(fault)),
        Err(ParseFault::Memory) => return Err(OpenFault::Memory),
    };
    let block = asked(block, &script);
    if !legal(&script, block) {
        let unit = unit(&script);
        return Err(OpenFault::BlockLength { block, unit });
    }
    match Session::new(alloc, script, block) {
        Ok(session) => Ok(session),
        Err(_) => Err(OpenFault::Memory),
    }
}
