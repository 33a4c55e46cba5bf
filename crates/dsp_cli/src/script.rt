ghost use Rattle.std.specs.Prelude.{◌≡◌, ◌+◌, ◌≤◌, ◌<◌, ◌^◌, IfOk, IsErrOf};
ghost use Rattle.dsp_cli.specs.Asking.{Draws};
ghost use Rattle.dsp_ports.specs.Ports.{one_more};
ghost use Rattle.dsp_cli.specs.Script.{IsReadWhole};

use dsp_ports::Source;
use std::alloc::Global;

/// Why the bytes of a script or a state are not read.
#[derive(Clone, Copy, Debug, PartialEq, Eq)]
pub enum ReadFault {
    Failed,
    Memory,
}

/// All bytes of a script or a state, at most one more than it may have.
#[tactic(auto, using(crate::proofs::Asking::drawn_nothing, crate::proofs::Asking::draws_all))]
pub fn read_whole<P: Source>(
    alloc: Global,
    limit: usize,
    source: &mut P,
) -> Result<Vec<u8>, ReadFault>
    requires { limit < 2 ^ 40 }
    ensures read { IfOk result (λ text. IsReadWhole limit (P.state source.old) (P.state source.new)
        text.items) }
    ensures taken { (P.state source.new).taken ≤ (P.state source.old).taken + limit + 1 }
    ensures asks { Draws P.Reads (λ s. (P.state s).taken) (limit + 1) source.old source.new }
    ensures failed { IsErrOf result ReadFault.Failed
        → (P.state source.new).faults ≡ one_more (P.state source.old).faults }
{
    let mut text = Vec::new(alloc);
    let mut chunk = [0; 4096];
    'reading: while text.len() <= limit {
        let want = (limit + 1 - text.len()).min(chunk.len());
        let count = match source.read(&mut chunk[..want]) {
            Ok(count) => count,
            Err(_) => return Err(ReadFault::Failed),
        };
        if count == 0 {
            return Ok(text);
        }
        if text.extend_from_slice(&chunk[..count]).is_err() {
            return Err(ReadFault::Memory);
        }
    }
    Ok(text)
}
