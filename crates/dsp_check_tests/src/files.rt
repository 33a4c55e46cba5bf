//! A file against the output of a script, over ports in memory.
ghost use Rattle.std.specs.Prelude.{◌≡◌};
ghost use Rattle.dsp_defs.specs.Grammar.{IsSound};
ghost use Rattle.dsp_shape.specs.Lengths.{HasLegalBlock};

use crate::signals::script_of;
use dsp_check::{CheckFault, check};
use dsp_defs::{Script, Steps};
use dsp_ports::MemSource;
use std::alloc::{AllocError, Global};
use std::marker::Brand;
use std::sync::ledger::{Blank, Ledger};
use std::test::Fail;

/// Two sections over two channels: the first halves its input and adds half of its last output.
const SCRIPT: &[u8] =
    b"dspfx 1 input wave q15 2 biquad 0 {16384 0 0 0 16384 0 16384 0 0 0 0 0} output wave";

/// 1000 and -1000, then silence, behind a chunk of an odd size.
const INPUT: &[u8] =
    b"RIFF\0\0\0\0WAVEfmt \x10\0\0\0\x01\0\x02\0\x44\xAC\0\0\x10\xB1\x02\0\x04\0\x10\0LIST\x05\0\0\0abcde\0data\x08\0\0\0\xE8\x03\x18\xFC\0\0\0\0";

/// 250 and -250, then 125 and -125.
const OUTPUT: [u8; 52] =
    *b"RIFF\x2C\0\0\0WAVEfmt \x10\0\0\0\x01\0\x02\0\x44\xAC\0\0\x10\xB1\x02\0\x04\0\x10\0data\x08\0\0\0\xFA\0\x06\xFF\x7D\0\x83\xFF";

/// What a check of the script over the input answers of these bytes, where these calls of their port fail.
fn checked<L: Ledger>(
    alloc: Global,
    script: &Script,
    other: &[u8],
    failing: &[u32],
    blank: Blank,
) -> Result<Result<u64, CheckFault>, AllocError>
    requires sound { IsSound script.now }
    requires legal { HasLegalBlock script.now }
    requires name { blank.name ≡ L.name }
    requires parts { blank.parts ≡ 2 }
    requires ledger_parts { L.parts ≡ 2 }
{
    let mut steps = Steps::<L>::new(blank);
    let mut input = MemSource::new(alloc, INPUT, 7, &[])?;
    let mut other = MemSource::new(alloc, other, 7, failing)?;
    Ok(check(alloc, script, &mut input, &mut other, &mut steps))
}

#[test]
fn a_file_is_compared_with_an_output(rt: HostRuntime) -> Result<(), Fail> {
    let alloc = rt.alloc();
    let script = script_of(alloc, SCRIPT).ok_or("a script")?;
    let mut changed = OUTPUT;
    changed[51] = 0xFE;
    let cases: &[(&[u8], &[u32], Result<u64, CheckFault>)] = &[
        (&OUTPUT, &[], Ok(52)),
        (&changed, &[], Err(CheckFault::Differs { offset: 51 })),
        (&OUTPUT, &[3], Err(CheckFault::Other)),
        (&changed, &[53], Err(CheckFault::Differs { offset: 51 })),
    ];
    for (other, failing, answer) in cases {
        let found = checked::<Brand>(alloc, &script, other, failing, Blank::new(2))?;
        assert_same!(rt; found, *answer);
    }
    Ok(())
}
