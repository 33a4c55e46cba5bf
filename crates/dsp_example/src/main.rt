//! Filters three samples, and prints what the filter gives.
#![tactic(auto)]

ghost use Rattle.std.specs.Prelude.{◌≡◌};

use dsp_defs::{MakeFault, Steps};
use dsp_fir::Fir;
use std::alloc::Global;
use std::io::Print;
use std::marker::Brand;
use std::process::ExitCode;
use std::sync::ledger::{Blank, Ledger};

/// The samples 1000, -1000 and -1 through one tap of one half.
fn filtered<M: Ledger>(alloc: Global, blank: Blank) -> Result<[i16; 3], MakeFault>
    requires name { blank.name ≡ M.name }
    requires parts { blank.parts ≡ M.parts }
    requires two { M.parts ≡ 2 }
{
    let mut steps = Steps::<M>::new(blank);
    let mut output = [0i16; 3];
    let mut filter = Fir::<i16, 8>::new(alloc, &[16384], 3)?;
    filter.process(&[1000, -1000, -1], &mut output, &mut steps);
    Ok(output)
}

fn main(rt: HostRuntime) -> ExitCode {
    let Ok(output) = filtered::<Brand>(rt.alloc(), Blank::new(2)) else {
        return ExitCode::from(1);
    };
    let [first, second, third] = output;
    let _ = println!(rt; "{first} {second} {third}");
    ExitCode::from(0)
}
