//! How many frames and samples stand at each place of a script, for a whole signal.
ghost use Rattle.std.specs.Prelude.{◌≡◌, ◌≤◌};
ghost use Rattle.std.specs.Option.{option_map};
ghost use Rattle.dsp_defs.specs.Grammar.{IsSound};
ghost use Rattle.dsp_defs.specs.Shape.{window_at};
ghost use Rattle.dsp_defs.specs.Sizes.{size_at};
ghost use Rattle.dsp_defs.specs.declared.fault.WindowFault.{WindowFault};
ghost use Rattle.dsp_shape.specs.Lengths.{HasLegalBlock};

use dsp_defs::{MAX_CHECKED, MAX_INPUT, Script, WindowFault};
use dsp_shape::{FrameRule, input_flow};

/// The first partial convolution whose window ends past the full one, where the input has n frames.
pub fn window_fault(script: &Script, mut n: u64) -> Option<WindowFault>
    requires sound { IsSound script.now }
    requires legal { HasLegalBlock script.now }
    requires taken { n ≤ MAX_INPUT }
    ensures { option_map (λ (fault : WindowFault). (fault.end, fault.length)) result
        ≡ window_at script.now.blocks n }
{
    for block in script.blocks.as_slice() {
        let rule = FrameRule::of(block);
        match rule.window(n) {
            None => n = rule.whole(n),
            fault => return fault,
        }
    }
    None
}

/// The samples of all channels at the first place that has more than `MAX_CHECKED`, where the input
/// has n frames.
pub fn size_fault(script: &Script, mut n: u64) -> Option<u64>
    requires sound { IsSound script.now }
    requires taken { n ≤ MAX_INPUT }
    ensures { result ≡ size_at script.now.input.channels script.now.blocks n }
{
    let mut flow = input_flow(script.input);
    for block in script.blocks.as_slice() {
        let samples = n * u64::from(flow.channels);
        if samples > MAX_CHECKED as u64 {
            return Some(samples);
        }
        n = FrameRule::of(block).whole(n);
        flow = flow.after(block);
    }
    let samples = n * u64::from(flow.channels);
    (samples > MAX_CHECKED as u64).then_some(samples)
}
