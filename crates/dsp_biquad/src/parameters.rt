ghost use Rattle.std.specs.Prelude.{◌≡◌};
ghost use Rattle.dsp_biquad.specs.Sections.{coefficients_of, post_shift_of};

use dsp_defs::Block;

/// The post shift of a cascade.
pub fn post_shift_of(block: &Block) -> u8
    ensures { result ≡ post_shift_of block.now }
{
    match block {
        Block::Biquad { post_shift, .. } | Block::Biquad64 { post_shift, .. } => *post_shift,
        _ => 0,
    }
}

/// The coefficients of a cascade.
pub fn coefficients_of(block: &Block) -> &[i32]
    ensures { result.now ≡ coefficients_of block.now }
{
    match block {
        Block::Biquad { coefficients, .. } | Block::Biquad64 { coefficients, .. } => {
            coefficients.as_slice()
        }
        _ => &[],
    }
}
