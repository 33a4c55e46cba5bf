//! Worked examples and outside vectors of the definitions, each a theorem that the checker computes.
#![tactic(auto, unfolding(dsp_defs::specs::Numbers::int_wrap, dsp_defs::specs::Block::frames_in))]

mod examples;
mod vectors;
