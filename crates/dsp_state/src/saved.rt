use dsp_defs::Script;
use std::marker::Model;

/// A state that was loaded: a script, how many frames it has taken, and the numbers that its blocks
/// keep of them.
#[derive(Drop)]
pub struct Saved {
    pub(crate) script: Script,
    pub(crate) frames: u32,
    pub(crate) numbers: Vec<i64>,
}

impl Model for Saved {
    ghost use Rattle.dsp_state.specs.SavedState.{SavedState, IsSaved};

    ghost Value = { SavedState };

    ghost view = { λ s. record { script = s.script; frames = s.frames; numbers = s.numbers.items } };

    ghost invariant = { λ s. IsSaved
        (record { script = s.script; frames = s.frames; numbers = s.numbers.items }) };
}

impl Saved {
    ghost use Rattle.std.specs.Prelude.{◌≡◌};

    /// The script.
    pub fn script(&self) -> &Script
        ensures { result.now ≡ self.now.script }
    {
        &self.script
    }

    /// How many frames it has taken.
    pub fn frames(&self) -> u32
        ensures { result ≡ self.now.frames }
    {
        self.frames
    }

    /// The numbers that its blocks keep of them.
    pub fn numbers(&self) -> &[i64]
        ensures { result.now ≡ self.now.numbers }
    {
        &self.numbers
    }

    /// All three, which it gives away.
    pub fn into_parts(self) -> (Script, u32, Vec<i64>)
        ensures script { result.0 ≡ self.script }
        ensures frames { result.1 ≡ self.frames }
        ensures numbers { result.2.items ≡ self.numbers }
    {
        (self.script, self.frames, self.numbers)
    }
}
