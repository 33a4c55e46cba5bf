//! Laws of conversion, each the contract of a function that does nothing.

ghost use Rattle.dsp_defs.specs.Au.{KeepsSignal};
ghost use Rattle.dsp_defs.specs.declared.au.Direction.{Direction};

/// A conversion keeps the signal: the signal of the file in the other form is that of the source, and converting it
/// back gives the signal again; for every source of bytes with a good header and all the frames that it declares,
/// whose length is not known or fits a WAVE file.
pub fn conversion_keeps_the_signal()
    ensures { (direction : Direction) → KeepsSignal direction }
{}
