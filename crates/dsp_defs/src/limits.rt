//! The limits of a script and of a run.

/// The greatest number of taps of a filter, and of entries of a list of coefficients.
pub const MAX_TAPS: usize = 16_384;

/// The greatest number of sections of a biquad cascade.
pub const MAX_SECTIONS: usize = 64;

/// The greatest number of sections of a lattice.
pub const MAX_LATTICE_SECTIONS: usize = 255;

/// The greatest delay of a sparse filter, in samples.
pub const MAX_DELAY: u32 = 65_535;

/// The greatest factor of a decimator or an interpolator.
pub const MAX_FACTOR: u8 = 255;

/// The greatest number of rows or columns of a matrix.
pub const MAX_MATRIX_SIDE: u8 = 64;

/// The greatest number of channels.
pub const MAX_CHANNELS: u8 = 16;

/// The greatest number of blocks in a script.
pub const MAX_BLOCKS: usize = 64;

/// The greatest number of `correlate` blocks in a script.
pub const MAX_CORRELATES: usize = 1;

/// The greatest number of tables in a script.
pub const MAX_TABLES: usize = 64;

/// The greatest number of bytes of a table's name.
pub const MAX_NAME: usize = 32;

/// The greatest version of the script language.
pub const MAX_VERSION: u8 = 2;

/// The greatest number of bytes of a script.
pub const MAX_SCRIPT: usize = 1_048_576;

/// The greatest block length, in frames.
pub const MAX_BLOCK_LENGTH: u32 = 65_536;

/// The block length, in frames, that the default is at least, where that is legal.
pub const DEFAULT_BLOCK_LENGTH: u32 = 256;

/// The greatest number of samples at any point of a chain per block, all channels together.
pub const MAX_SAMPLES: usize = 1_048_576;

/// The greatest number of samples that a correlation gathers on a channel.
pub const MAX_GATHERED: usize = 1_048_576;

/// The greatest number of input bytes taken in a run: 2^40.
pub const MAX_INPUT: u64 = 1_099_511_627_776;

/// The greatest RIFF size of a file whose length is known.
pub const MAX_RIFF_SIZE: u32 = 4_294_967_294;

/// The greatest number of frames that are generated.
pub const MAX_GENERATED: u32 = 16_777_216;

/// The rate that a generated WAVE file says, in frames a second.
pub const GENERATED_RATE: u32 = 48_000;

/// The greatest number of bytes of a saved state: 2^30.
pub const MAX_STATE: usize = 1_073_741_824;

/// The greatest number of samples, of all channels, at any place of a script that is checked.
pub const MAX_CHECKED: usize = 16_777_216;
