//! The numbers of a `fmt ` chunk, without an extension and with one.

/// The bytes of a `fmt ` chunk without an extension.
pub(crate) const PLAIN_SIZE: usize = 16;

/// The bytes of one with the extension.
pub(crate) const EXTENSIBLE_SIZE: usize = 40;

/// The format tag of linear PCM.
pub(crate) const PCM_TAG: u16 = 1;

/// The format tag that says that the extension has the format.
pub(crate) const EXTENSIBLE_TAG: u16 = 0xFFFE;

/// What stands for linear PCM in the extension.
pub(crate) const PCM_SUBFORMAT: [u8; 16] = [
    1, 0, 0, 0, 0, 0, 0x10, 0, 0x80, 0, 0, 0xAA, 0, 0x38, 0x9B, 0x71,
];
