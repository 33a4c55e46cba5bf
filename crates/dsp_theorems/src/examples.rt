//! Worked examples: a few samples through a block, a chain or a file.

mod blocks;
mod chains;
mod files;
mod headers;
mod kept;
mod scripts;
