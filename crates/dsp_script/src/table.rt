//! The table of blocks: their words, and where they may stand.

ghost use Rattle.std.specs.Prelude.{◌≡◌};
ghost use Rattle.dsp_defs.specs.Table.{row_of, by_name, every_word, name_of, every_format, format_name};
ghost use Rattle.dsp_defs.specs.Table.{container_name, admits, is_correlate};
ghost use Rattle.dsp_defs.specs.Grammar.{word_of};

use dsp_defs::{Block, Container, Fmt, Formats, Word};

/// Where a block may stand: its name, its formats, and the channels that it wants, where it wants
/// a number of them.
#[derive(Clone, Copy, Debug)]
pub struct Row {
    pub name: &'static str,
    pub formats: Formats,
    pub channels: Option<u8>,
}

/// What the row of a block has, in the order of its fields. A block that works on each channel, or
/// that takes any number of them, wants none.
fn fields_of(word: Word) -> (&'static str, Formats, Option<u8>)
    ensures { (result.0.now ≡ (row_of word).name) × (result.1 ≡ (row_of word).formats)
        × (result.2 ≡ (row_of word).channels) }
{
    match word {
        Word::Offset => ("offset", Formats::All, None),
        Word::Negate => ("negate", Formats::All, None),
        Word::Abs => ("abs", Formats::All, None),
        Word::Scale => ("scale", Formats::All, None),
        Word::Shift => ("shift", Formats::All, None),
        Word::Clip => ("clip", Formats::All, None),
        Word::To => ("to", Formats::All, None),
        Word::Add => ("add", Formats::All, Some(2)),
        Word::Sub => ("sub", Formats::All, Some(2)),
        Word::Mult => ("mult", Formats::All, Some(2)),
        Word::Conj => ("cmplx_conj", Formats::NotQ7, Some(2)),
        Word::CmplxMult => ("cmplx_mult", Formats::NotQ7, Some(4)),
        Word::CmplxMultReal => ("cmplx_mult_real", Formats::OnlyQ15, Some(3)),
        Word::MagSquared => ("cmplx_mag_squared", Formats::NotQ7, Some(2)),
        Word::Fir => ("fir", Formats::All, None),
        Word::Sparse => ("sparse", Formats::All, None),
        Word::Decimate => ("decimate", Formats::NotQ7, None),
        Word::Interpolate => ("interpolate", Formats::NotQ7, None),
        Word::LatticeFir => ("lattice_fir", Formats::OnlyQ15, None),
        Word::LatticeIir => ("lattice_iir", Formats::NotQ7, None),
        Word::Biquad => ("biquad", Formats::NotQ7, None),
        Word::Biquad64 => ("biquad64", Formats::OnlyQ31, None),
        Word::Conv => ("conv", Formats::All, None),
        Word::ConvPartial => ("conv_partial", Formats::All, None),
        Word::Correlate => ("correlate", Formats::All, None),
        Word::Lms => ("lms", Formats::NotQ7, Some(2)),
        Word::Pid => ("pid", Formats::NotQ7, None),
        Word::MatAdd => ("mat_add", Formats::NotQ7, None),
        Word::MatSub => ("mat_sub", Formats::NotQ7, None),
        Word::MatScale => ("mat_scale", Formats::NotQ7, None),
        Word::MatTrans => ("mat_trans", Formats::NotQ7, None),
        Word::MatMult => ("mat_mult", Formats::OnlyQ15, None),
        Word::Power => ("power", Formats::All, None),
        Word::Dot => ("dot", Formats::All, Some(2)),
        Word::CmplxDot => ("cmplx_dot", Formats::NotQ7, Some(4)),
        Word::Max => ("max", Formats::All, None),
        Word::Min => ("min", Formats::All, None),
        Word::Route => ("route", Formats::All, None),
    }
}

/// The row of a block.
pub fn row_of(word: Word) -> Row
    ensures name { result.name.now ≡ (row_of word).name }
    ensures formats { result.formats ≡ (row_of word).formats }
    ensures channels { result.channels ≡ (row_of word).channels }
{
    let (name, formats, channels) = fields_of(word);
    Row {
        name,
        formats,
        channels,
    }
}

// ---- words

const WORDS: [Word; 38] = [
    Word::Offset,
    Word::Negate,
    Word::Abs,
    Word::Scale,
    Word::Shift,
    Word::Clip,
    Word::To,
    Word::Add,
    Word::Sub,
    Word::Mult,
    Word::Conj,
    Word::CmplxMult,
    Word::CmplxMultReal,
    Word::MagSquared,
    Word::Fir,
    Word::Sparse,
    Word::Decimate,
    Word::Interpolate,
    Word::LatticeFir,
    Word::LatticeIir,
    Word::Biquad,
    Word::Biquad64,
    Word::Conv,
    Word::ConvPartial,
    Word::Correlate,
    Word::Lms,
    Word::Pid,
    Word::MatAdd,
    Word::MatSub,
    Word::MatScale,
    Word::MatTrans,
    Word::MatMult,
    Word::Power,
    Word::Dot,
    Word::CmplxDot,
    Word::Max,
    Word::Min,
    Word::Route,
];

/// The block's word that a run is.
#[tactic(auto, unfolding(dsp_defs::specs::Table::by_name))]
pub fn word_by_name(run: &[u8]) -> Option<Word>
    ensures { result ≡ by_name name_of every_word run.now }
{
    WORDS
        .iter()
        .copied()
        .find(|word| run == row_of(*word).name.as_bytes())
}

pub fn is_correlate(word: Word) -> bool
    ensures { result ≡ is_correlate word }
{
    matches!(word, Word::Correlate)
}

/// The word that begins the block.
pub fn word_of(block: &Block) -> Word
    ensures { result ≡ word_of block.now }
{
    match block {
        Block::Offset { .. } => Word::Offset,
        Block::Negate => Word::Negate,
        Block::Abs => Word::Abs,
        Block::Scale { .. } => Word::Scale,
        Block::Shift { .. } => Word::Shift,
        Block::Clip { .. } => Word::Clip,
        Block::To { .. } => Word::To,
        Block::Add => Word::Add,
        Block::Sub => Word::Sub,
        Block::Mult => Word::Mult,
        Block::Conj => Word::Conj,
        Block::CmplxMult => Word::CmplxMult,
        Block::CmplxMultReal => Word::CmplxMultReal,
        Block::MagSquared => Word::MagSquared,
        Block::Fir { .. } => Word::Fir,
        Block::Sparse { .. } => Word::Sparse,
        Block::Decimate { .. } => Word::Decimate,
        Block::Interpolate { .. } => Word::Interpolate,
        Block::LatticeFir { .. } => Word::LatticeFir,
        Block::LatticeIir { .. } => Word::LatticeIir,
        Block::Biquad { .. } => Word::Biquad,
        Block::Biquad64 { .. } => Word::Biquad64,
        Block::Conv { .. } => Word::Conv,
        Block::ConvPartial { .. } => Word::ConvPartial,
        Block::Correlate { .. } => Word::Correlate,
        Block::Lms { .. } => Word::Lms,
        Block::Pid { .. } => Word::Pid,
        Block::MatAdd { .. } => Word::MatAdd,
        Block::MatSub { .. } => Word::MatSub,
        Block::MatScale { .. } => Word::MatScale,
        Block::MatTrans { .. } => Word::MatTrans,
        Block::MatMult { .. } => Word::MatMult,
        Block::Power => Word::Power,
        Block::Dot => Word::Dot,
        Block::CmplxDot => Word::CmplxDot,
        Block::Max => Word::Max,
        Block::Min => Word::Min,
        Block::Route { .. } => Word::Route,
    }
}

const FORMATS: [Fmt; 3] = [Fmt::Q7, Fmt::Q15, Fmt::Q31];

pub fn format_name(format: Fmt) -> &'static str
    ensures { result.now ≡ format_name format }
{
    match format {
        Fmt::Q7 => "q7",
        Fmt::Q15 => "q15",
        Fmt::Q31 => "q31",
    }
}

/// The format that a run names.
#[tactic(auto, unfolding(dsp_defs::specs::Table::by_name))]
pub fn format_by_name(run: &[u8]) -> Option<Fmt>
    ensures { result ≡ by_name format_name every_format run.now }
{
    FORMATS
        .iter()
        .copied()
        .find(|format| run == format_name(*format).as_bytes())
}

/// The containers of an input.
pub const INPUT_CONTAINERS: [Container; 2] = [Container::Wave, Container::Raw];

/// The containers of an output.
pub const OUTPUT_CONTAINERS: [Container; 3] = [Container::Wave, Container::Wavex, Container::Raw];

pub fn container_name(container: Container) -> &'static str
    ensures { result.now ≡ container_name container }
{
    match container {
        Container::Wave => "wave",
        Container::Wavex => "wavex",
        Container::Raw => "raw",
    }
}

/// The container that a run names, among those that may stand there.
#[tactic(auto, unfolding(dsp_defs::specs::Table::by_name))]
pub fn container_by_name(containers: &[Container], run: &[u8]) -> Option<Container>
    ensures { result ≡ by_name container_name containers.now run.now }
{
    containers
        .iter()
        .copied()
        .find(|container| run == container_name(*container).as_bytes())
}

// ---- where a block may stand

/// A block with these formats has a form in this one.
pub fn admits(formats: Formats, format: Fmt) -> bool
    ensures { result ≡ admits formats format }
{
    match formats {
        Formats::All => true,
        Formats::NotQ7 => matches!(format, Fmt::Q15 | Fmt::Q31),
        Formats::OnlyQ15 => matches!(format, Fmt::Q15),
        Formats::OnlyQ31 => matches!(format, Fmt::Q31),
    }
}
