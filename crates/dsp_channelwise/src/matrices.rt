//! A channel in groups, each of which becomes a matrix.
#![tactic(auto, using(crate::proofs::MatrixBlocks::matrices))]

ghost use Rattle.std.specs.Prelude.{IfSome, Some, ◌^◌, ◌≡◌, ◌≢◌, ◌+◌, ◌*◌, ◌/◌, ◌%◌, ◌<◌, ◌≤◌, ◌*ℤ◌, ℕ, All};
ghost use Rattle.std.specs.Prelude.{FitsSigned, IfOk, length, take, drop};
ghost use Rattle.dsp_defs.specs.Formats.{word};
ghost use Rattle.dsp_defs.specs.Signal.{sample};
ghost use Rattle.dsp_defs.specs.Block.{whole_channel};
ghost use Rattle.dsp_defs.specs.Cost.{whole_block_cost};
ghost use Rattle.dsp_defs.specs.Matrix.{each_group};
ghost use Rattle.dsp_defs.specs.declared.format.Fmt.TheVariants.{Q7};
ghost use Rattle.dsp_channelwise.specs.Groups.{IsMatrixBlock, element, element_cost};

use dsp_defs::{Block, Fmt, List, Steps};
use dsp_exact::{Formula, Terms, add, close, product, sample, scale, sub, sum_below, values};
use std::alloc::{AllocError, Global};
use std::sync::ledger::Ledger;

/// The terms a[j,k] * m[k,l] of the product's element i.
#[derive(Clone, Copy)]
struct RowTimesColumn<'a> {
    a: &'a [i32],
    matrix: &'a List,
    columns: u8,
    given: u8,
    i: usize,
}

impl<'a> Terms for RowTimesColumn<'a> {
    ghost Has = { λ t k. (1 ≤ t.given) × (k < t.columns) × (t.i < 65536) };

    ghost term = { λ t k. sample t.a.now (t.i / t.given * t.columns + k)
        *ℤ sample t.matrix.now (k * t.given + t.i % t.given) };

    fn term<L: Ledger>(&self, k: usize, steps: &mut Steps<L>) -> i128 {
        let (columns, given) = (usize::from(self.columns), usize::from(self.given));
        let x = sample(self.a, self.i / given * columns + k);
        let m = sample(self.matrix.as_slice(), k * given + self.i % given);
        product(x, m, steps)
    }
}

/// Element i of what a group becomes.
fn element<L: Ledger>(format: Fmt, block: &Block, a: &[i32], i: usize, steps: &mut Steps<L>) -> i32
    requires matrix { IsMatrixBlock format block.now }
    requires wide { format ≢ Q7 }
    requires format { All (FitsSigned (word format)) a.now }
    requires inside { i < 65536 }
    ensures value { result ≡ element format block.now a.now i }
    ensures fits { FitsSigned (word format) result }
    ensures products { steps.new.multiplies ≤ steps.old.multiplies + element_cost block.now }
{
    let x = sample(a, i);
    match block {
        Block::MatAdd { matrix, .. } => add(format, x, sample(matrix.as_slice(), i)),
        Block::MatSub { matrix, .. } => sub(format, x, sample(matrix.as_slice(), i)),
        Block::MatScale { fract, shift, .. } => scale(format, *fract, *shift, x, steps),
        Block::MatTrans { rows, columns } => {
            let (rows, columns) = (usize::from(*rows), usize::from(*columns));
            sample(a, i % rows * columns + i / rows)
        }
        Block::MatMult {
            columns,
            given,
            matrix,
            ..
        } => {
            let terms = RowTimesColumn {
                a,
                matrix,
                columns: *columns,
                given: *given,
                i,
            };
            close(Fmt::Q15, sum_below(usize::from(*columns), &terms, steps))
        }
        _ => 0,
    }
}

/// What each whole group of `taken` samples becomes, `given` samples each.
#[derive(Clone, Copy)]
struct Groups<'a> {
    format: Fmt,
    block: &'a Block,
    taken: usize,
    given: usize,
    x: &'a [i32],
}

impl<'a> Formula for Groups<'a> {
    ghost format = { λ f. f.format };

    ghost Gives = { λ f i. IsMatrixBlock f.format f.block.now × (f.format ≢ Q7)
        × (i < length f.x.now / f.taken * f.given)
        × (1 ≤ f.taken) × (1 ≤ f.given) × (f.given < 65536) × All (FitsSigned (word f.format)) f.x.now };

    ghost at = { λ f i. element f.format f.block.now
        (take f.taken (drop (i / f.given * f.taken) f.x.now)) (i % f.given) };

    ghost cost = { λ f. element_cost f.block.now };

    fn at<L: Ledger>(&self, i: usize, steps: &mut Steps<L>) -> i32 {
        let start = i / self.given * self.taken;
        let group = &self.x[start..start + self.taken];
        element(self.format, self.block, group, i % self.given, steps)
    }
}

/// The samples that a group takes and gives.
fn sizes_of(format: Fmt, block: &Block) -> (usize, usize)
    requires { IsMatrixBlock format block.now }
    ensures whole { whole_channel format block.now
        ≡ Some (each_group result.0 result.1 (element format block.now)) }
    ensures some { (1 ≤ result.0) × (1 ≤ result.1) }
    ensures few { result.1 < 65536 }
    ensures cost { (n : ℕ) → n / result.0 * result.1 * element_cost block.now
        ≤ whole_block_cost format 1 block.now n }
{
    match block {
        Block::MatAdd { rows, columns, .. }
        | Block::MatSub { rows, columns, .. }
        | Block::MatScale { rows, columns, .. }
        | Block::MatTrans { rows, columns } => {
            let size = usize::from(*rows) * usize::from(*columns);
            (size, size)
        }
        Block::MatMult {
            rows,
            columns,
            given,
            ..
        } => (
            usize::from(*rows) * usize::from(*columns),
            usize::from(*rows) * usize::from(*given),
        ),
        _ => (1, 1),
    }
}

/// What a matrix block gives of a channel: a matrix for each whole group of samples, row by row; each in
/// the format of the samples. The source is `arm_mat_add_q15`, `arm_mat_sub_q15`, `arm_mat_scale_q15`,
/// `arm_mat_trans_q15`, `arm_mat_mult_q15` of CMSIS-DSP and those in `q31`.
pub fn matrix<L: Ledger>(
    alloc: Global,
    format: Fmt,
    block: &Block,
    x: &[i32],
    steps: &mut Steps<L>,
) -> Result<Vec<i32>, AllocError>
    requires matrix { IsMatrixBlock format block.now }
    requires wide { format ≢ Q7 }
    requires few { length x.now ≤ 2 ^ 32 }
    requires format { All (FitsSigned (word format)) x.now }
    ensures values { IfSome (whole_channel format block.now) (λ f. IfOk result (λ y. y.items ≡ f x.now)) }
    ensures fits { IfOk result (λ y. All (FitsSigned (word format)) y.items) }
    ensures products { steps.new.multiplies ≤ steps.old.multiplies
        + whole_block_cost format 1 block.now (length x.now) }
{
    let (taken, given) = sizes_of(format, block);
    let groups = Groups {
        format,
        block,
        taken,
        given,
        x,
    };
    values(alloc, x.len() / taken * given, &groups, steps)
}
