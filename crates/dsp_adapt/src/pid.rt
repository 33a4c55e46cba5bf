use crate::{PidSample, PidWork};
use dsp_defs::MakeFault;
use dsp_filter::{StepFilter, check_block};
use dsp_sat::Sample;

/// A PID controller on one channel (`arm_pid_q15`, `arm_pid_q31`). It keeps three numbers: x1, x2 and y1.
pub type Pid<T> = StepFilter<T, PidWork<T>>;

/// A controller of samples in Q15.
pub type Pid15 = Pid<i16>;

/// A controller of samples in Q31.
pub type Pid31 = Pid<i32>;

/// What a controller has besides the calls of every `StepFilter`.
pub trait PidCalls<T: PidSample> {
    ghost use Rattle.std.specs.Prelude.{◌≡◌, ℤ, IfOk, IsOk, MatchOption};
    ghost use Rattle.dsp_defs.specs.Adaptive.{pid_gains};
    ghost use Rattle.dsp_unit.specs.Filter.{FilterState, IsNewFilter};
    ghost use Rattle.dsp_filter.specs.Making.{block_fault};
    ghost use Rattle.dsp_defs.specs.declared.script.Block.TheVariants.{Pid as PidBlock};

    ghost filter: { Self → FilterState };

    /// A controller that has taken nothing, from its gains, for blocks of at most `block` samples.
    /// `Range` where the block is not in 1..`MAX_SAMPLES`. No call takes memory.
    fn new(kp: T, ki: T, kd: T, block: usize) -> Result<Self, MakeFault>
        ensures made { IfOk result (λ pid. IsNewFilter
            (PidBlock (T.number kp) (T.number ki) (T.number kd)) T.format block (filter pid)) }
        ensures fault { MatchOption (block_fault block) (IsOk result) (λ e. result ≡ Err e) };

    /// The gains A0, A1 and A2.
    fn gains(&self) -> (T, T, T)
        ensures { (kp ki kd : ℤ) → (filter self.now).block ≡ PidBlock kp ki kd
            → (record {
              a0 = T.number result.0;
              a1 = T.number result.1;
              a2 = T.number result.2;
            }) ≡ pid_gains T.format kp ki kd };
}

impl<T: PidSample> PidCalls<T> for Pid<T> {
    ghost filter = { λ f. f };

    fn new(kp: T, ki: T, kd: T, block: usize) -> Result<Self, MakeFault> {
        check_block(block)?;
        // The proof has from these that the gains are numbers of the format.
        let _numbers = (kp.number(), ki.number(), kd.number());
        Ok(StepFilter::of_work(PidWork::new(kp, ki, kd), block))
    }

    fn gains(&self) -> (T, T, T) {
        self.work().gains()
    }
}
