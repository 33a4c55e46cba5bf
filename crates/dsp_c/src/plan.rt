ghost use Rattle.std.specs.Prelude.{◌≡◌, ◌≤◌, IfErr, IfOk};
ghost use Rattle.dsp_session.specs.Session.{IsNew};
ghost use Rattle.dsp_c.specs.Plan.{FailsToPlan, IsPlanned, plan_of};

use crate::answer::{number_of, saturated};
use dsp_defs::MAX_INPUT;
use dsp_host::{Refusal, open};
use dsp_script::{cost, frames_given, output_flow, unit};
use dsp_session::Session;
use dsp_unit::AnyUnit;
use std::alloc::Global;

/// What a script is, and what a run of it does.
#[repr(C)]
#[derive(Clone, Copy)]
pub struct Plan {
    pub block: u64,
    pub unit: u64,
    pub frame_bytes: u64,
    pub given_bytes: u64,
    pub room: u64,
    pub measures: u64,
    pub frames_given: u64,
    pub kept: u64,
    pub cost_low: u64,
    pub cost_high: u64,
    pub format: u32,
    pub channels: u32,
    pub output_format: u32,
    pub output_channels: u32,
}

/// The plan of a session, for so many frames.
fn plan_of<U: AnyUnit + Drop>(session: &Session<U>, frames: u64) -> Plan
    requires new { IsNew session.now.banked session.now.script session.now.block session.now }
    requires few { frames ≤ MAX_INPUT }
    ensures { result ≡ plan_of session.now.script session.now.block frames }
{
    let script = session.script();
    let flow = output_flow(script);
    let products = cost(script, frames);
    Plan {
        block: session.block() as u64,
        unit: unit(script),
        frame_bytes: session.frame_bytes() as u64,
        given_bytes: session.given_bytes() as u64,
        room: session.room() as u64,
        measures: session.measures() as u64,
        frames_given: frames_given(script, frames),
        kept: saturated(session.kept_count_of(frames)),
        cost_low: (products % (1 << 64)) as u64,
        cost_high: (products / (1 << 64)) as u64,
        format: number_of(script.input.format),
        channels: u32::from(script.input.channels),
        output_format: number_of(flow.format),
        output_channels: u32::from(flow.channels),
    }
}

/// The plan of a text, for so many frames.
pub fn planned<U: AnyUnit + Drop>(
    alloc: Global,
    script: &[u8],
    block: u64,
    frames: u64,
) -> Result<Plan, Refusal>
    ensures ok { IfOk result (IsPlanned script.now block frames) }
    ensures err { IfErr result (λ why. FailsToPlan why script.now block frames) }
{
    if frames > MAX_INPUT {
        return Err(Refusal::Input { limit: MAX_INPUT });
    }
    match open::<U>(alloc, script, block) {
        Ok(session) => Ok(plan_of(&session, frames)),
        Err(fault) => Err(Refusal::Open(fault)),
    }
}
