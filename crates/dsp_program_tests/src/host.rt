//! A host program that has its samples in memory feeds a session by hand, with no ports.
ghost use Rattle.std.specs.Prelude.{◌≡◌, ◌+◌, ◌*◌, ◌<◌, ◌≤◌, IfSome, IsFalse, length};
ghost use Rattle.dsp_session.specs.Session.{IsReady, SameSession, frame_bytes, input_coding};

use crate::same::same_count;
use dsp_blocks::BlockUnit;
use dsp_defs::{Fmt, Measure, Script, Steps};
use dsp_ports::Piece;
use dsp_script::{legal, parse};
use dsp_session::Session;
use dsp_unit::AnyUnit;
use dsp_wave::{Coding, coding_of, width};
use std::alloc::Global;
use std::marker::Brand;
use std::process::Abort;
use std::sync::ledger::{Blank, Ledger};

/// The script of a text, where it can run in blocks of two frames.
fn script_of(alloc: Global, text: &[u8]) -> Option<Script>
    ensures { IfSome result (λ script. IsReady script 2) }
{
    let script = parse(alloc, text).ok()?;
    if legal(&script, 2) {
        Some(script)
    } else {
        None
    }
}

/// The bytes of a frame of the input, where its samples have all bits of their format.
fn frame_size(script: &Script) -> usize
    ensures { result ≡ frame_bytes script.now (input_coding script.now) }
{
    let coding = coding_of(script.input.kind.container(), script.input.format);
    usize::from(script.input.channels) * width(coding)
}

/// How many frames of so many bytes these are, where they are whole, and two at most.
fn frames_of(rt: &impl Abort, bytes: &[u8], frame: usize) -> usize
    ensures some { 0 < frame }
    ensures whole { length bytes.now ≡ result * frame }
    ensures few { result ≤ 2 }
{
    assert_holds!(rt; frame > 0);
    let count = bytes.len() / frame;
    assert_holds!(rt; count <= 2);
    assert_holds!(rt; count * frame == bytes.len());
    count
}

/// Feeds the session one or two frames of so many bytes, and compares what it gives of them.
fn feed_frames<U: AnyUnit + Drop, L: Ledger>(
    rt: &impl Abort,
    session: &mut Session<U>,
    frame: usize,
    bytes: &[u8],
    wanted: &[u8],
    steps: &mut Steps<L>,
)
    requires block { session.old.block ≡ 2 }
    requires running { IsFalse session.old.chain.ended }
    requires few { session.old.chain.frames < 100 }
    requires frame { frame ≡ frame_bytes session.old.script session.old.coding }
    ensures same { SameSession session.old session.new }
    ensures running { IsFalse session.new.chain.ended }
    ensures frames { session.new.chain.frames ≤ session.old.chain.frames + 2 }
{
    frames_of(rt, bytes, frame);
    let Ok(given) = session.feed(bytes, steps) else {
        panic!(rt; "no block gathers");
    };
    assert_same!(rt; given, wanted.len());
    out_is(rt, session, wanted);
}

/// Compares the bytes that the last call gave.
fn out_is<U: AnyUnit + Drop>(rt: &impl Abort, session: &Session<U>, wanted: &[u8]) {
    let mut room = [0; 64];
    let out = session.out();
    let size = out.size();
    assert_holds!(rt; size <= 64);
    out.write_to(&mut room[..size]);
    assert_same!(rt; &room[..size], wanted);
}

/// Ends the input, and compares the pieces of the tail.
fn end_gives<U: AnyUnit + Drop, L: Ledger>(
    rt: &impl Abort,
    session: &mut Session<U>,
    pieces: &[&[u8]],
    steps: &mut Steps<L>,
) {
    for piece in pieces {
        assert_same!(rt; session.end(steps), piece.len());
        out_is(rt, session, piece);
    }
    assert_same!(rt; session.end(steps), 0);
}

/// Compares the first measure, of the script's third block, with a sum of squares.
fn power_is<U: AnyUnit + Drop>(rt: &impl Abort, session: &Session<U>, value: i64) {
    same_count(rt, session.measures(), 1);
    let power = Measure::Power {
        number: 3,
        channel: 0,
        value,
    };
    assert_same!(rt; session.measure(0), power);
}

/// The samples 1000, -1000 and 400 are halved to x. Of that come a half of x(n) and of x(n-2), and a
/// quarter of x(n-3): 250, -250, 350, and behind the last sample -125, -25, 50.
fn feed_three_samples<U: AnyUnit + Drop, L: Ledger>(
    rt: &impl Abort,
    session: &mut Session<U>,
    frame: usize,
    steps: &mut Steps<L>,
)
    requires block { session.old.block ≡ 2 }
    requires running { IsFalse session.old.chain.ended }
    requires few { session.old.chain.frames < 90 }
    requires frame { frame ≡ frame_bytes session.old.script session.old.coding }
{
    feed_frames(
        rt,
        session,
        frame,
        b"\xE8\x03\x18\xFC",
        b"\xFA\x00\x06\xFF",
        steps,
    );
    feed_frames(rt, session, frame, b"\x90\x01", b"\x5E\x01", steps);
    power_is(rt, session, 247_500);
    end_gives(rt, session, &[b"\x83\xFF\xE7\xFF", b"\x32\x00"], steps);
    power_is(rt, session, 266_250);
}

/// A session is made of a text, and fed.
fn three_samples_and_a_tail<U: AnyUnit + Drop, L: Ledger>(
    rt: &impl Abort,
    alloc: Global,
    blank: Blank,
)
    requires name { blank.name ≡ L.name }
    requires parts { blank.parts ≡ 2 }
    requires ledger_parts { L.parts ≡ 2 }
{
    let mut steps = Steps::<L>::new(blank);
    let text =
        b"dspfx 1 input raw q15 1 8000 fir {16384} conv {16384 0 16384 8192} power output raw";
    let script = script_of(alloc, text).expect(rt, "a script");
    let frame = frame_size(&script);
    let mut session = Session::<U>::new(alloc, script, 2).expect(rt, "memory");
    feed_three_samples(rt, &mut session, frame, &mut steps);
}

/// Samples of 24 bits, 512 and -2, and then the ends of their range, are 256 times as much in Q31, and
/// are halved.
fn samples_of_24_bits<U: AnyUnit + Drop, L: Ledger>(rt: &impl Abort, alloc: Global, blank: Blank)
    requires name { blank.name ≡ L.name }
    requires parts { blank.parts ≡ 2 }
    requires ledger_parts { L.parts ≡ 2 }
{
    let mut steps = Steps::<L>::new(blank);
    let text = b"dspfx 1 input wave q31 2 fir {1073741824} output raw";
    let script = script_of(alloc, text).expect(rt, "a script");
    assert_holds!(rt; script.input.format == Fmt::Q31);
    let mut session = Session::<U>::new(alloc, script, 2).expect(rt, "memory");
    session.set_coding(Coding::Wave24);
    let frame = session.frame_bytes();
    feed_frames(
        rt,
        &mut session,
        frame,
        b"\x00\x02\x00\xFE\xFF\xFF\xFF\xFF\x7F\x00\x00\x80",
        b"\x00\x00\x01\x00\x00\xFF\xFF\xFF\x80\xFF\xFF\x3F\x00\x00\x00\xC0",
        &mut steps,
    );
    end_gives(rt, &mut session, &[], &mut steps);
}

#[test]
fn a_session_is_fed_by_hand(rt: HostRuntime) {
    three_samples_and_a_tail::<BlockUnit, Brand>(&rt, rt.alloc(), Blank::new(2));
}

#[test]
fn a_session_takes_the_coding_of_a_header(rt: HostRuntime) {
    samples_of_24_bits::<BlockUnit, Brand>(&rt, rt.alloc(), Blank::new(2));
}
