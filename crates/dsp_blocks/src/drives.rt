ghost use Rattle.std.specs.Prelude.{◌≡◌, ◌<◌, ◌≤◌, length, take, IsFalse};
ghost use Rattle.dsp_defs.specs.Block.{channels_after};
ghost use Rattle.dsp_defs.specs.Kept.{Fits};
ghost use Rattle.dsp_unit.specs.Unit.{frames_in, room_of, most_frames, IsSignal, IsOutput};
ghost use Rattle.dsp_unit.specs.Unit.{Accepts, Feeds, Finishes, Restores};

use crate::Drive;
use dsp_defs::Steps;
use dsp_unit::Unit;
use std::marker::PhantomData;
use std::sync::ledger::Ledger;

/// The next live frames.
pub struct Feed<L: Ledger> {
    marker: PhantomData<L>,
}

impl<L: Ledger> Drive for Feed<L> {
    type Given = i32;

    type Counter = Steps<L>;

    ghost Asks = { λ u frames room. (IsFalse u.ended) × (IsSignal u.format u.channels frames)
        × (length (frames_in u.channels frames) ≤ u.capacity)
        × (Accepts u (length (frames_in u.channels frames))) × (room_of u ≤ room) };

    ghost Does = { λ u v frames room out given before after. (IsFalse v.ended) × (given ≤ room)
        × (IsOutput u (most_frames u.block u.capacity) (take given out))
        × (Feeds u v (frames_in u.channels frames)
        (frames_in (channels_after u.channels u.block) (take given out)) before after) };

    fn drive<U: Unit>(
        unit: &mut U,
        given: &[i32],
        out: &mut [i32],
        counter: &mut Steps<L>,
    ) -> usize {
        unit.feed(given, out, counter)
    }
}

/// The next live frames where they are those that it takes: it answers 1, and else 0.
pub struct Pass<L: Ledger> {
    marker: PhantomData<L>,
}

impl<L: Ledger> Drive for Pass<L> {
    type Given = i32;

    type Counter = Steps<L>;

    ghost Asks = { λ u frames room. (IsFalse u.ended) × (IsSignal u.format u.channels frames)
        × (length (frames_in u.channels frames) ≤ u.capacity)
        × (Accepts u (length (frames_in u.channels frames))) };

    ghost Does = { λ u v frames room out passed before after. (IsFalse v.ended)
        × (passed ≡ 0 → (v ≡ u) × (after ≡ before))
        × (0 < passed → (IsOutput u (most_frames u.block u.capacity) frames)
        × (Feeds u v (frames_in u.channels frames)
        (frames_in (channels_after u.channels u.block) frames) before after)) };

    fn drive<U: Unit>(
        unit: &mut U,
        given: &[i32],
        _out: &mut [i32],
        counter: &mut Steps<L>,
    ) -> usize {
        usize::from(unit.pass(given, counter))
    }
}

/// The next frames of the tail.
pub struct Finish<L: Ledger> {
    marker: PhantomData<L>,
}

impl<L: Ledger> Drive for Finish<L> {
    type Given = ();

    type Counter = Steps<L>;

    ghost Asks = { λ u nothing room. room_of u ≤ room };

    ghost Does = { λ u v nothing room out given before after. (given ≤ room)
        × (IsOutput u (most_frames u.block u.capacity) (take given out))
        × (Finishes u v
        (frames_in (channels_after u.channels u.block) (take given out)) before after) };

    fn drive<U: Unit>(
        unit: &mut U,
        _given: &[()],
        out: &mut [i32],
        counter: &mut Steps<L>,
    ) -> usize {
        unit.finish(out, counter)
    }
}

/// Other numbers to keep.
pub struct Restore;

impl Drive for Restore {
    type Given = i64;

    type Counter = ();

    ghost Asks = { λ u numbers room. (IsFalse u.ended)
        × (Fits u.format u.channels u.block numbers) };

    ghost Does = { λ u v numbers room out given before after. Restores u v numbers };

    fn drive<U: Unit>(unit: &mut U, given: &[i64], _out: &mut [i32], _counter: &mut ()) -> usize {
        unit.restore(given);
        0
    }
}
