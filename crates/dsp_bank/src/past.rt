//! What sections keep, in the first two and the last two frames of rows.
ghost use Rattle.std.specs.Prelude.{◌≡◌, ◌+◌, ◌*◌, ◌<◌, ◌≤◌, ◌∷◌, [], length, map};
ghost use Rattle.dsp_bank.specs.Rows.{Loaded, PutsPast, Saved};

use dsp_sat::Sample;

/// Writes the newest number of a channel and the one before it into the second and the first frame.
fn put_past<T: Sample>(newest: T, second: T, row: usize, channel: usize, rows: &mut [T])
    requires inside { channel < row }
    requires room { 2 * row ≤ length rows.old }
    ensures { PutsPast row channel (T.number newest) (T.number second)
        (map T.number rows.old) (map T.number rows.new) }
{
    rows[row + channel] = newest;
    rows[channel] = second;
}

/// Writes what a section keeps of each channel into the first two frames of its samples and of its
/// outputs.
pub(crate) fn load_past<T: Sample>(
    kept: &[T],
    sections: usize,
    section: usize,
    row: usize,
    frames: &mut [T],
    outputs: &mut [T],
)
    requires size { length kept.now ≡ row * sections * 4 }
    requires section { section < sections }
    requires frames { 2 * row ≤ length frames.old }
    requires outputs { 2 * row ≤ length outputs.old }
    ensures { Loaded sections section row (map T.number kept.now)
        (map T.number frames.old) (map T.number frames.new) (map T.number outputs.new) }
{
    for channel in 0..row {
        let at = (channel * sections + section) * 4;
        let four = &kept[at..at + 4];
        put_past(four[0], four[1], row, channel, frames);
        put_past(four[2], four[3], row, channel, outputs);
    }
}

/// Writes four samples.
fn put_four<T: Sample>(out: &mut [T], first: T, second: T, third: T, fourth: T)
    requires { length out.old ≡ 4 }
    ensures { map T.number out.new
        ≡ T.number first ∷ T.number second ∷ T.number third ∷ T.number fourth ∷ [] }
{
    out[0] = first;
    out[1] = second;
    out[2] = third;
    out[3] = fourth;
}

/// Keeps the last sample of each channel and the one before it, and the last two outputs, of rows of
/// `count` frames after the first two.
pub(crate) fn save_past<T: Sample>(
    frames: &[T],
    outputs: &[T],
    count: usize,
    row: usize,
    sections: usize,
    section: usize,
    kept: &mut [T],
)
    requires frames { length frames.now ≡ (count + 2) * row }
    requires outputs { length outputs.now ≡ (count + 2) * row }
    requires size { length kept.old ≡ row * sections * 4 }
    requires section { section < sections }
    ensures { Saved sections section row count (map T.number frames.now)
        (map T.number outputs.now) (map T.number kept.old) (map T.number kept.new) }
{
    for channel in 0..row {
        let at = (channel * sections + section) * 4;
        let newest = (count + 1) * row + channel;
        let second = count * row + channel;
        put_four(
            &mut kept[at..at + 4],
            frames[newest],
            frames[second],
            outputs[newest],
            outputs[second],
        );
    }
}
