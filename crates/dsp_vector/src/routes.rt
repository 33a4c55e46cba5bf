ghost use Rattle.std.specs.Prelude.{◌≡◌, ◌≢◌, ◌≤◌, ◌<◌, ◌+◌, ◌*◌, ℕ, All, length, nat_abs};
ghost use Rattle.dsp_defs.specs.Signal.{sample};

/// Writes one channel of frames as another of frames of `width` channels.
fn copy_channel(
    frames: &[i32],
    count: usize,
    channels: usize,
    from: usize,
    out: &mut [i32],
    width: usize,
    to: usize,
)
    requires from { from < channels }
    requires to { to < width }
    requires whole { length frames.now ≡ count * channels }
    requires room { count * width ≤ length out.old }
    ensures here { (n : ℕ) → n < count → sample out.new (n * width + to)
        ≡ sample frames.now (n * channels + from) }
    ensures elsewhere { (n c : ℕ) → c < width → c ≢ to
        → sample out.new (n * width + c) ≡ sample out.old (n * width + c) }
{
    for n in 0..count {
        out[n * width + to] = frames[n * channels + from];
    }
}

/// Writes frames of the channels that the list names, in that order.
pub(crate) fn route_frames(
    list: &[i32],
    frames: &[i32],
    count: usize,
    channels: usize,
    out: &mut [i32],
)
    requires inside { All (λ c. nat_abs c < channels) list.now }
    requires whole { length frames.now ≡ count * channels }
    requires room { count * length list.now ≤ length out.old }
    ensures { (n c : ℕ) → n < count → c < length list.now → sample out.new (n * length list.now + c)
        ≡ sample frames.now (n * channels + nat_abs (sample list.now c)) }
{
    for (to, channel) in list.iter().enumerate() {
        let from = channel.unsigned_abs() as usize;
        copy_channel(frames, count, channels, from, out, list.len(), to);
    }
}
