ghost use Rattle.std.specs.Prelude.{◌≡◌, ◌/◌, ◌<◌};

/// How many frames so many samples of so many channels are. Of one channel and of two it makes no
/// division, which would take as long as a pass over a short block.
pub fn frame_count(samples: usize, channels: usize) -> usize
    requires { 0 < channels }
    ensures { result ≡ samples / channels }
{
    match channels {
        1 => samples,
        2 => samples / 2,
        _ => samples / channels,
    }
}
