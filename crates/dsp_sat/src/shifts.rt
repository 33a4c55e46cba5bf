ghost use Rattle.std.specs.Prelude.{◌≡◌, ◌≤◌, ◌≤ℤ◌, pos, negsuc};
ghost use Rattle.dsp_defs.specs.Numbers.{floor_shift};
ghost use Rattle.dsp_defs.specs.Elementwise.{shift_in};

/// The number divided by 2^s, rounded down.
pub fn floor_shift(v: i128, s: u32) -> i128
    requires { s ≤ 126 }
    ensures { result ≡ floor_shift v s }
{
    v >> s
}

/// `value` shifted up and saturated, or shifted down.
pub fn saturating_shift(value: i32, places: i32) -> i32
    requires low { negsuc 30 ≤ℤ places }
    requires high { places ≤ℤ pos 31 }
    ensures { result ≡ shift_in 32 value places }
{
    if places < 0 {
        value >> -places
    } else if value > i32::MAX >> places {
        i32::MAX
    } else {
        value.max(i32::MIN >> places) << places
    }
}
