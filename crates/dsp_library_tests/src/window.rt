//! Callers of dsp_window.
use dsp_window::Window;

#[test]
fn lends_the_past_and_the_block(rt: HostRuntime) {
    let mut window = Window::<i16>::new(rt.alloc(), 2, 4).expect(&rt, "memory");
    window.push_block(&[5, 6, 7]);
    window.push_block(&[8]);
    assert_same!(&rt; window.slice(), [6, 7, 8].as_slice());
    let mut kept = [0; 2];
    window.keep(&mut kept);
    assert_same!(&rt; kept, [7, 8]);
}

#[test]
fn goes_on_from_kept_samples(rt: HostRuntime) {
    let mut window = Window::<i16>::new(rt.alloc(), 2, 4).expect(&rt, "memory");
    assert_same!(&rt; (window.fits(&[40000, 0]), window.fits(&[1])), (false, false));
    assert_holds!(&rt; window.fits(&[7, 8]));
    window.restore(&[7, 8]);
    window.push_block(&[9]);
    assert_same!(&rt; window.slice(), [7, 8, 9].as_slice());
}

#[test]
fn has_no_past_and_no_samples(rt: HostRuntime) {
    let mut window = Window::<i16>::new(rt.alloc(), 0, 1).expect(&rt, "memory");
    window.push_block(&[]);
    assert_same!(&rt; window.slice(), [].as_slice());
}
