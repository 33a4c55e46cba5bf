//! Callers of dsp_matrix.
use crate::refusals::{refuses_length, refuses_range};
use crate::same::same_count;
use dsp_defs::{List, Steps};
use dsp_matrix::{GroupOp, Grouped, GroupedMult, mat_add, mat_mult, mat_scale, mat_sub, mat_trans};
use std::alloc::Global;
use std::process::Abort;
use std::sync::ledger::Ledger;

/// A sum of each group, in blocks that cut the groups: the open one stays, and its rest is dropped.
fn sums<M: Ledger>(rt: &impl Abort, alloc: Global, steps: &mut Steps<M>) {
    let mut list = List::new(alloc);
    list.push(1).expect(rt, "memory");
    list.push(32767).expect(rt, "memory");
    let (rows, columns) = (1, 2);
    let op = GroupOp::Add {
        rows,
        columns,
        list,
    };
    let mut filter = Grouped::<i16>::new(alloc, op, 3).expect(rt, "a filter");
    let mut output = [7i16; 4];
    assert_same!(rt; filter.room(3), 4);
    assert_gives!(rt; filter.process(&[1, 2, 3], &mut output, steps), 2, output, [2, 32767, 7, 7]);
    assert_gives!(rt; filter.process(&[4, 5], &mut output, steps), 2, output, [4, 32767, 7, 7]);
    assert_same!(rt;
        (filter.finish(&mut output, steps), filter.is_ended()),
        (0, true)
    );
}

/// Transposed groups in Q31.
fn turned<M: Ledger>(rt: &impl Abort, alloc: Global, steps: &mut Steps<M>) {
    let (rows, columns) = (2, 2);
    let op = GroupOp::Trans { rows, columns };
    let mut filter = Grouped::<i32>::new(alloc, op, 4).expect(rt, "a filter");
    let mut output = [0i32; 8];
    assert_same!(rt; filter.room(4), 8);
    assert_gives!(rt;
        filter.process(&[1, 2, 3, 4], &mut output, steps),
        4, output, [1, 3, 2, 4, 0, 0, 0, 0]
    );
}

/// Products of groups of two, of which the open one is kept.
fn products<M: Ledger>(rt: &impl Abort, alloc: Global, steps: &mut Steps<M>) {
    let mut filter = GroupedMult::new(alloc, 1, 2, 1, &[16384, 16384], 3).expect(rt, "a filter");
    assert_same!(rt; filter.room(3), 2);
    let mut output = [7i16; 2];
    assert_gives!(rt; filter.process(&[2, 4, 6], &mut output, steps), 1, output, [3, 7]);
    let mut kept = [0i64; 1];
    same_count(rt, filter.kept_count(), 1);
    filter.keep(&mut kept);
    assert_same!(rt; kept, [6]);
}

/// Another filter goes on from the open group.
fn products_go_on<M: Ledger>(rt: &impl Abort, alloc: Global, steps: &mut Steps<M>) {
    let mut filter = GroupedMult::new(alloc, 1, 2, 1, &[16384, 16384], 2).expect(rt, "a filter");
    assert_same!(rt; (filter.fits(&[0, 0]), filter.fits(&[32768])), (false, false));
    let kept = [6i64];
    assert_holds!(rt; filter.fits(&kept));
    filter.restore(&kept);
    assert_same!(rt; filter.room(2), 2);
    let mut output = [3i16, 7];
    assert_gives!(rt; filter.process(&[8, 10], &mut output, steps), 1, output, [7, 7]);
}

/// The slice calls.
fn slices<M: Ledger>(rt: &impl Abort, steps: &mut Steps<M>) {
    {
        let mut out = [0i16; 4];
        mat_add(&[1, 2, 3, 32767], &[4, 3, 2, 1], &mut out);
        assert_same!(rt; out, [5, 5, 5, 32767]);
        mat_sub(&[1, 2, 3, -32768], &[4, 3, 2, 1], &mut out);
        assert_same!(rt; out, [-3, -1, 1, -32768]);
        mat_scale(&[4, 6, 8, -10], 16384, 1, &mut out, steps);
        assert_same!(rt; out, [4, 6, 8, -10]);
        mat_mult(
            &[1, 2, 3, 4],
            &[16384, 0, 0, 32767],
            2,
            2,
            2,
            &mut out,
            steps,
        );
        assert_same!(rt; out, [0, 1, 1, 3]);
    }
    let mut turned = [0i32; 6];
    mat_trans(&[1, 2, 3, 4, 5, 6], 2, 3, &mut turned);
    assert_same!(rt; turned, [1, 4, 2, 5, 3, 6]);
}

/// The calls that count their products.
pub(crate) fn counted<M: Ledger>(rt: &impl Abort, alloc: Global, steps: &mut Steps<M>) {
    sums(rt, alloc, steps);
    turned(rt, alloc, steps);
    products(rt, alloc, steps);
    products_go_on(rt, alloc, steps);
    slices(rt, steps);
}

/// What one channel of a product with 65 columns, 0 rows, .. is refused for.
#[test]
fn faults_of_products(rt: HostRuntime) {
    let alloc = rt.alloc();
    refuses_range(&rt, GroupedMult::new(alloc, 0, 65, 1, &[], 0), 0);
    refuses_range(&rt, GroupedMult::new(alloc, 1, 65, 0, &[], 0), 65);
    refuses_length(&rt, GroupedMult::new(alloc, 1, 2, 3, &[], 0), 0, 6);
    refuses_range(&rt, GroupedMult::new(alloc, 1, 1, 1, &[7], 0), 0);
}

#[test]
fn faults_of_scales(rt: HostRuntime) {
    let alloc = rt.alloc();
    let scale = GroupOp::Scale {
        rows: 1,
        columns: 1,
        fract: 32768,
        shift: 16,
    };
    refuses_range(&rt, Grouped::<i16>::new(alloc, scale, 0), 32768);
    let scale = GroupOp::Scale {
        rows: 1,
        columns: 1,
        fract: 1,
        shift: -1,
    };
    refuses_range(&rt, Grouped::<i32>::new(alloc, scale, 0), -1);
}
