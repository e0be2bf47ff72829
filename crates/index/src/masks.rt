// A mask for each band: bit d is set where number d touches it.
ghost use Rattle.std.specs.Prelude.{◌≡◌, true, ◌+◌, ◌<◌, ◌≤◌};
ghost use Rattle.std.specs.Int.Signed.{le_z};
ghost use Rattle.index.specs.Axis.{low_of, high_of, InOrder, OnAxis, Spans, Widened, Marked, listed as listed_by};

use crate::bands::{Axis, BANDS, band};
use crate::{Bounds, Column};
use districts::NUMBERS;

// Sets d's bit from one band to another.
fn mark(masks: &mut [u64; BANDS], from: usize, to: usize, d: usize)
    requires { (from ≤ to) × (to < 64) × (d < 64) }
    ensures { Widened masks.old d from to masks.new }
{
    for mask in &mut masks[from..=to] {
        *mask |= 1 << d;
    }
}

// The bands that number d touches, if it is used.
fn mark_number(
    masks: &mut [u64; BANDS],
    bounds: &[Bounds; NUMBERS],
    column: &Column,
    axis: Axis,
    d: usize,
)
    requires d_bound { d < 64 }
    requires d_value { le_z (low_of bounds.now d) (high_of bounds.now d) ≡ true }
    requires spans { Spans bounds.now axis }
    requires marked { Marked bounds.now column.now.runs.list.now axis d masks.old }
    ensures { Marked bounds.now column.now.runs.list.now axis (d + 1) masks.new }
{
    if 0 < column.runs.size(d) {
        let both = bounds[d];
        let from = band(axis, both.low);
        let to = band(axis, both.high);
        mark(masks, from, to, d);
    }
}

pub fn all(masks: &mut [u64; BANDS], bounds: &[Bounds; NUMBERS], column: &Column, axis: Axis)
    requires spans { Spans bounds.now axis }
    requires by_index { InOrder bounds.now 64 }
    ensures { Marked bounds.now column.now.runs.list.now axis 64 masks.new }
{
    *masks = [0; BANDS];
    for d in 0..NUMBERS {
        mark_number(masks, bounds, column, axis, d);
    }
}

// The mask of the band that v is in; none where v is not on the axis.
pub fn listed(masks: &[u64; BANDS], axis: Axis, v: i32) -> u64
    requires { OnAxis axis }
    ensures { result ≡ listed_by masks.now axis v }
{
    if (v < axis.low) | (axis.high < v) {
        return 0;
    }
    masks[band(axis, v)]
}
