// The calls for programs in other languages: numbers and lent lists only, so each call first makes one value of the lists. No call has a `requires`.
// include/launchramp.h declares them; how an answer is told is in crates/codes/specs/Codes.antt.

#![tactic(auto)]

ghost use Rattle.std.specs.Prelude.{◌≡◌};
ghost use Rattle.ring.specs.Locate.{located};
ghost use Rattle.districts.specs.Lent.{lent, formed, means};
ghost use Rattle.register.specs.Sorting.{assigned};
ghost use Rattle.fixes.specs.Millimetres.{placed};
ghost use Rattle.register.specs.Placing.{assigned_at};
ghost use Rattle.codes.specs.Codes.{place_code, answer_code, Tells, PlaceTells};
ghost use Rattle.codes.specs.Batches.{BatchTells, BatchCounts};
ghost use Rattle.exports.specs.Calls.{FoundTells, SplitTells, MergeTells, CountTells};

use changes::{Cut, Seam};
use codes::{Counts, Values};
use districts::{Lists, ListsToChange, ListsToFound};
use fixes::Fix;
use register::Position;
use ring::Point;

// Where a point lies against one ring.
#[unsafe(no_mangle)]
pub extern "C" fn launchramp_locate(ring: &[i32], x: i32, y: i32, values: &mut Values) -> u32
    ensures { Tells result values.new (place_code (located ring.now x y)) }
{
    codes::place(ring::locate(ring, x, y), values)
}

// Whether the five lists are a well-formed register.
#[unsafe(no_mangle)]
pub extern "C" fn launchramp_well_formed(
    ox: &[i32],
    oy: &[i32],
    sx: &[i32],
    sy: &[i32],
    runs: &[u32],
) -> bool
    ensures { result ≡ formed (lent ox.now oy.now sx.now sy.now runs.now) }
{
    let lists = Lists {
        ox,
        oy,
        sx,
        sy,
        runs,
    };
    districts::well_formed(&lists)
}

#[unsafe(no_mangle)]
pub extern "C" fn launchramp_found(
    ox: &mut [i32],
    oy: &mut [i32],
    sx: &mut [i32],
    sy: &mut [i32],
    runs: &mut [u32],
    ring: &[i32],
    values: &mut Values,
) -> u32
    ensures { FoundTells result values.new ring.now (lent ox.old oy.old sx.old sy.old runs.old) (lent ox.new oy.new sx.new sy.new runs.new) }
{
    let mut lists = ListsToFound {
        ox,
        oy,
        sx,
        sy,
        runs,
    };
    codes::judged(register::found(&mut lists, ring), values)
}

#[unsafe(no_mangle)]
pub extern "C" fn launchramp_split(
    ox: &[i32],
    oy: &[i32],
    sx: &mut [i32],
    sy: &mut [i32],
    runs: &mut [u32],
    d: usize,
    i: usize,
    j: usize,
    path: &[i32],
    values: &mut Values,
) -> u32
    ensures { SplitTells result values.new d i j path.now (lent ox.now oy.now sx.old sy.old runs.old) (lent ox.now oy.now sx.new sy.new runs.new) }
{
    let mut lists = ListsToChange {
        ox,
        oy,
        sx,
        sy,
        runs,
    };
    let cut = Cut { d, i, j };
    codes::changed(changes::split(&mut lists, cut, path), values)
}

#[unsafe(no_mangle)]
pub extern "C" fn launchramp_merge(
    ox: &[i32],
    oy: &[i32],
    sx: &mut [i32],
    sy: &mut [i32],
    runs: &mut [u32],
    kept: usize,
    a: usize,
    gone: usize,
    b: usize,
    k: usize,
    values: &mut Values,
) -> u32
    ensures { MergeTells result values.new kept a gone b k (lent ox.now oy.now sx.old sy.old runs.old) (lent ox.now oy.now sx.new sy.new runs.new) }
{
    let mut lists = ListsToChange {
        ox,
        oy,
        sx,
        sy,
        runs,
    };
    let seam = Seam {
        kept,
        a,
        gone,
        b,
        k,
    };
    codes::changed(changes::merge(&mut lists, seam), values)
}

// Sorts a report at a point. The caller knows its number.
#[unsafe(no_mangle)]
pub extern "C" fn launchramp_assign(
    ox: &[i32],
    oy: &[i32],
    sx: &[i32],
    sy: &[i32],
    runs: &[u32],
    x: i32,
    y: i32,
    values: &mut Values,
) -> u32
    ensures { Tells result values.new (answer_code (assigned (formed (lent ox.now oy.now sx.now sy.now runs.now)) (means (lent ox.now oy.now sx.now sy.now runs.now)) 0 x y)) }
{
    let lists = Lists {
        ox,
        oy,
        sx,
        sy,
        runs,
    };
    codes::assigned(register::assign(&lists, 0, Point { x, y }), values)
}

// Sorts a report at a point, and counts it in a tally.
#[unsafe(no_mangle)]
pub extern "C" fn launchramp_assign_counted(
    ox: &[i32],
    oy: &[i32],
    sx: &[i32],
    sy: &[i32],
    runs: &[u32],
    x: i32,
    y: i32,
    counts: &mut Counts,
    values: &mut Values,
) -> u32
    ensures { CountTells result values.new (assigned (formed (lent ox.now oy.now sx.now sy.now runs.now)) (means (lent ox.now oy.now sx.now sy.now runs.now)) 0 x y) counts.old counts.new }
{
    let lists = Lists {
        ox,
        oy,
        sx,
        sy,
        runs,
    };
    let answer = register::assign(&lists, 0, Point { x, y });
    codes::assigned(codes::counted(answer, counts), values)
}

// Sorts the reports at all points of a list x, y, x, y, .., each as launchramp_assign does; nine numbers of `answers` tell each.
#[unsafe(no_mangle)]
pub extern "C" fn launchramp_assign_all(
    ox: &[i32],
    oy: &[i32],
    sx: &[i32],
    sy: &[i32],
    runs: &[u32],
    points: &[i32],
    answers: &mut [u64],
    values: &mut Values,
) -> u32
    ensures { BatchTells result values.new (lent ox.now oy.now sx.now sy.now runs.now) points.now answers.old answers.new }
{
    let lists = Lists {
        ox,
        oy,
        sx,
        sy,
        runs,
    };
    codes::judged(codes::assign_all(&lists, points, answers), values)
}

// The same, and counts each in a tally, as launchramp_assign_counted does point after point.
#[unsafe(no_mangle)]
pub extern "C" fn launchramp_assign_all_counted(
    ox: &[i32],
    oy: &[i32],
    sx: &[i32],
    sy: &[i32],
    runs: &[u32],
    points: &[i32],
    answers: &mut [u64],
    counts: &mut Counts,
    values: &mut Values,
) -> u32
    ensures { BatchCounts result values.new (lent ox.now oy.now sx.now sy.now runs.now) points.now answers.old answers.new counts.old counts.new }
{
    let lists = Lists {
        ox,
        oy,
        sx,
        sy,
        runs,
    };
    codes::judged(
        codes::assign_all_counted(&lists, points, answers, counts),
        values,
    )
}

// A receiver's fix, in metres, as the millimetres x, y of the grid.
#[unsafe(no_mangle)]
pub extern "C" fn launchramp_millimetres(
    easting: f64,
    northing: f64,
    point: &mut [i32; 2],
    values: &mut Values,
) -> u32
    ensures { PlaceTells result values.new (placed easting northing) point.old point.new }
{
    codes::placed(fixes::millimetres(Fix { easting, northing }), point, values)
}

// Sorts a report by a receiver's fix.
#[unsafe(no_mangle)]
pub extern "C" fn launchramp_assign_fix(
    ox: &[i32],
    oy: &[i32],
    sx: &[i32],
    sy: &[i32],
    runs: &[u32],
    easting: f64,
    northing: f64,
    values: &mut Values,
) -> u32
    ensures { Tells result values.new (answer_code (assigned_at (formed (lent ox.now oy.now sx.now sy.now runs.now)) (means (lent ox.now oy.now sx.now sy.now runs.now)) 0 (Position.Fix (record { easting = easting; northing = northing })))) }
{
    let lists = Lists {
        ox,
        oy,
        sx,
        sy,
        runs,
    };
    let position = Position::Fix(Fix { easting, northing });
    codes::assigned(register::assign_at(&lists, 0, position), values)
}

// Sorts a report by a receiver's fix, and counts it in a tally.
#[unsafe(no_mangle)]
pub extern "C" fn launchramp_assign_fix_counted(
    ox: &[i32],
    oy: &[i32],
    sx: &[i32],
    sy: &[i32],
    runs: &[u32],
    easting: f64,
    northing: f64,
    counts: &mut Counts,
    values: &mut Values,
) -> u32
    ensures { CountTells result values.new (assigned_at (formed (lent ox.now oy.now sx.now sy.now runs.now)) (means (lent ox.now oy.now sx.now sy.now runs.now)) 0 (Position.Fix (record { easting = easting; northing = northing }))) counts.old counts.new }
{
    let lists = Lists {
        ox,
        oy,
        sx,
        sy,
        runs,
    };
    let position = Position::Fix(Fix { easting, northing });
    let answer = register::assign_at(&lists, 0, position);
    codes::assigned(codes::counted(answer, counts), values)
}

// Refuses a report whose position is missing: by 19, or by what comes before it.
#[unsafe(no_mangle)]
pub extern "C" fn launchramp_assign_missing(
    ox: &[i32],
    oy: &[i32],
    sx: &[i32],
    sy: &[i32],
    runs: &[u32],
    values: &mut Values,
) -> u32
    ensures { Tells result values.new (answer_code (assigned_at (formed (lent ox.now oy.now sx.now sy.now runs.now)) (means (lent ox.now oy.now sx.now sy.now runs.now)) 0 Position.Missing)) }
{
    let lists = Lists {
        ox,
        oy,
        sx,
        sy,
        runs,
    };
    codes::assigned(register::assign_at(&lists, 0, Position::Missing), values)
}
