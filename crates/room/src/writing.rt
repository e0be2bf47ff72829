// Points in two columns, all x and all y, are written: a piece of a ring, from a place on.
ghost use Rattle.std.specs.Prelude.{◌≡◌, ◌+◌, ◌<◌, ◌≤◌, length, set};
ghost use Rattle.ring.specs.Columns.{points};
ghost use Rattle.room.specs.Writing.{behind};

use crate::Piece;
use ring::Point;

// Point k of the columns is p.
fn put(xs: &mut [i32], ys: &mut [i32], k: usize, p: Point)
    requires { (k < length xs.old) × (k < length ys.old) }
    ensures { (xs.new ≡ set xs.old k p.x) × (ys.new ≡ set ys.old k p.y) }
{
    let x = p.x;
    let y = p.y;
    xs[k] = x;
    ys[k] = y;
}

// Writes the points of a piece to the first places of both columns.
fn write_first<P: Piece>(xs: &mut [i32], ys: &mut [i32], piece: &P)
    requires { (P.many piece.now ≤ length xs.old) × (P.many piece.now ≤ length ys.old) }
    ensures { points xs.new ys.new ≡ behind (points xs.old ys.old) 0 (P.points piece.now) }
{
    for k in 0..piece.len() {
        put(xs, ys, k, piece.point(k));
    }
}

// Writes the points of a piece to both columns, from a place on: their tails are lent.
pub fn write<P: Piece>(xs: &mut [i32], ys: &mut [i32], at: usize, piece: &P)
    requires { (at + P.many piece.now ≤ length xs.old) × (at + P.many piece.now ≤ length ys.old) }
    ensures { points xs.new ys.new ≡ behind (points xs.old ys.old) at (P.points piece.now) }
{
    write_first(&mut xs[at..], &mut ys[at..], piece);
}
