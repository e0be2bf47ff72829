// Whether both registers hold the same: every district's ring, vertex by vertex, the unused numbers, and the outline.
ghost use Rattle.std.specs.Prelude.{◌≡◌, ◌+◌, ◌<◌, ◌≤◌, length};

use districts::{Lists, Runs};
use test_rows::{Row, Rows};

// Whether the vertices of a row are those that stand in two columns from a place on.
fn vertices_agree(xs: &[i32], ys: &[i32], place: usize, row: &Row) -> bool
    requires { (place + row.now.size ≤ length xs.now) × (place + row.now.size ≤ length ys.now) }
{
    let mut good = true;
    for k in 0..row.size {
        good &= row.vertex(k) == (xs[place + k], ys[place + k]);
    }
    good
}

// Whether a ring of n vertices that stands in two columns from a place on is that of a row.
fn rings_agree(xs: &[i32], ys: &[i32], place: usize, n: usize, row: &Row) -> bool
    requires { (place < 4294967296) × (n < 4294967296) }
{
    if (n != row.size) | (xs.len().min(ys.len()) < place + n) {
        return false;
    }
    vertices_agree(xs, ys, place, row)
}

// Whether the library's register is well-formed and both hold the same.
pub fn agree(lists: &Lists, rows: &Rows) -> bool
    requires { length lists.now.runs.now ≡ 129 }
{
    let runs = Runs { list: lists.runs };
    let mut good = districts::well_formed(lists)
        & rings_agree(lists.ox, lists.oy, 0, runs.outline_size(), &rows.outline);
    for (d, row) in rows.districts.iter().enumerate() {
        let place = runs.first_place(d);
        good &= rings_agree(lists.sx, lists.sy, place, runs.size(d), row);
    }
    good
}
