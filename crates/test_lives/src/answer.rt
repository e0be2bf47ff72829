// An answer in one form, whichever implementation gave it, so that two can be compared, counted and printed: in the words of the second.
use districts::{Class, Report};
use ring::{Parity, Place, Touch};
use test_rows::Belongs;
use test_second::{Met, Where};

#[derive(Clone, Copy, PartialEq, Eq)]
pub enum Told {
    // Where a point lies against a ring, and whether it winds about the point an odd number of times.
    Located { place: Where, odd: bool },
    // A value in metres as millimetres of the grid.
    Placed(i32),
    Founded,
    // The number of the new district, and of the district that was kept.
    Split(usize),
    Merged(usize),
    Sorted { report: u32, belongs: Belongs },
}

// What is told, or the refusal's number.
pub type Answer = Result<Told, usize>;

// The answers of both to one question, and whether both registers hold the same afterwards.
#[derive(Clone, Copy)]
pub struct Both {
    pub library: Answer,
    pub second: Answer,
    pub rings: bool,
}

// What answers are counted by: on a ring, by whether the point has one place there or several; off it, by how often it is wound about.
#[derive(Clone, Copy, PartialEq, Eq)]
pub enum Kind {
    Vertex,
    Vertices,
    Edge,
    Edges,
    Off,
    OffOnce,
    OffMore,
    Founded,
    Split,
    Merged,
    BorderVertex,
    BorderVertices,
    BorderEdge,
    BorderEdges,
    One,
    None,
    Several,
    Placed,
    Refused,
}

impl Both {
    pub fn same(self) -> bool {
        self.rings & (self.library == self.second)
    }
}

// One of four kinds, by where on a ring a point is.
fn on_ring(met: Met, kinds: [Kind; 4]) -> Kind {
    let [vertex, vertices, edge, edges] = kinds;
    match met {
        Met::Corners(lowest, highest) if lowest == highest => vertex,
        Met::Corners(_, _) => vertices,
        Met::Sides(lowest, highest) if lowest == highest => edge,
        Met::Sides(_, _) => edges,
    }
}

impl Told {
    pub fn kind(self) -> Kind {
        match self {
            Told::Located { place, .. } => place_kind(place),
            Told::Placed(_) => Kind::Placed,
            Told::Founded => Kind::Founded,
            Told::Split(_) => Kind::Split,
            Told::Merged(_) => Kind::Merged,
            Told::Sorted { belongs, .. } => class_kind(belongs),
        }
    }
}

fn place_kind(place: Where) -> Kind {
    match place {
        Where::On(met) => { on_ring(met, [Kind::Vertex, Kind::Vertices, Kind::Edge, Kind::Edges]) }
        Where::Away { times: 0, .. } => Kind::Off,
        Where::Away { times: 1, .. } => Kind::OffOnce,
        Where::Away { .. } => Kind::OffMore,
    }
}

fn class_kind(belongs: Belongs) -> Kind {
    match belongs {
        Belongs::Border(_, met) => {
            on_ring(
                met,
                [
                    Kind::BorderVertex,
                    Kind::BorderVertices,
                    Kind::BorderEdge,
                    Kind::BorderEdges,
                ],
            )
        }
        Belongs::One(_) => Kind::One,
        Belongs::None => Kind::None,
        Belongs::Several(_, _) => Kind::Several,
    }
}

fn met(t: Touch) -> Met {
    match t {
        Touch::Vertex(lowest, highest) => Met::Corners(lowest, highest),
        Touch::Edge(lowest, highest) => Met::Sides(lowest, highest),
    }
}

impl From<Place> for Told {
    fn from(place: Place) -> Told {
        match place {
            Place::On(t) => Told::Located {
                place: Where::On(met(t)),
                odd: false,
            },
            Place::Off(w, p) => Told::Located {
                place: Where::Away {
                    times: w.0.unsigned_abs(),
                    backwards: w.0 < 0,
                },
                odd: match p {
                    Parity::Even => false,
                    Parity::Odd => true,
                },
            },
        }
    }
}

impl From<Where> for Told {
    fn from(place: Where) -> Told {
        let odd = match place {
            Where::On(_) => false,
            Where::Away { times, .. } => times % 2 == 1,
        };
        Told::Located { place, odd }
    }
}

impl From<Report> for Told {
    fn from(r: Report) -> Told {
        let belongs = match r.class {
            Class::Border(d, t) => Belongs::Border(d, met(t)),
            Class::One(d) => Belongs::One(d),
            Class::None => Belongs::None,
            Class::Several(d, many) => Belongs::Several(d, many),
        };
        Told::Sorted {
            report: r.number,
            belongs,
        }
    }
}
