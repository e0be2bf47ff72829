// The known points of the rules that concern locating, each printed as the picture, the point and the library's answer.
use crate::said::Said;
use std::io::Print;
use test_lives::Score;

const FAR: i32 = 1_000_000_000;

// A picture by its name and corners, and the points that are asked about.
#[derive(Clone, Copy)]
struct Picture {
    name: &'static str,
    corners: &'static [i32],
    points: &'static [(i32, i32)],
}

// The last two are the pieces of the square when it is split from 0 to 1 with path (2,9).
const PICTURES: [Picture; 13] = [
    Picture {
        name: "square",
        corners: &[0, 0, 4, 0, 4, 4, 0, 4],
        points: &[(2, 2), (5, 2), (4, 4), (4, 1), (0, 2)],
    },
    Picture {
        name: "square backwards",
        corners: &[0, 4, 4, 4, 4, 0, 0, 0],
        points: &[(2, 2)],
    },
    Picture {
        name: "square twice over",
        corners: &[0, 0, 4, 0, 4, 4, 0, 4, 0, 0, 4, 0, 4, 4, 0, 4],
        points: &[(2, 2), (4, 4), (0, 2)],
    },
    Picture {
        name: "bow tie",
        corners: &[0, 0, 4, 4, 4, 0, 0, 4],
        points: &[(3, 2), (1, 2), (2, 2)],
    },
    Picture {
        name: "one point three times",
        corners: &[1, 1, 1, 1, 1, 1],
        points: &[(1, 1), (0, 0)],
    },
    Picture {
        name: "there and half way back",
        corners: &[0, 0, 4, 0, 2, 0],
        points: &[(3, 0)],
    },
    Picture {
        name: "doubled corner",
        corners: &[0, 0, 4, 0, 4, 0, 4, 4, 0, 4],
        points: &[(4, 0)],
    },
    Picture {
        name: "spike",
        corners: &[0, 0, 4, 0, 7, 0, 4, 0, 4, 4, 0, 4],
        points: &[(6, 0), (4, 0)],
    },
    Picture {
        name: "half the grid",
        corners: &[-FAR, -FAR, FAR, -FAR, FAR, FAR],
        points: &[(1, 0), (0, 1)],
    },
    Picture {
        name: "coordinate 1000000001",
        corners: &[0, 0, 1_000_000_001, 0, 4, 4],
        points: &[(2, 2)],
    },
    Picture {
        name: "two vertices",
        corners: &[0, 0, 4, 0],
        points: &[(2, 2)],
    },
    Picture {
        name: "piece one over the top",
        corners: &[0, 0, 4, 0, 2, 9],
        points: &[(2, 6)],
    },
    Picture {
        name: "piece two over the top",
        corners: &[4, 0, 4, 4, 0, 4, 0, 0, 2, 9],
        points: &[(2, 6)],
    },
];

impl Picture {
    fn ask(&self, rt: &impl Print, all: &mut Score) {
        for (x, y) in self.points {
            let both = test_lives::located(self.corners, *x, *y);
            let _ = println!(rt; "{:<24} ({x},{y}): {}", self.name, Said(both));
            all.add(both);
        }
    }
}

pub fn points(rt: &impl Print, all: &mut Score) {
    for picture in &PICTURES {
        picture.ask(rt, all);
    }
}

// The longest ring, which is one place over and over, at that place and beside it; and one vertex more.
pub fn longest(rt: &impl Print, all: &mut Score) {
    let list = [0i32; 4098];
    for (n, x) in [(2048, 0), (2048, 2), (2049, 2)] {
        let both = test_lives::located(&list[..2 * n], x, x);
        let _ = println!(rt; "{n} vertices            ({x},{x}): {}", Said(both));
        all.add(both);
    }
}

// At the grid's limit, beyond it by a millimetre and by a little less than half of one; and two halves.
const METRES: [f64; 8] = [
    1000000.0,
    -1000000.0,
    1000000.001,
    -1000000.001,
    1000000.0004,
    1000000.0005,
    0.0625,
    0.1875,
];

pub fn lengths(rt: &impl Print, all: &mut Score) {
    for (k, metres) in METRES.iter().enumerate() {
        let both = test_lives::converted(*metres);
        let _ = println!(rt; "metres, value {k}: {}", Said(both));
        all.add(both);
    }
}
