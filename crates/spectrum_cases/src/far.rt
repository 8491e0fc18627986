// Plots at the map's edges, and from one edge to the other, with entries and sums of more than 32 bits among them. A line has the last places
// of a list alone, so that a digest of all the calls follows.
use crate::answers::mixed;
use crate::calls::Call;
use octagon::Octagon;
use std::io;

const MAX: i32 = i32::MAX;

const LIMIT: i32 = Octagon::LIMIT;

const WEST: i32 = -Octagon::LIMIT;

// Opposite to the bound LIMIT it leaves 4,001 rows or columns at an edge of the map.
const AT_EDGE: i32 = 4000 - Octagon::LIMIT;

// The most places of a list: as many as a row of 4,001 cells by two has entries, and a row of the map by 1,001.
const PLACES: usize = 4001;

// A row of so many cells to the east and to the west of (0, 0).
fn along(east: i32, west: i32) -> Octagon {
    Octagon::new(0, MAX, east, MAX, 0, MAX, west, MAX)
}

// A digest of the calls that its methods make.
#[derive(Clone, Copy, Default)]
struct Digest(u64);

impl Digest {
    // Goes on with calls of one plot by several frames, in so many places each.
    fn by_each<const N: usize>(
        &mut self,
        rt: &impl Print,
        plot: Octagon,
        frames: [(Octagon, usize); N],
    ) -> io::Result<()> {
        let mut room = [0u64; PLACES];
        for (frame, places) in frames {
            let told = Call { plot, frame }.tell(rt, &mut room[..places.min(PLACES)])?;
            self.0 = mixed(self.0, told);
        }
        Ok(())
    }

    // A row of 4,001 cells by two, of which 4,000 folds fit, with a place for each entry and with one less; and a column of as many by three.
    fn at_edges(&mut self, rt: &impl Print) -> io::Result<()> {
        let row = Octagon::new(-5, MAX, LIMIT, MAX, 5, MAX, AT_EDGE, MAX);
        let column = Octagon::new(LIMIT, MAX, -9, MAX, AT_EDGE, MAX, 9, MAX);
        let three = Octagon::new(2, MAX, 0, MAX, 0, MAX, 0, MAX);
        self.by_each(rt, row, [(along(1, 0), PLACES), (along(1, 0), PLACES - 1)])?;
        self.by_each(rt, column, [(three, PLACES)])
    }

    // A row of the map by 1,001 cells, of which 4,000 folds fit; by 2,000,001, of which two do, though the frame so folded leaves the map; by
    // 2,500,000 on both sides of (0, 0); and by as many that leave the map.
    fn row(&mut self, rt: &impl Print) -> io::Result<()> {
        self.by_each(
            rt,
            Octagon::new(-5, MAX, LIMIT, MAX, 5, MAX, LIMIT, MAX),
            [
                (along(400, 600), PLACES),
                (along(LIMIT, 0), 5),
                (along(1249999, 1250000), 5),
                (along(2499999, 0), 5),
            ],
        )
    }

    // A column of the map by 1,001 cells; its rising diagonal by as many, with a place too few, and its falling one by 2,000,001.
    fn column_and_diagonals(&mut self, rt: &impl Print) -> io::Result<()> {
        let column = Octagon::new(LIMIT, MAX, WEST, MAX, LIMIT, MAX, LIMIT, MAX);
        let rising = Octagon::new(LIMIT, 0, LIMIT, MAX, LIMIT, 0, LIMIT, MAX);
        let falling = Octagon::new(LIMIT, MAX, LIMIT, 0, LIMIT, MAX, LIMIT, 0);
        let down = Octagon::new(1000, MAX, 0, MAX, 0, MAX, 0, MAX);
        let down_west = Octagon::new(MAX, 0, 0, MAX, 0, 0, 1000, MAX);
        let half = Octagon::new(MAX, MAX, LIMIT, 0, 0, MAX, 0, 0);
        self.by_each(rt, column, [(down, PLACES)])?;
        self.by_each(rt, rising, [(down_west, PLACES - 1)])?;
        self.by_each(rt, falling, [(half, 5)])
    }

    // Three rows from corner to corner by an opposed pair, so that the opening is filled; and the map by 1,001 rows of as many cells, by its
    // quarter, and by a diamond that reaches 1,000 cells from (300, -400). Each fold of the diamond loses more cells than the one before, the
    // later ones more than 32 bits can tell.
    fn strip_and_map(&mut self, rt: &impl Print) -> io::Result<()> {
        let strip = Octagon::new(LIMIT, 1, LIMIT, 4000001, LIMIT, 1, LIMIT, 4000001);
        let map = Octagon::new(LIMIT, MAX, LIMIT, MAX, LIMIT, MAX, LIMIT, MAX);
        let pair = Octagon::new(0, 0, 0, 0, 1, 2, 1, 0);
        let square = Octagon::new(300, MAX, 600, MAX, 700, MAX, 400, MAX);
        let quarter = Octagon::new(0, MAX, LIMIT, MAX, LIMIT, MAX, 0, MAX);
        let diamond = Octagon::new(1400, 1700, 1300, 900, 600, 300, 700, 1100);
        self.by_each(rt, strip, [(pair, 5)])?;
        self.by_each(
            rt,
            map,
            [
                (square, PLACES),
                (quarter, 5),
                (diamond, 1500),
                (diamond, 2001),
            ],
        )
    }
}

pub fn far(rt: &impl Print) -> io::Result<()> {
    let mut digest = Digest::default();
    digest.at_edges(rt)?;
    digest.row(rt)?;
    digest.column_and_diagonals(rt)?;
    digest.strip_and_map(rt)?;
    println!(rt; "digest of 15 pairs {}", digest.0)
}
