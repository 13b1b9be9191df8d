// By a ring: each shelf has points on it, and a good is on the shelf of the first point from its hash on.
ghost use Rattle.std.specs.Prelude.{◌≡◌, ◌*◌, true, length, IfOk};
ghost use Rattle.std.specs.List.{All};
ghost use Rattle.hall.specs.House.{has};

use crate::{Rule, mix};
use std::alloc::{AllocError, Global};

// How many points each shelf has.
const POINTS: u64 = 128;

// From the point before it up to this one the goods are the shelf's.
#[derive(Clone, Copy, PartialEq, Eq, PartialOrd, Ord)]
struct Point {
    hash: u64,
    shelf: u64,
}

// The points are in ascending order.
#[derive(Drop)]
pub struct Ring {
    shelves: Vec<u64>,
    points: Vec<Point>,
    ghost count: { length points.items ≡ 128 * length shelves.items },
    ghost of_shelves: { All (λ p. has shelves.items p.shelf ≡ true) points.items },
}

impl Rule for Ring {
    ghost shelves = { λ r. r.shelves.items };

    const NAME: &'static str = "ring";

    fn new(heap: Global) -> Ring {
        Ring {
            shelves: Vec::new(heap),
            points: Vec::new(heap),
        }
    }

    fn of(heap: Global, shelves: Vec<u64>) -> Result<Ring, AllocError> {
        let points = points_of(heap, &shelves)?;
        Ok(Ring { shelves, points })
    }

    fn shelves(&self) -> &[u64] {
        self.shelves.as_slice()
    }

    // Where no point comes after the good, the first of all is next.
    fn shelf_for(&self, good: u64) -> Option<u64> {
        let hash = mix(good);
        let place = self.points.partition_point(|point| point.hash < hash);
        let point = self.points.get(place).or_else(|| self.points.first())?;
        Some(point.shelf)
    }
}

// The points of the shelves, in ascending order. By a `for`: each push may fail.
fn points_of(heap: Global, shelves: &[u64]) -> Result<Vec<Point>, AllocError>
    ensures count { IfOk result (λ points. length points.items ≡ 128 * length shelves.now) }
    ensures of_shelves { IfOk result (λ points. All (λ p. has shelves.now p.shelf ≡ true) points.items) }
{
    let mut points = Vec::new(heap);
    for shelf in shelves {
        for turn in 0..POINTS {
            points.push(Point {
                hash: mix(mix(*shelf).wrapping_add(turn)),
                shelf: *shelf,
            })?;
        }
    }
    // In place: points that are equal are alike in all they hold, and a stable sort allocates.
    points.sort_unstable();
    Ok(points)
}
