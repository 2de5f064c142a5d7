// The acceleration records as they are lent: a list of structs, one a 250 record, in file order. These few functions are the only ones that touch it; all else
// works on an array by value. Promised: which cells are written and read.
#![tactic(auto)]

ghost use Rattle.std.specs.Prelude.{◌≡◌, cond, ◌≤◌, ◌<◌, ltb, length, take, drop, ◌++◌, replicate};
ghost use Rattle.law.specs.Sizes.{most_accelerations};
ghost use Rattle.law.specs.Lawful.{no_acceleration};

use types::{Acceleration, MOST_ACCELERATIONS, NO_ACCELERATION};

// The first n cells become the first n of all; the others stay. A slice of all cannot be handed out of the reading that found it, and there is no heap.
pub fn fill(records: &mut [Acceleration], all: [Acceleration; MOST_ACCELERATIONS], n: usize)
    requires { (n ≤ length records.old) × (n ≤ most_accelerations) }
    ensures { records.new ≡ take n all ++ drop n records.old }
{
    records[..n].copy_from_slice(&all[..n]);
}

// The first n cells by value, before what follows the first n of blank.
pub fn taken(
    records: &[Acceleration],
    blank: [Acceleration; MOST_ACCELERATIONS],
    n: usize,
) -> [Acceleration; MOST_ACCELERATIONS]
    requires { (n ≤ length records.now) × (n ≤ most_accelerations) }
    ensures { result ≡ take n records.now ++ drop n blank }
{
    let mut all = blank;
    all[..n].copy_from_slice(&records[..n]);
    all
}

// How many are taken where so many are lent: all that the box carries, or none where fewer are lent.
fn starting(lent: usize) -> usize
    ensures { result ≡ cond (ltb lent most_accelerations) 0 most_accelerations }
{
    if lent < MOST_ACCELERATIONS {
        return 0;
    }
    MOST_ACCELERATIONS
}

// All that the box carries, by value; where fewer are lent, none is looked at, and all are blank.
pub fn carried(records: &[Acceleration]) -> [Acceleration; MOST_ACCELERATIONS]
    ensures enough { most_accelerations ≤ length records.now → result ≡ take most_accelerations records.now }
    ensures fewer { length records.now < most_accelerations → result ≡ replicate most_accelerations no_acceleration }
{
    let blank = [NO_ACCELERATION; MOST_ACCELERATIONS];
    taken(records, blank, starting(records.len()))
}
