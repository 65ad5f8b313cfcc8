// Arrays in order: numbers and positions with names, put into their places.
#![tactic(auto)]

ghost use Rattle.std.specs.Prelude.{◌≡◌, ◌+◌, ◌<◌, ◌≤◌, length, take};
ghost use Rattle.integer.specs.Fraction.{before};
ghost use Rattle.sorting.specs.Sorted.{inserted, Lands};
ghost use Rattle.geometry_code.specs.Code.{fraction_of, SmallPosition};
ghost use Rattle.sorting_code.specs.Entries.{fractions, entry_of, Stored, Room, Grown};

use geometry::{Horizontal, Position};

// An element put in before number i of the first n.
pub fn insert<T: Copy>(s: &mut [T], n: usize, i: usize, a: T)
    requires { (i ≤ n) × (n < length s.old) }
    ensures { take (n + 1) s.new ≡ inserted i a (take n s.old) }
{
    for k in (i..n).rev() {
        s[k + 1] = s[k];
    }
    s[i] = a;
}

// Where a position belongs among the first n.
fn place_of(num: &[i64], den: &[i64], n: usize, p: Position) -> Result<usize, usize>
    requires { Stored n num.now den.now × SmallPosition p }
    ensures { Lands before (fraction_of p) (fractions (take n num.now) (take n den.now)) result }
{
    for i in 0..n {
        let q = Position {
            num: integer_code::get_number(num, i),
            den: integer_code::get_number(den, i),
        };
        match geometry_code::compare(p, q) {
            Horizontal::Left => return Err(i),
            Horizontal::Level => return Ok(i),
            Horizontal::Right => {}
        }
    }
    Err(n)
}

// A position with a name put into its place among the first n, or in the place of the one that is level with it; how many there are then.
pub fn add_entry(
    num: &mut [i64],
    den: &mut [i64],
    name: &mut [u32],
    n: usize,
    p: Position,
    m: u32,
) -> usize
    requires { Stored n num.old den.old × SmallPosition p × Room n num.old den.old name.old }
    ensures { Grown n num.old den.old name.old (entry_of p m) result num.new den.new name.new }
{
    match place_of(num, den, n, p) {
        Err(i) => {
            insert(num, n, i, p.num.v);
            insert(den, n, i, p.den.v);
            insert(name, n, i, m);
            n + 1
        }
        Ok(i) => {
            integer_code::put_number(num, i, p.num);
            integer_code::put_number(den, i, p.den);
            name[i] = m;
            n
        }
    }
}
