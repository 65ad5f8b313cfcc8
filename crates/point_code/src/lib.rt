// The point question: whether a point lies in the result of a set operation on two layers, by the layers alone.
#![tactic(auto)]

ghost use Rattle.std.specs.Prelude.{◌≡◌, ◌<◌, length};
ghost use Rattle.lists.specs.Lists.{All};
ghost use Rattle.geometry.specs.Limit.{coordinate_limit};
ghost use Rattle.geometry.specs.Points.{IsPoint};
ghost use Rattle.geometry.specs.Fitness.{FitFor, FitLayer};
ghost use Rattle.geometry.specs.Trapezoids.{layer_of, lies_in_layer};
ghost use Rattle.boolean.specs.Operations.{code_at, result as result_of, says as says_of};
ghost use Rattle.chains.specs.Memberships.{memberships, membership_at, IsAnswerTable};
ghost use Rattle.geometry_code.specs.Code.{point_of, SmallPoint};

use integer::Int;

// Whether a point lies in the result of a set operation on the layers A and B: a row for each code, a column for each membership of the point.
const ANSWERS: [[bool; 4]; 5] = [
    // in neither, in A only, in B only, in both
    [false, true, true, true], // code 0, union
    [false, false, false, true], // code 1, intersection
    [false, true, false, false], // code 2, A - B
    [false, false, true, false], // code 3, B - A
    [false, true, true, false], // code 4, symmetric difference
];

// The table, and what holds of it: a contract cannot name a constant.
fn answers() -> [[bool; 4]; 5]
    ensures { IsAnswerTable result }
{
    ANSWERS
}

// Whether the point (x/d, y/d) lies in a layer.
fn lies_in(layer: &[i32], x: Int, y: Int, d: Int) -> bool
    requires { All (FitFor coordinate_limit) (layer_of layer.now) × SmallPoint x y d }
    ensures { result ≡ lies_in_layer (point_of x y d) (layer_of layer.now) }
{
    for i in 0..layer.len() / records::MEMORY_WIDTH {
        let t = trapezoids_code::load(layer, i);
        if trapezoids_code::contains(t, x, y, d) {
            return true;
        }
    }
    false
}

// The column of the table for a point, by whether it lies in the first layer and in the second.
fn column_of(first: bool, second: bool) -> usize
    ensures { (result < length memberships) × (membership_at result ≡ record { first = first; second = second }) }
{
    match (first, second) {
        (false, false) => 0,
        (true, false) => 1,
        (false, true) => 2,
        (true, true) => 3,
    }
}

// Whether a point lies in the result with this code, by whether it lies in the first layer and in the second.
fn says(code: u32, first: bool, second: bool) -> bool
    requires { code < 5 }
    ensures { result ≡ says_of (code_at code) first second }
{
    answers()[code as usize][column_of(first, second)]
}

// Whether the point (x/d, y/d) lies in the result of the set operation with this code on two layers.
pub fn lies_in_result(code: u32, first: &[i32], second: &[i32], x: Int, y: Int, d: Int) -> bool
    requires { (code < 5) × FitLayer first.now × FitLayer second.now × SmallPoint x y d × IsPoint (point_of x y d) }
    ensures { result ≡ lies_in_layer (point_of x y d) (result_of (code_at code) (layer_of first.now) (layer_of second.now)) }
{
    let in_first = lies_in(first, x, y, d);
    let in_second = lies_in(second, x, y, d);
    says(code, in_first, in_second)
}
