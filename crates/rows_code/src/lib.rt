// The rows that each public function checks before it does anything, under a coordinate limit.
#![tactic(auto)]

ghost use Rattle.std.specs.Prelude.{◌≡◌, ◌&&◌, ◌≤◌, length, pos, nat_abs};
ghost use Rattle.std.specs.Int.Signed.{le_z};
ghost use Rattle.records.specs.Limits.{sized, max_words};
ghost use Rattle.geometry.specs.Limit.{coordinate_limit, max_denominator};
ghost use Rattle.calls.specs.Components.{lists_sized, components_checked};
ghost use Rattle.calls.specs.Transistors.{three_checked, transistors_checked};
ghost use Rattle.calls.specs.Rows.{buffers_sized, within_times, point_passes, row, both_checked, fracture_checked, combine_checked, deoverlap_checked, equal_checked, contains_checked};
ghost use Rattle.geometry_code.specs.Code.{point_of};

use files::Edition;
use geometry::Refusal;
use integer::Int;

// Codes run from 0 to CODES - 1.
const CODES: u32 = 5;

// Source layers run from 0 to SOURCE_LAYERS - 1.
const SOURCE_LAYERS: u32 = 32;

// Row 1, of an output and a scratch area of so many words.
fn buffers_sized(out: usize, scratch: usize) -> bool
    ensures { result ≡ buffers_sized out scratch }
{
    records_code::sized(out) && records_code::sized(scratch) && scratch == out
}

// Row 1, of a layer, an output and a scratch area.
fn one_sized(a: usize, out: usize, scratch: usize) -> bool
    ensures { result ≡ sized a && buffers_sized out scratch }
{
    records_code::sized(a) && buffers_sized(out, scratch)
}

// The same with two layers.
fn both_sized(a: usize, b: usize, out: usize, scratch: usize) -> bool
    ensures { result ≡ sized a && (sized b && buffers_sized out scratch) }
{
    records_code::sized(a) && one_sized(b, out, scratch)
}

// Row 1, of two layers.
fn layers_sized(a: usize, b: usize) -> bool
    ensures { result ≡ sized a && sized b }
{
    records_code::sized(a) && records_code::sized(b)
}

// Whether z is from -limit times d to limit times d.
fn within_times(limit: u32, z: Int, d: Int) -> bool
    requires { (limit ≤ coordinate_limit) × (nat_abs d.v ≤ max_denominator) }
    ensures { result ≡ within_times limit z.v d.v }
{
    let l = integer_code::natural(limit);
    let most = integer_code::mul(l, d);
    let least = integer_code::neg(most);
    integer_code::at_most(least, z) && integer_code::at_most(z, most)
}

// Whether d is from 1 to MAX_DENOMINATOR.
fn denominator_passes(d: Int) -> bool
    ensures { result ≡ le_z (pos 1) d.v && le_z d.v (pos max_denominator) }
{
    let one = integer_code::natural(1);
    let most = integer_code::natural(calls::MAX_DENOMINATOR);
    integer_code::at_most(one, d) && integer_code::at_most(d, most)
}

// Row 3 lets the point (x/d, y/d) pass.
#[tactic(auto, unfolding(calls::specs::Rows::point_passes))]
fn point_passes(limit: u32, x: Int, y: Int, d: Int) -> bool
    requires { limit ≤ coordinate_limit }
    ensures { result ≡ point_passes limit (point_of x y d) }
{
    denominator_passes(d) && within_times(limit, x, d) && within_times(limit, y, d)
}

// A row with place 0, which refuses where its test fails.
fn row(number: u32, passes: bool) -> Result<(), Refusal>
    ensures { result ≡ row number passes (Ok tt) }
{
    if passes {
        Ok(())
    } else {
        Err(Refusal { number, place: 0 })
    }
}

// Rows 7 to 11: the trapezoids of the first layer, then those of the second, numbered on.
fn both_checked(limit: u32, a: &[i32], b: &[i32]) -> Result<(), Refusal>
    requires { (limit ≤ coordinate_limit) × (length a.now ≤ max_words) }
    ensures { result ≡ both_checked limit a.now b.now }
{
    fitness_code::first_refused(a, limit, 0)?;
    fitness_code::first_refused(b, limit, a.len() / records::MEMORY_WIDTH)
}

// The rows of `fracture`, or of `fracture_first_edition`, for a source layer.
pub fn fracture_checked(
    edition: Edition,
    limit: u32,
    layer: u32,
    file: &[u8],
    out: usize,
    scratch: usize,
) -> Result<(), Refusal>
    ensures { result ≡ fracture_checked edition limit layer file.now out scratch }
{
    row(1, buffers_sized(out, scratch))?;
    row(14, layer < SOURCE_LAYERS)?;
    files_code::check_polygon_file(edition, file, limit)
}

// The rows of `combine`, with an output and a scratch area of so many words.
pub fn combine_checked(
    limit: u32,
    code: u32,
    a: &[i32],
    b: &[i32],
    out: usize,
    scratch: usize,
) -> Result<(), Refusal>
    requires { limit ≤ coordinate_limit }
    ensures { result ≡ combine_checked limit code a.now b.now out scratch }
{
    row(1, both_sized(a.len(), b.len(), out, scratch))?;
    row(2, code < CODES)?;
    both_checked(limit, a, b)
}

// The rows of `deoverlap`.
pub fn deoverlap_checked(limit: u32, a: &[i32], out: usize, scratch: usize) -> Result<(), Refusal>
    requires { limit ≤ coordinate_limit }
    ensures { result ≡ deoverlap_checked limit a.now out scratch }
{
    row(1, one_sized(a.len(), out, scratch))?;
    fitness_code::first_refused(a, limit, 0)
}

// The rows of `equal`.
pub fn equal_checked(
    limit: u32,
    a: &[i32],
    b: &[i32],
    out: usize,
    scratch: usize,
) -> Result<(), Refusal>
    requires { limit ≤ coordinate_limit }
    ensures { result ≡ equal_checked limit a.now b.now out scratch }
{
    row(1, both_sized(a.len(), b.len(), out, scratch))?;
    both_checked(limit, a, b)
}

// The rows of `contains`.
pub fn contains_checked(
    limit: u32,
    x: Int,
    y: Int,
    d: Int,
    a: &[i32],
    b: &[i32],
    code: u32,
) -> Result<(), Refusal>
    requires { limit ≤ coordinate_limit }
    ensures { result ≡ contains_checked limit (point_of x y d) a.now b.now code }
{
    row(1, layers_sized(a.len(), b.len()))?;
    row(2, code < CODES)?;
    row(3, point_passes(limit, x, y, d))?;
    both_checked(limit, a, b)
}

// Row 1, of a layer and a list of n numbers.
#[tactic(auto, unfolding(calls::specs::Components::lists_sized))]
fn lists_sized(a: &[i32], n: usize) -> bool
    ensures { result ≡ lists_sized a.now n }
{
    records_code::sized(a.len()) && n == a.len() / records::MEMORY_WIDTH
}

// The rows of `components`.
pub fn components_checked(limit: u32, a: &[i32], n: usize) -> Result<(), Refusal>
    requires { limit ≤ coordinate_limit }
    ensures { result ≡ components_checked limit a.now n }
{
    row(1, lists_sized(a, n))?;
    fitness_code::first_refused(a, limit, 0)
}

// Row 1, of three layers, an output and a scratch area.
fn three_sized(a: usize, b: usize, c: usize, out: usize, scratch: usize) -> bool
    ensures { result ≡ sized a && (sized b && (sized c && buffers_sized out scratch)) }
{
    records_code::sized(a) && both_sized(b, c, out, scratch)
}

// Rows 7 to 11: the trapezoids of three layers in turn, numbered on.
fn three_checked(limit: u32, a: &[i32], b: &[i32], c: &[i32]) -> Result<(), Refusal>
    requires { (limit ≤ coordinate_limit) × (length a.now ≤ max_words) × (length b.now ≤ max_words) }
    ensures { result ≡ three_checked limit a.now b.now c.now }
{
    both_checked(limit, a, b)?;
    let start = a.len() / records::MEMORY_WIDTH + b.len() / records::MEMORY_WIDTH;
    fitness_code::first_refused(c, limit, start)
}

// The rows of `transistors`.
pub fn transistors_checked(
    limit: u32,
    collectors: &[i32],
    bases: &[i32],
    emitters: &[i32],
    out: usize,
    scratch: usize,
) -> Result<(), Refusal>
    requires { limit ≤ coordinate_limit }
    ensures { result ≡ transistors_checked limit collectors.now bases.now emitters.now out scratch }
{
    row(
        1,
        three_sized(collectors.len(), bases.len(), emitters.len(), out, scratch),
    )?;
    three_checked(limit, collectors, bases, emitters)
}
