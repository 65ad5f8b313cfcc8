// The polygons of a polygon file, fractured one after the other (paper 01: cutting a sheet).
#![tactic(auto)]

ghost use Rattle.std.specs.Prelude.{◌≡◌, ◌≤◌, length};
ghost use Rattle.geometry.specs.Limit.{coordinate_limit};
ghost use Rattle.fracture.specs.Fracture.{fracture, fracture_all};
ghost use Rattle.files.specs.Formats.{file_words};
ghost use Rattle.files.specs.Contents.{polygons_of};
ghost use Rattle.files.specs.Rows.{polygon_file_checked};
ghost use Rattle.trapezoids_code.specs.Tails.{Borrowed, FilledAs};
ghost use Rattle.stored_events_code.specs.Events.{Wide};
ghost use Rattle.files_code.specs.Code.{polygon_at};
ghost use Rattle.polygons_code.specs.Code.{MayFracture};

use files::Edition;

// The trapezoids of polygon number i of a polygon file that passes and has `count` polygons, written as `fracture_polygon` writes them.
fn fracture_numbered(
    edition: Edition,
    file: &[u8],
    count: usize,
    i: usize,
    limit: u32,
    num: &mut [i64],
    den: &mut [i64],
    name: &mut [u32],
    out: &mut [i32],
    room: usize,
) -> Option<usize>
    requires { MayFracture edition file.now count i limit out.old room × Wide num.old den.old name.old }
    ensures { FilledAs (length out.old) room (fracture limit (polygon_at edition (file_words file.now) i)) result out.new }
{
    let e = files_code::polygon_extent(edition, file, count, i);
    let mut words = [0; 64];
    files_code::load_polygon(file, count, e.offset, e.length, &mut words);
    fracture_code::fracture_polygon(&words[..2 * e.length], limit, num, den, name, out, room)
}

// The trapezoids of the polygons of a file of an edition that passes, in order, written into a blank tail of which `room` records may be filled.
pub fn fracture_file(
    edition: Edition,
    file: &[u8],
    limit: u32,
    out: &mut [i32],
    room: usize,
) -> Option<usize>
    requires { (polygon_file_checked edition limit file.now ≡ Ok tt) × (limit ≤ coordinate_limit) × Borrowed out.old room }
    ensures { FilledAs (length out.old) room (fracture_all limit (polygons_of edition (file_words file.now))) result out.new }
{
    let count = files_code::polygon_count(file);
    let mut num = [0; 528];
    let mut den = [0; 528];
    let mut name = [0; 528];
    let mut n = 0;
    for i in 0..count {
        let Some(m) = fracture_numbered(
            edition,
            file,
            count,
            i,
            limit,
            &mut num,
            &mut den,
            &mut name,
            &mut out[records::MEMORY_WIDTH * n..],
            room - n,
        ) else {
            out.fill(0);
            return None;
        };
        n += m;
    }
    Some(n)
}
