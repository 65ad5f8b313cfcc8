// Rows 4 to 11 of polygon files and layer files, and the polygons of a polygon file.
#![tactic(auto)]

ghost use Rattle.std.specs.Prelude.{◌≡◌, ◌+◌, ◌*◌, ◌-◌, ◌≤◌, ◌<◌, ◌/◌, length, take, drop};
ghost use Rattle.lists.specs.Tests.{all};
ghost use Rattle.records.specs.Limits.{file_width};
ghost use Rattle.records.specs.Records.{record_at, records_from, records};
ghost use Rattle.geometry.specs.Limit.{coordinate_limit};
ghost use Rattle.geometry.specs.Trapezoids.{line_at};
ghost use Rattle.geometry.specs.Fitness.{first_refusal};
ghost use Rattle.geometry.specs.Polygons.{vertex_on_grid};
ghost use Rattle.files.specs.Formats.{file_words, polygon_file, layer_file};
ghost use Rattle.files.specs.Directory.{directory_of, HasPairs};
ghost use Rattle.files.specs.Pairs.{count_in, body_of, offset_at, length_at};
ghost use Rattle.files.specs.Contents.{PairAt, vertex_codec, file_codec, polygons_of};
ghost use Rattle.files.specs.Rows.{directory_rows, first_off_grid, polygon_file_checked, layers_checked, layer_file_checked, layer_words_checked};
ghost use Rattle.geometry_code.specs.Polygons.{polygon_of};
ghost use Rattle.directory_code.specs.Code.{Paired};
ghost use Rattle.files_code.specs.Code.{HasVertices};

use directory_code::Words;
use files::{Edition, Extent};
use geometry::{Base, Line, Refusal, Trapezoid};

// The line whose words start at a place of a file.
fn load_file_line(file: &[u8], at: usize) -> Line
    requires { at + 4 ≤ length file.now / 4 }
    ensures { result ≡ line_at (file_words file.now) at }
{
    Line {
        x1: file.at(at),
        y1: file.at(at + 1),
        x2: file.at(at + 2),
        y2: file.at(at + 3),
    }
}

// Trapezoid number i of a layer file's body.
pub fn load_file_trapezoid(body: &[u8], i: usize) -> Trapezoid
    requires { file_width * i + file_width ≤ length body.now / 4 }
    ensures { result ≡ record_at file_codec (file_words body.now) i }
{
    let at = records::FILE_WIDTH * i;
    Trapezoid {
        left: Base {
            first: load_file_line(body, at),
            second: load_file_line(body, at + 4),
        },
        right: Base {
            first: load_file_line(body, at + 8),
            second: load_file_line(body, at + 12),
        },
        bottom: load_file_line(body, at + 16),
        top: load_file_line(body, at + 20),
    }
}

// Rows 7 to 11 of a layer file's body, under a coordinate limit.
fn body_refused(body: &[u8], limit: u32) -> Result<(), Refusal>
    requires { limit ≤ coordinate_limit }
    ensures { result ≡ first_refusal limit 0 (records file_codec (file_words body.now)) }
{
    for i in 0..body.len() / 4 / records::FILE_WIDTH {
        if let Err(number) = fitness_code::judge(load_file_trapezoid(body, i), limit) {
            return Err(Refusal { number, place: i });
        }
    }
    Ok(())
}

// Rows 5 to 11 of a layer file.
fn file_layers(file: &[u8], limit: u32) -> Result<(), Refusal>
    requires { limit ≤ coordinate_limit }
    ensures { result ≡ layers_checked limit layer_file file_codec (file_words file.now) }
{
    let d = directory_code::directory(file, directory_code::layer_format())?;
    let start = 4 * (2 * d.count + 1);
    body_refused(&file[start..], limit)
}

// Rows 4 to 11 of a layer file, under a coordinate limit.
pub fn check_layer_file(file: &[u8], limit: u32) -> Result<(), Refusal>
    requires { limit ≤ coordinate_limit }
    ensures { result ≡ layer_file_checked limit file.now }
{
    if !directory_code::file_sized(file.len()) {
        return Err(Refusal {
            number: 4,
            place: 0,
        });
    }
    file_layers(file, limit)
}

// Rows 5 to 11 of the words of a layer file, under a coordinate limit.
pub fn check_layer_words(words: &[i32], limit: u32) -> Result<(), Refusal>
    requires { limit ≤ coordinate_limit }
    ensures { result ≡ layer_words_checked limit words.now }
{
    let d = directory_code::directory(words, directory_code::memory_format())?;
    let start = 2 * d.count + 1;
    fitness_code::first_refused(&words[start..], limit, 0)
}

// Row 7 lets vertex number i of a polygon file's body pass.
fn vertex_on_grid(body: &[u8], i: usize, limit: u32) -> bool
    requires { 2 * i + 2 ≤ length body.now / 4 }
    ensures { result ≡ vertex_on_grid limit (record_at vertex_codec (file_words body.now) i) }
{
    fitness_code::within(directory_code::word_at(body, 2 * i), limit)
        && fitness_code::within(directory_code::word_at(body, 2 * i + 1), limit)
}

// The same for the vertices from one number up to another.
fn polygon_on_grid(body: &[u8], from: usize, to: usize, limit: u32) -> bool
    requires { (from ≤ to) × (2 * to ≤ length body.now / 4) }
    ensures { result ≡ all (vertex_on_grid limit) (records_from vertex_codec (to - from) (file_words body.now) from) }
{
    (from..to).all(|i| vertex_on_grid(body, i, limit))
}

// Row 7 of a polygon file with n polygons.
fn polygons_on_grid(edition: Edition, file: &[u8], n: usize, limit: u32) -> Result<(), Refusal>
    requires { HasPairs (polygon_file edition) (file_words file.now) n }
    ensures { result ≡ first_off_grid limit 0 (polygons_of edition (file_words file.now)) }
{
    let start = 4 * (2 * n + 1);
    let mut from = 0;
    for i in 0..n {
        let f = directory_code::polygon_format(edition);
        let to = from + directory_code::amount_of(directory_code::length_read(file, f, n, i));
        if !polygon_on_grid(&file[start..], from, to, limit) {
            return Err(Refusal {
                number: 7,
                place: i,
            });
        }
        from = to;
    }
    Ok(())
}

// Rows 5 to 7 of a polygon file.
fn file_polygons(edition: Edition, file: &[u8], limit: u32) -> Result<(), Refusal>
    ensures { result ≡ directory_rows (directory_of (polygon_file edition) (file_words file.now)) (first_off_grid limit 0 (polygons_of edition (file_words file.now))) }
{
    let d = directory_code::directory(file, directory_code::polygon_format(edition))?;
    polygons_on_grid(edition, file, d.count, limit)
}

// Rows 4 to 7 of a polygon file of an edition, under a coordinate limit.
pub fn check_polygon_file(edition: Edition, file: &[u8], limit: u32) -> Result<(), Refusal>
    ensures { result ≡ polygon_file_checked edition limit file.now }
{
    if !directory_code::file_sized(file.len()) {
        return Err(Refusal {
            number: 4,
            place: 0,
        });
    }
    file_polygons(edition, file, limit)
}

// The polygons of a polygon file that passes.
pub fn polygon_count(file: &[u8]) -> usize
    requires { Paired file.now (count_in (file_words file.now)) }
    ensures value { result ≡ count_in (file_words file.now) }
    ensures bound { result ≤ 64 }
{
    directory_code::amount_of(directory_code::word_at(file, 0))
}

// Where polygon number i of a polygon file that passes and has n polygons lies.
pub fn polygon_extent(edition: Edition, file: &[u8], n: usize, i: usize) -> Extent
    requires { HasPairs (polygon_file edition) (file_words file.now) n × (i < n) }
    ensures offset_value { (result.offset ≡ offset_at (file_words file.now) i) × (result.length ≡ length_at (polygon_file edition) (file_words file.now) i) }
    ensures bound { PairAt (polygon_file edition) (file_words file.now) i }
{
    let f = directory_code::polygon_format(edition);
    let offset = directory_code::amount_of(directory_code::word_at(file, 2 * i + 1));
    let length = directory_code::amount_of(directory_code::length_read(file, f, n, i));
    Extent { offset, length }
}

// The words of a file from a number on, as many as `out` has.
pub fn load_words(file: &[u8], start: usize, out: &mut [i32])
    requires { start + length out.old ≤ length file.now / 4 }
    ensures { out.new ≡ take (length out.old) (drop start (file_words file.now)) }
{
    for (i, word) in out.iter_mut().enumerate() {
        *word = file.at(start + i);
    }
}

// The coordinates of n vertices of the body of a polygon file that passes and has `count` polygons, from a number on, to the front of `words`.
pub fn load_polygon(file: &[u8], count: usize, offset: usize, n: usize, words: &mut [i32])
    requires { HasVertices file.now count offset n words.old }
    ensures { polygon_of (take (2 * n) words.new) ≡ records_from vertex_codec n (body_of (file_words file.now)) offset }
{
    // a vertex a turn: of a word a turn the compiler makes a call of memcpy, and the archive for C asks for memset alone
    let start = 2 * (count + offset) + 1;
    for k in 0..n {
        words[2 * k] = file.at(start + 2 * k);
        words[2 * k + 1] = file.at(start + 2 * k + 1);
    }
}
