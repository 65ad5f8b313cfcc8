// Sets of source layers in words of memory: made, joined, read, and written over those of records.
#![tactic(auto)]

ghost use Rattle.std.specs.Prelude.{◌≡◌, ◌+◌, ◌*◌, ◌<◌, ◌≤◌, length};
ghost use Rattle.records.specs.Limits.{memory_width};
ghost use Rattle.sources.specs.Sets.{source_layers, single as single_of, joined as joined_of};
ghost use Rattle.sources.specs.Sourced.{sources_at};
ghost use Rattle.sources_code.specs.Code.{with_sources};

// The set of this layer alone.
pub fn single(layer: u32) -> i32
    requires { layer < source_layers }
    ensures { result ≡ single_of layer }
{
    records_code::signed(u64::from(1u32 << layer))
}

// The layers of both sets.
pub fn joined(a: i32, b: i32) -> i32
    ensures { result ≡ joined_of a b }
{
    records_code::signed(records_code::pattern(a) | records_code::pattern(b))
}

// The set of trapezoid number i of a layer's words.
pub fn sources_at(layer: &[i32], i: usize) -> i32
    requires { memory_width * i + memory_width ≤ length layer.now }
    ensures { result ≡ sources_at layer.now i }
{
    layer[records::MEMORY_WIDTH * i + records::FILE_WIDTH]
}

// The sets of the first n trapezoids set to this one.
pub fn set_sources(out: &mut [i32], n: usize, sources: i32)
    requires { memory_width * n ≤ length out.old }
    ensures { out.new ≡ with_sources sources n out.old }
{
    for i in 0..n {
        out[records::MEMORY_WIDTH * i + records::FILE_WIDTH] = sources;
    }
}
