// The shapes of a layer of fit trapezoids, one after the other in a buffer.
#![tactic(auto)]

ghost use Rattle.std.specs.Prelude.{◌≡◌, suc, ◌*◌, ◌≤◌, length, pos};
ghost use Rattle.records.specs.Limits.{memory_width, max_records};
ghost use Rattle.records.specs.Records.{count, Blank};
ghost use Rattle.geometry.specs.Trapezoids.{trapezoid_codec, layer_of};
ghost use Rattle.boxes_code.specs.Code.{BoxedLayer};
ghost use Rattle.shapes_code.specs.Code.{GroupedBelow, GroupedAs, ShapesIn};

// `grouped` holds the n trapezoids of a layer with numbers below k: those with the number k behind them; answers how many it holds then.
#[tactic(auto, using(crate::proofs::Loops::gather_few, crate::proofs::Loops::gather_room))]
fn gather(layer: &[i32], numbers: &[u32], k: usize, n: usize, grouped: &mut [i32]) -> usize
    requires { GroupedBelow k layer.now numbers.now n grouped.old × (length numbers.now ≤ max_records) }
    ensures { GroupedBelow (suc k) layer.now numbers.now result grouped.new }
{
    let mut m = n;
    for (j, number) in numbers.iter().enumerate() {
        if *number as usize == k {
            let t = trapezoids_code::load(layer, j);
            trapezoids_code::store(&mut grouped[records::MEMORY_WIDTH * m..], t);
            m += 1;
        }
    }
    m
}

// All trapezoids of a layer, the lowest number first, and where those of each number end.
fn group(layer: &[i32], numbers: &[u32], ends: &mut [u32], grouped: &mut [i32])
    requires numbers_len { (length numbers.now ≡ count trapezoid_codec layer.now) × (length ends.old ≡ length numbers.now) × (length numbers.now ≤ max_records) }
    requires grouped_len { (length grouped.old ≡ memory_width * length numbers.now) × Blank (pos 0) grouped.old }
    ensures { GroupedAs layer.now numbers.now ends.new grouped.new }
{
    let mut n = 0;
    for (k, end) in ends.iter_mut().enumerate() {
        n = gather(layer, numbers, k, n, grouped);
        *end = n as u32;
    }
}

// The shapes of a layer, with their ends, and their boxes in the place of the layer's.
pub fn shapes_into(layer: &[i32], ends: &mut [u32], grouped: &mut [i32], boxes: &mut [i64])
    requires boxed_layer { BoxedLayer layer.now boxes.old }
    requires ends_len { (length ends.old ≡ count trapezoid_codec layer.now) × (length grouped.old ≡ memory_width * count trapezoid_codec layer.now) }
    ensures { ShapesIn (layer_of layer.now) ends.new grouped.new boxes.new }
{
    let mut numbers = [0u32; records::MAX_RECORDS];
    let numbers = &mut numbers[..ends.len()];
    connectivity_code::components_boxed(layer, boxes, numbers);
    grouped.fill(0);
    group(layer, numbers, ends, grouped);
    boxes_code::fill_boxes(grouped, boxes);
}
