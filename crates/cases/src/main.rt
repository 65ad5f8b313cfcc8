// The limits on files, through the public functions of `loxurfa_files`: 2, 3, 32, 33 vertices and 64, 65 polygons in a
// polygon file, source layers 31 and 32, 512, 513 trapezoids in a layer file. Each case has its answer, which stands in the file `stdout`,
// and the reason.
// A write that fails ends the program with its error, and no other error comes; the words and bytes of a case are then as the calls wrote them.
#![tactic(auto)]

ghost use Rattle.std.specs.Prelude.{◌≤◌};

use calls::Fractured;
use files::{LayersRead, LayersWritten};
use std::io;

fn show(rt: &impl Print, answer: Fractured) -> io::Result<()> {
    match answer {
        Fractured::Refused { number, place } => case_parts::refused(rt, number, place),
        Fractured::Done { pieces, overlays } => case_parts::done(rt, pieces, overlays),
    }
}

// The first bytes as a polygon file.
fn fracture(rt: &impl Print, file: &[u8], bytes: usize) -> io::Result<()> {
    let mut out = [7i32; records::MAX_WORDS];
    let mut scratch = [7i32; records::MAX_WORDS];
    if bytes <= file.len() {
        show(
            rt,
            loxurfa_files::fracture(0, &file[..bytes], &mut out, &mut scratch),
        )?;
        case_parts::show_states(rt, &out, &scratch)?;
    }
    Ok(())
}

// One polygon: the first vertices of the staircase.
fn polygon(rt: &impl Print, n: usize) -> io::Result<()>
    requires { n ≤ 33 }
{
    let mut file = [0u8; 20000];
    case_parts::put_number(&mut file, 0, 1);
    case_parts::put_number(&mut file, 2, n);
    case_parts::stairs(&mut file, 3);
    fracture(rt, &file, 4 * (2 * n + 3))
}

fn vertices(rt: &impl Print) -> io::Result<()> {
    println!(rt; "vertices")?;
    // refused 6 place 0
    polygon(rt, 2)?;
    // done 1: (0, 8), (2, 8), (2, 7)
    polygon(rt, 3)?;
    // done 8
    polygon(rt, 32)?;
    // refused 6 place 0
    polygon(rt, 33)
}

fn polygon_counts(rt: &impl Print) -> io::Result<()> {
    println!(rt; "polygons")?;
    let mut file = [0u8; 20000];
    case_parts::staircases(&mut file, 64);
    // done 512
    fracture(rt, &file, 16900)?;
    case_parts::staircases(&mut file, 65);
    // refused 5 place 0
    fracture(rt, &file, 17164)?;
    case_parts::staircases(&mut file, 64);
    // (1, 8) for vertex 1 of the last polygon, which is vertex 2,017 of the file
    case_parts::put_number(&mut file, 4163, 1);
    // refused 12 place 0: the last polygon has an event at 1 too, so nine columns: 513
    fracture(rt, &file, 16900)
}

// The triangle of `vertices`, and the set of its trapezoid.
fn source_layer(rt: &impl Print, layer: u32) -> io::Result<()> {
    let mut file = [0u8; 36];
    case_parts::put_number(&mut file, 0, 1);
    case_parts::put_number(&mut file, 2, 3);
    case_parts::stairs(&mut file, 3);
    let mut out = [7i32; records::MEMORY_WIDTH];
    let mut scratch = [7i32; records::MEMORY_WIDTH];
    show(
        rt,
        loxurfa_files::fracture(layer, &file, &mut out, &mut scratch),
    )?;
    case_parts::show_sources(rt, out[records::FILE_WIDTH])
}

fn source_layers(rt: &impl Print) -> io::Result<()> {
    println!(rt; "source layers")?;
    // done 1, sources 1
    source_layer(rt, 0)?;
    // done 1, sources 2147483648
    source_layer(rt, 31)?;
    // refused 14 place 0, sources 7: as lent
    source_layer(rt, 32)
}

// The bytes of words, as many as fit.
fn bytes_of(words: &[i32], file: &mut [u8]) {
    for (i, w) in words.iter().enumerate() {
        case_parts::put_word(file, i, *w);
    }
}

fn write_layers(rt: &impl Print, words: &[i32], file: &mut [u8]) -> io::Result<()> {
    match loxurfa_files::write_layers(words, file) {
        LayersWritten::Refused { number, place } => case_parts::refused(rt, number, place),
        LayersWritten::Done { pieces, .. } => case_parts::done_file(rt, pieces),
    }
}

fn read_layers(rt: &impl Print, file: &[u8], words: &mut [i32]) -> io::Result<()> {
    match loxurfa_files::read_layers(file, words) {
        LayersRead::Refused { number, place } => case_parts::refused(rt, number, place),
        LayersRead::Done { pieces, .. } => case_parts::done_file(rt, pieces),
    }
}

fn layer_file_1(rt: &impl Print) -> io::Result<()> {
    println!(rt; "layer files")?;
    let mut words = [0i32; 12803];
    // one layer of 512 squares, from trapezoid 0 on, all with the set of all source layers
    words[0] = 1;
    words[2] = 512;
    case_parts::squares(&mut words, 3, -1);
    let mut file = [9u8; 49164];
    // done 512: 24 words a square
    write_layers(rt, &words, &mut file)?;
    let mut back = [7i32; 12803];
    // done 512
    read_layers(rt, &file, &mut back)?;
    case_parts::squares(&mut words, 3, 0);
    // the same words: with empty sets
    case_parts::show_same(rt, &words, &back)
}

fn layer_file_2(rt: &impl Print) -> io::Result<()> {
    let mut words = [0i32; 12828];
    // one layer of 513 squares, from trapezoid 0 on
    words[0] = 1;
    words[2] = 513;
    case_parts::squares(&mut words, 3, -1);
    let mut file = [9u8; 49260];
    // refused 6 place 0
    write_layers(rt, &words, &mut file)?;
    let mut file_words = [0i32; 12315];
    file_words[0] = 1;
    file_words[2] = 513;
    case_parts::file_squares(&mut file_words, 3);
    bytes_of(&file_words, &mut file);
    let mut back = [7i32; 12828];
    // refused 6 place 0
    read_layers(rt, &file, &mut back)
}

fn main(rt: HostRuntime) -> io::Result<()> {
    vertices(&rt)?;
    polygon_counts(&rt)?;
    source_layers(&rt)?;
    layer_file_1(&rt)?;
    layer_file_2(&rt)
}
