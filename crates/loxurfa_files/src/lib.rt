// The public interface, files: polygons fractured into trapezoids, and layer files, for every input.
#![tactic(auto)]

ghost use Rattle.files.specs.declared.Edition.TheVariants.{First, New};
ghost use Rattle.files.specs.Outcomes.{read_answer, written_answer, SmallAnswer};
ghost use Rattle.calls.specs.Promises.{FractureKept, ReadKept, WriteKept};
ghost use Rattle.calls.specs.Answers.{fractured_answer};
ghost use Rattle.calls.specs.Rows.{plate_limit};

use calls::Fractured;
use files::{Edition, LayersRead, LayersWritten};
use geometry::Refusal;

// The trapezoids of the polygons of a polygon file of an edition, written to `out` with this source layer in their sets.
fn fracture_edition(
    edition: Edition,
    layer: u32,
    file: &[u8],
    out: &mut [i32],
    scratch: &mut [i32],
) -> Fractured
    ensures fracture_kept { FractureKept edition plate_limit layer file.now out.old scratch.old result out.new scratch.new }
    ensures small { SmallAnswer (fractured_answer result) }
{
    let checked = rows_code::fracture_checked(
        edition,
        calls::PLATE_LIMIT,
        layer,
        file,
        out.len(),
        scratch.len(),
    );
    if let Err(Refusal { number, place }) = checked {
        return Fractured::Refused { number, place };
    }
    let room = out.len() / records::MEMORY_WIDTH;
    records_code::clear_both(out, scratch);
    let Some(pieces) = polygons_code::fracture_file(edition, file, calls::PLATE_LIMIT, out, room)
    else {
        return Fractured::Refused {
            number: 12,
            place: 0,
        };
    };
    sources_code::set_sources(out, pieces, sources_code::single(layer));
    let overlays = 0;
    Fractured::Done { pieces, overlays }
}

// The trapezoids of the polygons of a polygon file of the new edition, written to `out` with this source layer, 0 to 31, in their sets.
// `scratch` is as long as `out`.
pub fn fracture(layer: u32, file: &[u8], out: &mut [i32], scratch: &mut [i32]) -> Fractured
    ensures fracture_kept { FractureKept New plate_limit layer file.now out.old scratch.old result out.new scratch.new }
    ensures small { SmallAnswer (fractured_answer result) }
{
    fracture_edition(Edition::New, layer, file, out, scratch)
}

// The same of a polygon file of the first edition, which leaves no length out.
pub fn fracture_first_edition(
    layer: u32,
    file: &[u8],
    out: &mut [i32],
    scratch: &mut [i32],
) -> Fractured
    ensures fracture_kept { FractureKept First plate_limit layer file.now out.old scratch.old result out.new scratch.new }
    ensures small { SmallAnswer (fractured_answer result) }
{
    fracture_edition(Edition::First, layer, file, out, scratch)
}

// The words of a layer file, each trapezoid with an empty set, written to `out`, which has any length.
pub fn read_layers(file: &[u8], out: &mut [i32]) -> LayersRead
    ensures read_kept { ReadKept plate_limit file.now out.old result out.new }
    ensures small { SmallAnswer (read_answer result) }
{
    let checked = files_code::check_layer_file(file, calls::PLATE_LIMIT);
    if let Err(Refusal { number, place }) = checked {
        return LayersRead::Refused { number, place };
    }
    out.fill(0);
    if out.len() < layer_files_code::memory_length(file) {
        return LayersRead::Refused {
            number: 12,
            place: 0,
        };
    }
    layer_files_code::decode(file, out);
    let pieces = layer_files_code::file_trapezoids(file);
    LayersRead::Done {
        pieces,
        overlays: 0,
    }
}

// The layer file with these words, without the sets, written to `out`, which has any length.
pub fn write_layers(words: &[i32], out: &mut [u8]) -> LayersWritten
    ensures write_kept { WriteKept plate_limit words.now out.old result out.new }
    ensures small { SmallAnswer (written_answer result) }
{
    let checked = files_code::check_layer_words(words, calls::PLATE_LIMIT);
    if let Err(Refusal { number, place }) = checked {
        return LayersWritten::Refused { number, place };
    }
    out.fill(0);
    if out.len() / 4 < layer_files_code::written_length(words) {
        return LayersWritten::Refused {
            number: 12,
            place: 0,
        };
    }
    layer_files_code::encode(words, out);
    let pieces = layer_files_code::words_trapezoids(words);
    LayersWritten::Done {
        pieces,
        overlays: 0,
    }
}
