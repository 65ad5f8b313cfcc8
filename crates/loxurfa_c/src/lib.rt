// The functions that C calls: each answers one 64-bit number. include/loxurfa.h says what its bits mean.
#![tactic(auto)]

ghost use Rattle.files.specs.declared.Edition.TheVariants.{First, New};
ghost use Rattle.calls.specs.Rows.{plate_limit};
ghost use Rattle.calls.specs.Promises.{FractureKeptForC, CombineKeptForC, DeoverlapKeptForC, EqualKeptForC, ContainsKeptForC, ReadKeptForC, WriteKeptForC, ComponentsKeptForC, TransistorsKeptForC};

use packed_code::Packed;

#[unsafe(no_mangle)]
pub extern "C" fn loxurfa_fracture(
    layer: u32,
    file: &[u8],
    out: &mut [i32],
    scratch: &mut [i32],
) -> u64
    ensures { FractureKeptForC New plate_limit layer file.now out.old scratch.old result out.new scratch.new }
{
    loxurfa_files::fracture(layer, file, out, scratch).pack()
}

#[unsafe(no_mangle)]
pub extern "C" fn loxurfa_fracture_first_edition(
    layer: u32,
    file: &[u8],
    out: &mut [i32],
    scratch: &mut [i32],
) -> u64
    ensures { FractureKeptForC First plate_limit layer file.now out.old scratch.old result out.new scratch.new }
{
    loxurfa_files::fracture_first_edition(layer, file, out, scratch).pack()
}

#[unsafe(no_mangle)]
pub extern "C" fn loxurfa_combine(
    code: u32,
    a: &[i32],
    b: &[i32],
    out: &mut [i32],
    scratch: &mut [i32],
) -> u64
    ensures { CombineKeptForC plate_limit code a.now b.now out.old scratch.old result out.new scratch.new }
{
    loxurfa::combine(code, a, b, out, scratch).pack()
}

#[unsafe(no_mangle)]
pub extern "C" fn loxurfa_deoverlap(a: &[i32], out: &mut [i32], scratch: &mut [i32]) -> u64
    ensures { DeoverlapKeptForC plate_limit a.now out.old scratch.old result out.new scratch.new }
{
    loxurfa::deoverlap(a, out, scratch).pack()
}

#[unsafe(no_mangle)]
pub extern "C" fn loxurfa_equal(a: &[i32], b: &[i32], out: &mut [i32], scratch: &mut [i32]) -> u64
    ensures { EqualKeptForC plate_limit a.now b.now out.old scratch.old result out.new scratch.new }
{
    loxurfa::equal(a, b, out, scratch).pack()
}

#[unsafe(no_mangle)]
pub extern "C" fn loxurfa_contains(x: i32, y: i32, d: i32, a: &[i32], b: &[i32], code: u32) -> u64
    ensures { ContainsKeptForC plate_limit x y d a.now b.now code result }
{
    loxurfa::contains(x, y, d, a, b, code).pack()
}

#[unsafe(no_mangle)]
pub extern "C" fn loxurfa_read_layers(file: &[u8], out: &mut [i32]) -> u64
    ensures { ReadKeptForC plate_limit file.now out.old result out.new }
{
    loxurfa_files::read_layers(file, out).pack()
}

#[unsafe(no_mangle)]
pub extern "C" fn loxurfa_write_layers(words: &[i32], out: &mut [u8]) -> u64
    ensures { WriteKeptForC plate_limit words.now out.old result out.new }
{
    loxurfa_files::write_layers(words, out).pack()
}

#[unsafe(no_mangle)]
pub extern "C" fn loxurfa_components(a: &[i32], numbers: &mut [u32]) -> u64
    ensures { ComponentsKeptForC plate_limit a.now numbers.old result numbers.new }
{
    loxurfa_shapes::components(a, numbers).pack()
}

#[unsafe(no_mangle)]
pub extern "C" fn loxurfa_transistors(
    collectors: &[i32],
    bases: &[i32],
    emitters: &[i32],
    list: &mut [u32],
    out: &mut [i32],
    scratch: &mut [i32],
) -> u64
    ensures { TransistorsKeptForC plate_limit collectors.now bases.now emitters.now list.old out.old scratch.old result list.new out.new scratch.new }
{
    loxurfa_shapes::transistors(collectors, bases, emitters, list, out, scratch).pack()
}
