// Each answer as one 64-bit number. include/loxurfa.h says what its bits mean.
#![tactic(auto)]

ghost use Rattle.std.specs.Prelude.{◌≡◌, ℕ, ◌<◌, ◌≤◌};
ghost use Rattle.records.specs.Limits.{max_records};
ghost use Rattle.geometry.specs.Fitness.{SmallRefusal};
ghost use Rattle.files.specs.Outcomes.{read_answer, written_answer, SmallAnswer};
ghost use Rattle.calls.specs.Answers.{fractured_answer, combined_answer, deoverlapped_answer, equality_answer, point_answer, SmallEqualityAnswer, SmallPointAnswer};
ghost use Rattle.calls.specs.Components.{connected_answer, SmallComponentsAnswer};
ghost use Rattle.calls.specs.Transistors.{extracted_answer};
ghost use Rattle.calls.specs.Packed.{refusal as refusal_of, success as success_of, packed, packed_equality, packed_point, packed_count};

use calls::{Combined, Connected, Containment, Deoverlapped, Equality, Extracted, Fractured};
use files::{LayersRead, LayersWritten};

fn refusal(number: u32, place: usize) -> u64
    requires { SmallRefusal number place }
    ensures { result ≡ refusal_of number place }
{
    9223372036854775808 + 4294967296 * (number as u64) + (place as u64)
}

fn success(high: usize, overlays: usize) -> u64
    requires { (high ≤ max_records) × (overlays < 4294967296) }
    ensures { result ≡ success_of high overlays }
{
    4294967296 * (high as u64) + (overlays as u64)
}

// An answer that a function of the C interface packs.
pub trait Packed {
    // What is known of the sizes in it.
    ghost small: { Self → Type 0 };

    // The number whose bits include/loxurfa.h describes.
    ghost bits: { Self → ℕ };

    fn pack(self) -> u64
        requires { small self }
        ensures { result ≡ bits self };
}

impl Packed for Fractured {
    ghost small = { λ answer. SmallAnswer (fractured_answer answer) };

    ghost bits = { λ answer. packed (fractured_answer answer) };

    fn pack(self) -> u64 {
        match self {
            Fractured::Refused { number, place } => refusal(number, place),
            Fractured::Done { pieces, overlays } => success(pieces, overlays),
        }
    }
}

impl Packed for Combined {
    ghost small = { λ answer. SmallAnswer (combined_answer answer) };

    ghost bits = { λ answer. packed (combined_answer answer) };

    fn pack(self) -> u64 {
        match self {
            Combined::Refused { number, place } => refusal(number, place),
            Combined::Done { pieces, overlays } => success(pieces, overlays),
        }
    }
}

impl Packed for Deoverlapped {
    ghost small = { λ answer. SmallAnswer (deoverlapped_answer answer) };

    ghost bits = { λ answer. packed (deoverlapped_answer answer) };

    fn pack(self) -> u64 {
        match self {
            Deoverlapped::Refused { number, place } => refusal(number, place),
            Deoverlapped::Done { pieces, overlays } => success(pieces, overlays),
        }
    }
}

impl Packed for Equality {
    ghost small = { λ answer. SmallEqualityAnswer (equality_answer answer) };

    ghost bits = { λ answer. packed_equality (equality_answer answer) };

    fn pack(self) -> u64 {
        match self {
            Equality::Refused { number, place } => refusal(number, place),
            Equality::Same { overlays } => success(0, overlays),
            Equality::Differs { operand, overlays } => success((operand + 1) as usize, overlays),
        }
    }
}

impl Packed for Containment {
    ghost small = { λ answer. SmallPointAnswer (point_answer answer) };

    ghost bits = { λ answer. packed_point (point_answer answer) };

    fn pack(self) -> u64 {
        match self {
            Containment::Refused { number, place } => refusal(number, place),
            Containment::Yes => success(1, 0),
            Containment::No => success(0, 0),
        }
    }
}

impl Packed for Connected {
    ghost small = { λ answer. SmallComponentsAnswer (connected_answer answer) };

    ghost bits = { λ answer. packed_count (connected_answer answer) };

    fn pack(self) -> u64 {
        match self {
            Connected::Refused { number, place } => refusal(number, place),
            Connected::Done { components } => success(components, 0),
        }
    }
}

impl Packed for Extracted {
    ghost small = { λ answer. SmallAnswer (extracted_answer answer) };

    ghost bits = { λ answer. packed (extracted_answer answer) };

    fn pack(self) -> u64 {
        match self {
            Extracted::Refused { number, place } => refusal(number, place),
            Extracted::Done { triples, overlays } => success(triples, overlays),
        }
    }
}

impl Packed for LayersRead {
    ghost small = { λ answer. SmallAnswer (read_answer answer) };

    ghost bits = { λ answer. packed (read_answer answer) };

    fn pack(self) -> u64 {
        match self {
            LayersRead::Refused { number, place } => refusal(number, place),
            LayersRead::Done { pieces, overlays } => success(pieces, overlays),
        }
    }
}

impl Packed for LayersWritten {
    ghost small = { λ answer. SmallAnswer (written_answer answer) };

    ghost bits = { λ answer. packed (written_answer answer) };

    fn pack(self) -> u64 {
        match self {
            LayersWritten::Refused { number, place } => refusal(number, place),
            LayersWritten::Done { pieces, overlays } => success(pieces, overlays),
        }
    }
}
