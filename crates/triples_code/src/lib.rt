// The triples of collector, base and emitter, written to a list of words.
#![tactic(auto)]

ghost use Rattle.std.specs.Prelude.{[], ◌∷◌, ◌≤◌, length};
ghost use Rattle.records.specs.Limits.{max_records};
ghost use Rattle.records.specs.Records.{Blank};
ghost use Rattle.triples_code.specs.Code.{emitter_triples, base_triples, marked_triples, HoldsTriples, TriplesAdded, TriplesFilled};

// Words of a triple.
const WIDTH: usize = 3;

// The triple (c, b, e) behind the n that `list` holds.
fn put_triple(c: usize, b: usize, e: usize, list: &mut [u32], n: usize) -> Option<usize>
    requires { HoldsTriples list.old n × (c ≤ max_records) × (b ≤ max_records) × (e ≤ max_records) }
    ensures { TriplesAdded list.old n (record { collector = c; base = b; emitter = e } ∷ []) result list.new }
{
    if list.len() / WIDTH <= n {
        return None;
    }
    let at = WIDTH * n;
    list[at] = c as u32;
    list[at + 1] = b as u32;
    list[at + 2] = e as u32;
    Some(n + 1)
}

// The triples of a collector and a base, one for each emitter with the mark b.
fn list_emitters(
    c: usize,
    b: usize,
    emitter_marks: &[u32],
    list: &mut [u32],
    n: usize,
) -> Option<usize>
    requires { HoldsTriples list.old n × (c ≤ max_records) × (b ≤ max_records) × (length emitter_marks.now ≤ max_records) }
    ensures { TriplesAdded list.old n (emitter_triples emitter_marks.now c b) result list.new }
{
    let mut m = n;
    for (e, mark) in emitter_marks.iter().enumerate() {
        if *mark as usize == b {
            m = put_triple(c, b, e, list, m)?;
        }
    }
    Some(m)
}

// The triples of a collector: those of each base with the mark c.
fn list_bases(
    c: usize,
    base_marks: &[u32],
    emitter_marks: &[u32],
    list: &mut [u32],
    n: usize,
) -> Option<usize>
    requires { HoldsTriples list.old n × (c ≤ max_records) × (length base_marks.now ≤ max_records) × (length emitter_marks.now ≤ max_records) }
    ensures { TriplesAdded list.old n (base_triples base_marks.now emitter_marks.now c) result list.new }
{
    let mut m = n;
    for (b, mark) in base_marks.iter().enumerate() {
        if *mark as usize == c {
            m = list_emitters(c, b, emitter_marks, list, m)?;
        }
    }
    Some(m)
}

// The triples of the collectors 0 to `collectors` - 1.
fn list_collectors(
    collectors: usize,
    base_marks: &[u32],
    emitter_marks: &[u32],
    list: &mut [u32],
) -> Option<usize>
    requires { Blank 0 list.old × (collectors ≤ max_records) × (length base_marks.now ≤ max_records) × (length emitter_marks.now ≤ max_records) }
    ensures { TriplesAdded list.old 0 (marked_triples collectors base_marks.now emitter_marks.now) result list.new }
{
    let mut m = 0;
    for c in 0..collectors {
        m = list_bases(c, base_marks, emitter_marks, list, m)?;
    }
    Some(m)
}

// All triples by the marks of bases and emitters. Where `list`, which is blank, has no room for them it stays blank.
pub fn list_triples(
    collectors: usize,
    base_marks: &[u32],
    emitter_marks: &[u32],
    list: &mut [u32],
) -> Option<usize>
    requires { Blank 0 list.old × (collectors ≤ max_records) × (length base_marks.now ≤ max_records) × (length emitter_marks.now ≤ max_records) }
    ensures { TriplesFilled (length list.old) (marked_triples collectors base_marks.now emitter_marks.now) result list.new }
{
    let listed = list_collectors(collectors, base_marks, emitter_marks, list);
    if listed.is_none() {
        list.fill(0);
    }
    listed
}
