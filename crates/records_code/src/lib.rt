// Slices of words as storage for records, and 32-bit words in bytes: sized, cleared, loaded and stored.
#![tactic(auto)]

ghost use Rattle.std.specs.Prelude.{◌≡◌, ◌+◌, ◌*◌, ◌<◌, ◌≤◌, length, replicate, pos};
ghost use Rattle.records.specs.Records.{record_at, put_record};
ghost use Rattle.records.specs.Limits.{sized as sized_layer};
ghost use Rattle.records.specs.Words.{unsigned as unsigned_of, signed as signed_of, pattern as pattern_of, word_codec};

// Whether a layer, an output or a scratch area may have this many words.
#[tactic(auto, unfolding(records::specs::Limits::sized))]
pub fn sized(words: usize) -> bool
    ensures { result ≡ sized_layer words }
{
    words % records::MEMORY_WIDTH == 0 && words <= records::MAX_WORDS
}

// An output and its scratch area set to 0.
pub fn clear_both(out: &mut [i32], scratch: &mut [i32])
    ensures { (out.new ≡ replicate (length out.old) (pos 0)) × (scratch.new ≡ replicate (length scratch.old) (pos 0)) }
{
    out.fill(0);
    scratch.fill(0);
}

// All words of src to dst, which is as long. A loop: std's `copy_from_slice` is a call of memmove, and the archive for C asks for memset alone.
pub fn copy(src: &[i32], dst: &mut [i32])
    requires { length src.now ≡ length dst.old }
    ensures { dst.new ≡ src.now }
{
    for i in 0..dst.len() {
        let w = src[i];
        dst[i] = w;
    }
}

// Two's complement at 32 bits.
pub fn signed(n: u64) -> i32
    requires { n < 4294967296 }
    ensures { result ≡ signed_of n }
{
    (n as u32).cast_signed()
}

// The signed word of four bytes, the low one first.
pub fn word(b0: u8, b1: u8, b2: u8, b3: u8) -> i32
    ensures { result ≡ signed_of (unsigned_of b0 b1 b2 b3) }
{
    i32::from_le_bytes([b0, b1, b2, b3])
}

// Word number i of a slice of bytes.
pub fn load_word(s: &[u8], i: usize) -> i32
    requires { 4 * i + 4 ≤ length s.now }
    ensures { result ≡ record_at word_codec s.now i }
{
    let at = 4 * i;
    word(s[at], s[at + 1], s[at + 2], s[at + 3])
}

// The bits of a word, as a number.
pub fn pattern(x: i32) -> u64
    ensures value { result ≡ pattern_of x }
    ensures range { result < 4294967296 }
{
    u64::from(x.cast_unsigned())
}

// Word number i of a slice of bytes set to x.
pub fn store_word(s: &mut [u8], i: usize, x: i32)
    requires { 4 * i + 4 ≤ length s.old }
    ensures { s.new ≡ put_record word_codec s.old i x }
{
    let at = 4 * i;
    let bytes = x.to_le_bytes();
    s[at] = bytes[0];
    s[at + 1] = bytes[1];
    s[at + 2] = bytes[2];
    s[at + 3] = bytes[3];
}
