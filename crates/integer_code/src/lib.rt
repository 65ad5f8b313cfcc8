// Exact signed arithmetic. Larger functions hold `Int`s, call these functions and write no signed operator.
#![tactic(auto)]

ghost use Rattle.std.specs.Prelude.{◌≡◌, ◌+◌, ◌*◌, ◌<◌, ◌≤◌, pos, nat_abs, length, get_or, set};
ghost use Rattle.std.specs.Int.Signed.{lt_z, le_z};
ghost use Rattle.integer.specs.Integer.{◌⊕◌, ◌⊖◌, ◌⊗◌, ⊝◌, limit32, limit64};
ghost use Rattle.integer.specs.Compare.{order_of};

use integer::Int;
use std::cmp::Ordering;

pub fn of(x: i64) -> Int
    ensures v_value { result.v ≡ x }
    ensures magnitude { nat_abs result.v ≡ nat_abs x }
{
    Int { v: x }
}

pub fn natural(n: u32) -> Int
    ensures v_value { result.v ≡ pos n }
    ensures magnitude { nat_abs result.v ≡ n }
{
    Int { v: i64::from(n) }
}

// A 32-bit word as a number, for every word.
pub fn widen(x: i32) -> Int
    ensures v_value { result.v ≡ x }
    ensures magnitude { nat_abs result.v ≡ nat_abs x }
{
    Int { v: i64::from(x) }
}

// Back to a 32-bit word.
pub fn narrow(a: Int) -> i32
    requires { nat_abs a.v < limit32 }
    ensures value { result ≡ a.v }
    ensures magnitude { nat_abs result ≡ nat_abs a.v }
{
    a.v as i32
}

pub fn add(a: Int, b: Int) -> Int
    requires { nat_abs a.v + nat_abs b.v < limit64 }
    ensures v_value { result.v ≡ a.v ⊕ b.v }
    ensures magnitude { nat_abs result.v ≤ nat_abs a.v + nat_abs b.v }
{
    Int { v: a.v + b.v }
}

pub fn sub(a: Int, b: Int) -> Int
    requires { nat_abs a.v + nat_abs b.v < limit64 }
    ensures v_value { result.v ≡ a.v ⊖ b.v }
    ensures magnitude { nat_abs result.v ≤ nat_abs a.v + nat_abs b.v }
{
    Int { v: a.v - b.v }
}

pub fn mul(a: Int, b: Int) -> Int
    requires { nat_abs a.v * nat_abs b.v < limit64 }
    ensures v_value { result.v ≡ a.v ⊗ b.v }
    ensures magnitude { nat_abs result.v ≡ nat_abs a.v * nat_abs b.v }
{
    Int { v: a.v * b.v }
}

pub fn neg(a: Int) -> Int
    requires { nat_abs a.v < limit64 }
    ensures v_value { result.v ≡ ⊝ a.v }
    ensures magnitude { nat_abs result.v ≡ nat_abs a.v }
{
    Int { v: -a.v }
}

pub fn less(a: Int, b: Int) -> bool
    ensures { result ≡ lt_z a.v b.v }
{
    a.v < b.v
}

pub fn at_most(a: Int, b: Int) -> bool
    ensures { result ≡ le_z a.v b.v }
{
    a.v <= b.v
}

#[tactic(auto, unfolding(integer::specs::Compare::order_of))]
pub fn compare(a: Int, b: Int) -> Ordering
    ensures { result ≡ order_of a.v b.v }
{
    // std's `cmp` asks first whether the two are equal, which is the rare case
    if less(a, b) {
        Ordering::Less
    } else if less(b, a) {
        Ordering::Greater
    } else {
        Ordering::Equal
    }
}

// Word number i of a slice, as a number.
pub fn get(s: &[i32], i: usize) -> Int
    requires { i < length s.now }
    ensures v_value { result.v ≡ get_or s.now i (pos 0) }
    ensures magnitude { nat_abs result.v ≤ limit32 }
{
    widen(s[i])
}

// Word number i of a slice set to a number.
pub fn put(s: &mut [i32], i: usize, a: Int)
    requires { (i < length s.old) × (nat_abs a.v < limit32) }
    ensures { s.new ≡ set s.old i a.v }
{
    s[i] = narrow(a);
}

// The same of a slice of 64-bit numbers.
pub fn get_number(s: &[i64], i: usize) -> Int
    requires { i < length s.now }
    ensures { result.v ≡ get_or s.now i (pos 0) }
{
    of(s[i])
}

pub fn put_number(s: &mut [i64], i: usize, a: Int)
    requires { i < length s.old }
    ensures { s.new ≡ set s.old i a.v }
{
    s[i] = a.v;
}
