// The values of literals: the file's bits as integers and floats of the language, and back.
#![tactic(auto)]

ghost use Rattle.std.specs.Prelude.{◌≡◌, ◌+◌, ◌≤◌};
ghost use Rattle.reads.specs.Bytes.{num4, num8};
ghost use Rattle.reads.specs.Promise.{Is, answered_by};
ghost use Rattle.literal.specs.Values.{single, twofold, number_at, bits_of, bits_in};
ghost use Rattle.literal.specs.Readings.{reading_literal};

use pool::Kind;
use reads::{Answer, byte_at};
use std::num::{f32_to_bits_with_nan, f64_to_bits_with_nan};

// A literal: a number, or the Utf8 slot of a String. The language has one NaN and makes no float of a NaN's bits, of which a file has
// many: FloatNan and DoubleNan carry them.
#[derive(Clone, Copy)]
pub enum Literal {
    Integer(i32),
    Float(f32),
    FloatNan(u32),
    Long(i64),
    Double(f64),
    DoubleNan(u64),
    Text(u16),
}

impl Literal {
    // The bits that it stands for: 32 of an Integer and a Float, 64 of a Long and a Double, the slot of a String.
    pub fn bits(self) -> u64
        ensures { result ≡ bits_of (reading_literal.read self) }
    {
        match self {
            Literal::Integer(x) => x.cast_unsigned() as u64,
            Literal::Float(x) => f32_to_bits_with_nan(x) as u64,
            Literal::FloatNan(n) => n as u64,
            Literal::Long(x) => x.cast_unsigned(),
            Literal::Double(x) => f64_to_bits_with_nan(x),
            Literal::DoubleNan(n) => n,
            Literal::Text(m) => m as u64,
        }
    }
}

// Four bytes at a place of the file, each 0 past its end.
fn quad_at(s: &[u8], at: usize) -> u32
    requires { at ≤ 4294967300 }
    ensures { result ≡ num4 s.now at }
{
    u32::from_be_bytes([
        byte_at(s, at),
        byte_at(s, at + 1),
        byte_at(s, at + 2),
        byte_at(s, at + 3),
    ])
}

// Eight bytes at a place of the file, each 0 past its end.
fn oct_at(s: &[u8], at: usize) -> u64
    requires { at ≤ 4294967296 }
    ensures { result ≡ num8 s.now at }
{
    u64::from_be_bytes([
        byte_at(s, at),
        byte_at(s, at + 1),
        byte_at(s, at + 2),
        byte_at(s, at + 3),
        byte_at(s, at + 4),
        byte_at(s, at + 5),
        byte_at(s, at + 6),
        byte_at(s, at + 7),
    ])
}

// The signs of a Float and of a Double, and their infinities: without its sign a NaN is above the infinity. Signs go by `%` and not by
// `&` with a mask: tried, and `ones f * hid f < bit_and b (top f - 1) → nan_bits f b` stayed open, as the library has it of `% top f`.
const FLOAT_SIGN: u32 = 0x8000_0000;

const FLOAT_INFINITY: u32 = 0x7F80_0000;

const DOUBLE_SIGN: u64 = 0x8000_0000_0000_0000;

const DOUBLE_INFINITY: u64 = 0x7FF0_0000_0000_0000;

// The Float of 32 bits, or the bits where they are a NaN's.
#[tactic(auto, using(crate::proofs::Laws::nan_is, crate::proofs::Laws::no_nan), unfolding(crate::specs::Values::single))]
fn float_of(b: u32) -> Literal
    ensures { Is reading_literal (single b) result }
{
    if b % FLOAT_SIGN <= FLOAT_INFINITY {
        return Literal::Float(f32::from_bits(b));
    }
    Literal::FloatNan(b)
}

// The Double of 64 bits, or the bits where they are a NaN's. Its own lines, and not one generic function with `float_of`: no trait of the
// library makes a float of bits at either width, and a trait for these two would be longer than both.
#[tactic(auto, using(crate::proofs::Laws::nan_is, crate::proofs::Laws::no_nan), unfolding(crate::specs::Values::twofold))]
fn double_of(b: u64) -> Literal
    ensures { Is reading_literal (twofold b) result }
{
    if b % DOUBLE_SIGN <= DOUBLE_INFINITY {
        return Literal::Double(f64::from_bits(b));
    }
    Literal::DoubleNan(b)
}

// The number of an entry of that tag whose tag byte stands at a place of the file. The tag is a number and no `Kind`: any is taken.
#[tactic(auto, using(crate::proofs::Laws::single_signed, crate::proofs::Laws::double_signed), unfolding(crate::specs::Values::number_at))]
pub fn number_at(file: &[u8], tag: u8, cell: u32) -> Literal
    ensures { Is reading_literal (number_at file.now tag (cell + 1)) result }
{
    let at = cell as usize + 1;
    if tag == Kind::Integer as u8 {
        return Literal::Integer(quad_at(file, at).cast_signed());
    }
    if tag == Kind::Float as u8 {
        return float_of(quad_at(file, at));
    }
    if tag == Kind::Long as u8 {
        return Literal::Long(oct_at(file, at).cast_signed());
    }
    double_of(oct_at(file, at))
}

// The bits that an answer stands for: those of its literal; 0 for a refusal.
pub fn bits_of(answer: Answer<Literal>) -> u64
    ensures { result ≡ bits_in ((answered_by reading_literal).read answer) }
{
    answer.map_or(0, Literal::bits)
}
