// Descriptors, on the bytes of a Utf8 entry: the grammar of descriptors.rs. Every walk is a loop, so that depth takes no stack.
#![tactic(auto)]

ghost use Rattle.std.specs.Prelude.{◌≡◌};
ghost use Rattle.text.specs.Text.{one_of, same};
ghost use Rattle.descriptors.specs.Descriptors.{stands, letters, class_length, base_length, type_length, depth, void};
ghost use Rattle.descriptors.specs.Descriptors.{field_descriptor, array_descriptor, return_descriptor};
ghost use Rattle.descriptors.specs.Descriptors.{closing, method_descriptor, returns_void, takes_nothing};

use text::{Piece, Walk};

// Whether a byte stands at an index.
#[tactic(auto, using(std::proofs::lemmas::Bool::Decides::nat_tests), unfolding(crate::specs::Descriptors::stands))]
pub fn stands_at(s: &[u8], i: usize, b: u8) -> bool
    ensures { result ≡ stands b i s.now }
{
    s.get(i) == Some(&b)
}

// How many `[` stand first.
fn dimensions(s: &[u8]) -> usize
    ensures { result ≡ depth s.now }
{
    s.iter().take_while(|b| **b == b'[').count()
}

// The length of the binary name and `;` that the bytes begin with; 0 where there is none, here and below, as the definitions have it.
#[tactic(auto, using(crate::proofs::Types::class_walk, crate::proofs::Types::stands_lt, std::proofs::lemmas::Bool::Decides::nat_tests))]
fn class_length(s: &[u8]) -> usize
    ensures { result ≡ class_length s.now }
{
    let Walk { at, whole } = ascii::walk_name(s);
    if !stands_at(s, at, b';') {
        return 0;
    }
    if whole { at + 1 } else { 0 }
}

// Whether a byte is one of BCDFIJSZ. No `matches!`, which tests neighbours as a range and becomes a table of jumps.
#[tactic(auto, using(std::proofs::lemmas::Bool::Decides::nat_tests), unfolding(text::specs::Text::one_of))]
fn is_letter(b: u8) -> bool
    ensures { result ≡ one_of letters b }
{
    b == b'B'
        || b == b'C'
        || b == b'D'
        || b == b'F'
        || b == b'I'
        || b == b'J'
        || b == b'S'
        || b == b'Z'
}

// The length of the field type with no `[` that the bytes begin with; 0 where there is none.
// No match of slice patterns: with it a descriptor of one letter took a third more instructions.
// No `s.first()`: tried, and `0 < length s` stayed open in the answers after it, as `first` promises a `slice_get`.
fn base_length(s: &[u8]) -> usize
    ensures { result ≡ base_length s.now }
{
    if s.len() == 0 {
        return 0;
    }
    let b = s[0];
    if is_letter(b) {
        return 1;
    }
    if b != b'L' {
        return 0;
    }
    let n = class_length(&s[1..]);
    if n == 0 { 0 } else { 1 + n }
}

// The length of the field type that the bytes begin with; 0 where there is none.
fn type_length(s: &[u8]) -> usize
    ensures { result ≡ type_length s.now }
{
    let d = dimensions(s);
    let n = base_length(&s[d..]);
    if n == 0 { 0 } else { d + n }
}

// The field types of a method's parameters.
struct FieldTypes;

impl Piece for FieldTypes {
    ghost piece = { type_length };

    #[tactic(auto, using(crate::proofs::Types::type_in))]
    fn first(t: &[u8]) -> usize {
        type_length(t)
    }
}

// Whether the bytes are a field descriptor: one field type and no more.
#[tactic(auto, using(std::proofs::lemmas::Bool::Decides::nat_tests), unfolding(crate::specs::Descriptors::field_descriptor))]
pub fn is_field_descriptor(s: &[u8]) -> bool
    ensures { result ≡ field_descriptor s.now }
{
    !s.is_empty() && type_length(s) == s.len()
}

// Whether the bytes are a field descriptor that begins with `[`.
#[tactic(auto, unfolding(crate::specs::Descriptors::array_descriptor))]
pub fn is_array_descriptor(s: &[u8]) -> bool
    ensures { result ≡ array_descriptor s.now }
{
    stands_at(s, 0, b'[') && is_field_descriptor(s)
}

// Whether the bytes are `V`.
#[tactic(auto, using(text::proofs::Names::pointwise_same))]
fn is_void(s: &[u8]) -> bool
    ensures { result ≡ same s.now void }
{
    s == b"V".as_slice()
}

// Whether the bytes are a field descriptor or `V`.
#[tactic(auto, unfolding(crate::specs::Descriptors::return_descriptor))]
fn is_return_descriptor(s: &[u8]) -> bool
    ensures { result ≡ return_descriptor s.now }
{
    is_void(s) || is_field_descriptor(s)
}

// Where the field types end that follow the first byte.
fn parameters_end(s: &[u8]) -> usize
    ensures { result ≡ closing s.now }
{
    match s {
        [] => 1,
        [_, rest @ ..] => FieldTypes::run(rest) + 1,
    }
}

// Whether the bytes are a method descriptor.
#[tactic(auto, using(crate::proofs::Types::stands_lt, std::proofs::lemmas::Bool::Decides::nat_tests), unfolding(crate::specs::Descriptors::method_descriptor, crate::specs::Descriptors::returned))]
pub fn is_method_descriptor(s: &[u8]) -> bool
    ensures { result ≡ method_descriptor s.now }
{
    if !stands_at(s, 0, b'(') {
        return false;
    }
    let end = parameters_end(s);
    if !stands_at(s, end, b')') {
        return false;
    }
    is_return_descriptor(&s[end + 1..])
}

// Whether a method descriptor returns `V`.
pub fn returns_void(s: &[u8]) -> bool
    ensures { result ≡ returns_void s.now }
{
    let end = parameters_end(s);
    end < s.len() && is_void(&s[end + 1..])
}

// Whether a method descriptor has no parameters.
#[tactic(auto, unfolding(crate::specs::Descriptors::takes_nothing))]
pub fn takes_nothing(s: &[u8]) -> bool
    ensures { result ≡ takes_nothing s.now }
{
    stands_at(s, 1, b')')
}
