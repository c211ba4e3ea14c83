// Text and names, on the bytes of a Utf8 entry: names.rs, and what text is.
#![tactic(auto)]

ghost use Rattle.std.specs.Prelude.{◌≡◌, ◌≤◌, ℕ, List, length, false, not, ◌&&◌};
ghost use Rattle.text.specs.Text.{one_of, before, begins, form_length, wide_forms, text_form, run, is_text};
ghost use Rattle.text.specs.Text.{marks, method_marks, name_marks, plain, unqualified, binary, follows, walked, whole};
ghost use Rattle.text.specs.Text.{is_init, is_clinit, is_bootstrap_methods, method_name};
ghost use Rattle.text.specs.Text.{escaped, escape, module_byte, module_form, module_name};

// A byte's lowest and highest value in a form.
type Range = (u8, u8);

// Each byte of a code point but the first.
const NEXT: Range = (0x80, 0xBF);

// Whether the bytes begin with a form: with one byte in each of its ranges.
fn begins<const N: usize>(t: &[u8], form: &[Range; N]) -> bool
    ensures { result ≡ begins form.now t.now }
{
    N <= t.len() && form.iter().zip(t).all(|((lo, hi), b)| lo <= b && b <= hi)
}

// The length of the code point of three or six bytes that the bytes begin with; 0 where there is none, as the definition has it.
#[tactic(auto, using(crate::proofs::Laws::form_here, crate::proofs::Laws::form_later, crate::proofs::Laws::form_end))]
fn wide_form(t: &[u8]) -> usize
    ensures { result ≡ form_length wide_forms t.now }
{
    if begins(t, &[(0xE0, 0xE0), (0xA0, 0xBF), NEXT]) {
        return 3;
    }
    if begins(t, &[(0xE1, 0xEC), NEXT, NEXT]) {
        return 3;
    }
    if begins(t, &[(0xED, 0xED), (0x80, 0x9F), NEXT]) {
        return 3;
    }
    if begins(t, &[(0xEE, 0xEF), NEXT, NEXT]) {
        return 3;
    }
    if begins(
        t,
        &[
            (0xED, 0xED),
            (0xA0, 0xAF),
            NEXT,
            (0xED, 0xED),
            (0xB0, 0xBF),
            NEXT,
        ],
    ) {
        6
    } else {
        0
    }
}

// The length of the code point that the bytes begin with; 0 where there is none, as the definition has it.
#[tactic(auto, using(crate::proofs::Laws::form_here, crate::proofs::Laws::form_later), unfolding(crate::specs::Text::text_form))]
pub fn text_form(t: &[u8]) -> usize
    ensures { result ≡ text_form t.now }
{
    if begins(t, &[(0x01, 0x7F)]) {
        return 1;
    }
    if begins(t, &[(0xC0, 0xC0), (0x80, 0x80)]) {
        return 2;
    }
    if begins(t, &[(0xC2, 0xDF), NEXT]) {
        return 2;
    }
    wide_form(t)
}

// A sort of piece that bytes can be a run of.
pub trait Piece {
    ghost piece: { List ℕ → ℕ };

    // The length of the piece that the bytes begin with; 0 where there is none, as `covered` of the definitions has it.
    fn first(t: &[u8]) -> usize
        ensures is { result ≡ piece t.now }
        ensures fits { result ≤ length t.now };

    // How many bytes from the first on are such pieces. A `while`: how far a turn goes is known only in it.
    fn run(s: &[u8]) -> usize
        ensures { result ≡ run piece s.now }
    {
        let mut i = 0;
        while i < s.len() {
            match Self::first(&s[i..]) {
                0 => return i,
                n => i += n,
            }
        }
        i
    }
}

// The code points of text.
pub struct CodePoints;

impl Piece for CodePoints {
    ghost piece = { text_form };

    #[tactic(auto, using(crate::proofs::Laws::text_in))]
    fn first(t: &[u8]) -> usize {
        text_form(t)
    }
}

// How many bytes from the first on are text: where the first code point that is none begins.
pub fn text_length(s: &[u8]) -> usize
    ensures { result ≡ run text_form s.now }
{
    CodePoints::run(s)
}

// Whether the bytes are text.
#[tactic(auto, unfolding(crate::specs::Text::is_text))]
pub fn is_text(s: &[u8]) -> bool
    ensures { result ≡ is_text s.now }
{
    text_length(s) == s.len()
}

// Whether a byte is none of `. ; [ /`. No `matches!`, which tests `.` and `/` as a range: `walk_name` then takes half as long again.
#[tactic(auto, using(std::proofs::lemmas::Bool::Decides::nat_tests), unfolding(crate::specs::Text::one_of))]
fn is_valid_unqualified_char(b: u8) -> bool
    ensures { result ≡ not (one_of marks b) }
{
    b != b'.' && b != b';' && b != b'[' && b != b'/'
}

// Whether a byte is none of those and none of `< >`, which no method's name has.
#[tactic(auto, using(std::proofs::lemmas::Bool::Decides::nat_tests), unfolding(crate::specs::Text::one_of))]
fn is_valid_unqualified_method_char(b: u8) -> bool
    ensures { result ≡ not (one_of method_marks b) }
{
    match b {
        b'<' | b'>' => false,
        _ => is_valid_unqualified_char(b),
    }
}

// Whether a byte may stand in a name, of a method or of another. `in_method` is an argument of the definition, and so it is here and below.
fn is_name_char(b: u8, in_method: bool) -> bool
    ensures { result ≡ not (one_of (name_marks in_method) b) }
{
    if in_method {
        return is_valid_unqualified_method_char(b);
    }
    is_valid_unqualified_char(b)
}

// How many bytes stand before the first that no unqualified name (or no method's name) has; all, where there is none.
pub fn plain_length(s: &[u8], in_method: bool) -> usize
    ensures { result ≡ before (name_marks in_method) s.now }
{
    s.iter()
        .take_while(|b| is_name_char(**b, in_method))
        .count()
}

// Whether the bytes are one or more, each of them such a byte.
#[tactic(auto, using(std::proofs::lemmas::Bool::Decides::nat_tests, crate::proofs::Names::none_before), unfolding(crate::specs::Text::plain))]
fn is_plain(s: &[u8], in_method: bool) -> bool
    ensures { result ≡ plain in_method s.now }
{
    !s.is_empty() && plain_length(s, in_method) == s.len()
}

// Whether the bytes are an unqualified name.
#[tactic(auto, unfolding(crate::specs::Text::plain, crate::specs::Text::unqualified))]
pub fn is_unqualified_name(s: &[u8]) -> bool
    ensures { result ≡ unqualified s.now }
{
    is_plain(s, false)
}

// Whether the bytes are `<init>`.
#[tactic(auto, using(crate::proofs::Names::pointwise_same), unfolding(crate::specs::Text::is_init))]
pub fn is_init(s: &[u8]) -> bool
    ensures { result ≡ is_init s.now }
{
    s == b"<init>".as_slice()
}

// Whether the bytes are `<clinit>`.
#[tactic(auto, using(crate::proofs::Names::pointwise_same), unfolding(crate::specs::Text::is_clinit))]
pub fn is_clinit(s: &[u8]) -> bool
    ensures { result ≡ is_clinit s.now }
{
    s == b"<clinit>".as_slice()
}

// Whether the bytes are the sixteen of `BootstrapMethods`.
#[tactic(auto, using(crate::proofs::Names::pointwise_same), unfolding(crate::specs::Text::is_bootstrap_methods))]
pub fn is_bootstrap_methods(s: &[u8]) -> bool
    ensures { result ≡ is_bootstrap_methods s.now }
{
    s == b"BootstrapMethods".as_slice()
}

// Whether the bytes are a method's name, in an interface or outside one.
#[tactic(auto, using(crate::proofs::Names::plain_method), unfolding(crate::specs::Text::method_name))]
pub fn is_unqualified_method_name(s: &[u8], in_interface: bool) -> bool
    ensures { result ≡ method_name in_interface s.now }
{
    !in_interface && is_init(s) || is_clinit(s) || is_plain(s, true)
}

// Whether a byte can follow in a binary name, inside a name (`seen`) or at its start.
#[tactic(auto, using(std::proofs::lemmas::Bool::Decides::nat_tests), unfolding(crate::specs::Text::follows))]
fn may_follow(seen: bool, b: u8) -> bool
    ensures { result ≡ follows seen b }
{
    match b {
        b'/' => seen,
        _ => is_valid_unqualified_char(b),
    }
}

// Where a walk along a binary name stops, and whether the bytes before are one. No Option: `walk_name` says where it stops either way.
#[derive(Clone, Copy)]
pub struct Walk {
    pub at: usize,
    pub whole: bool,
}

// Walks along the binary name that the bytes begin with.
#[tactic(auto, using(crate::proofs::Names::walked_in, crate::proofs::Names::whole_in, crate::proofs::Names::walked_out, crate::proofs::Names::whole_out))]
pub fn walk_name(s: &[u8]) -> Walk
    ensures { (result.at ≡ walked false s.now) × (result.whole ≡ whole false s.now) }
{
    let mut seen = false;
    for (i, b) in s.iter().enumerate() {
        if !may_follow(seen, *b) {
            return Walk { at: i, whole: seen };
        }
        seen = *b != b'/';
    }
    Walk {
        at: s.len(),
        whole: seen,
    }
}

// Whether the bytes are a binary name.
#[tactic(auto, using(std::proofs::lemmas::Bool::Decides::nat_tests, crate::proofs::Names::binary_walk))]
pub fn is_binary_name(s: &[u8]) -> bool
    ensures { result ≡ binary s.now }
{
    let w = walk_name(s);
    w.at == s.len() && w.whole
}

// Whether a byte is the second of a pair of a module name.
#[tactic(auto, using(std::proofs::lemmas::Bool::Decides::nat_tests), unfolding(crate::specs::Text::one_of))]
fn is_escaped(b: u8) -> bool
    ensures { result ≡ one_of escaped b }
{
    matches!(b, b'\\' | b':' | b'@')
}

// Whether a byte stands in a module name by itself.
#[tactic(auto, using(std::proofs::lemmas::Bool::Decides::nat_tests), unfolding(crate::specs::Text::module_byte))]
fn is_module_byte(b: u8) -> bool
    ensures { result ≡ module_byte b }
{
    0x20 <= b && !is_escaped(b) && b != 0xC0
}

// Whether the bytes begin with one of the pairs of a module name.
#[tactic(auto, using(std::proofs::lemmas::Bool::Decides::nat_tests, crate::proofs::Names::escape_short, crate::proofs::Names::escape_long))]
fn is_escape(t: &[u8]) -> bool
    ensures { result ≡ escape t.now }
{
    match t {
        [b'\\', c, ..] => is_escaped(*c),
        _ => false,
    }
}

// The length of the pair, or of the byte, that a module name can begin with; 0 where there is none, as the definition has it.
#[tactic(auto, using(crate::proofs::Names::module_none, crate::proofs::Names::module_escape, crate::proofs::Names::module_some))]
pub fn module_form(t: &[u8]) -> usize
    ensures { result ≡ module_form t.now }
{
    if is_escape(t) {
        return 2;
    }
    match t {
        [b, ..] if is_module_byte(*b) => 1,
        _ => 0,
    }
}

// The pairs and bytes of a module name.
pub struct ModuleForms;

impl Piece for ModuleForms {
    ghost piece = { module_form };

    #[tactic(auto, using(crate::proofs::Names::module_in))]
    fn first(t: &[u8]) -> usize {
        module_form(t)
    }
}

// How many bytes from the first on are such pairs and bytes.
pub fn module_length(s: &[u8]) -> usize
    ensures { result ≡ run module_form s.now }
{
    ModuleForms::run(s)
}

// Whether the bytes, which are text, are a module name.
#[tactic(auto, unfolding(crate::specs::Text::module_name))]
pub fn is_module_name(s: &[u8]) -> bool
    ensures { result ≡ module_name s.now }
{
    module_length(s) == s.len()
}
