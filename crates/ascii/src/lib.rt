// Plain ASCII, eight bytes at a time: most texts are that, and need no look at each byte.
#![tactic(auto)]

ghost use Rattle.std.specs.Prelude.{◌≡◌, ◌∷◌, [], ◌++◌, true, false, ◌&&◌, ◌||◌, eqb, length, take, drop, ◌+◌, ◌<◌, ◌≤◌};
ghost use Rattle.text.specs.Text.{unqualified, binary, walked, whole};
ghost use Rattle.ascii.specs.Ascii.{ascii, every, packed, bytes, lacks as lacks_of, plain8, unmarked8, every8};
ghost use Rattle.ascii.specs.Ascii.{pairs, linked, linked1, linked8};

use text::Walk;

const LOWS: u64 = 0x7F7F7F7F7F7F7F7F;

const HIGHS: u64 = 0x8080808080808080;

const SLASHES: u64 = 0x2F2F2F2F2F2F2F2F;

// Four bytes as one number, the first the lowest.
fn join4(a: u8, b: u8, c: u8, d: u8) -> u64
    ensures { (result ≡ packed (a ∷ b ∷ c ∷ d ∷ [])) × (result < 4294967296) × (bytes (a ∷ b ∷ c ∷ d ∷ []) ≡ true) }
{
    u64::from(u32::from_le_bytes([a, b, c, d]))
}

// The four bytes from a place on.
fn four(s: &[u8], i: usize) -> u64
    requires { i + 4 ≤ length s.now }
    ensures { (result ≡ packed (take 4 (drop i s.now))) × (result < 4294967296) × (bytes (take 4 (drop i s.now)) ≡ true) }
{
    join4(s[i], s[i + 1], s[i + 2], s[i + 3])
}

// The four bytes from one place on and the four from another.
// Of two fours: with `u64::from_le_bytes` of the eight bytes, tried, the equation with `packed (take 4 .. ++ take 4 ..)` stayed open.
fn eight(s: &[u8], i: usize, j: usize) -> u64
    requires { (i + 4 ≤ length s.now) × (j + 4 ≤ length s.now) }
    ensures { (result ≡ packed (take 4 (drop i s.now) ++ take 4 (drop j s.now))) × (bytes (take 4 (drop i s.now) ++ take 4 (drop j s.now)) ≡ true) }
{
    four(s, j) * 4294967296 + four(s, i)
}

// Whether none of eight bytes is the one that c has eight times.
fn lacks(w: u64, c: u64) -> bool
    ensures { result ≡ lacks_of w c }
{
    ((w ^ c) & LOWS) + LOWS & HIGHS == HIGHS
}

// Whether eight bytes are plain.
#[tactic(auto, using(std::proofs::lemmas::Bool::Decides::nat_tests))]
fn is_plain(w: u64) -> bool
    ensures { result ≡ plain8 w }
{
    (w & HIGHS == 0) & lacks(w, 0)
}

// Whether eight bytes are none of `. ; [ /`.
#[tactic(auto, using(std::proofs::lemmas::Bool::Decides::nat_tests))]
fn is_unmarked(w: u64) -> bool
    ensures { result ≡ unmarked8 w }
{
    lacks(w, 0x2E2E2E2E2E2E2E2E)
        & (lacks(w, 0x3B3B3B3B3B3B3B3B)
            & (lacks(w, 0x5B5B5B5B5B5B5B5B) & lacks(w, 0x2F2F2F2F2F2F2F2F)))
}

// Whether eight bytes are plain, and in a name none of `. ; [ /`. `name` is an argument of `every`, and so it is here and below.
#[tactic(auto, using(std::proofs::lemmas::Bool::Decides::nat_tests))]
fn is_fine(name: bool, w: u64) -> bool
    ensures { result ≡ every8 name w }
{
    if !is_plain(w) {
        return false;
    }
    if name {
        return is_unmarked(w);
    }
    true
}

// Whether the eight bytes of an array are such.
fn is_fine_word(name: bool, w: &[u8; 8]) -> bool
    ensures { result ≡ every name w.now }
{
    is_fine(name, u64::from_le_bytes(*w))
}

// Whether eight bytes and more are such. The last eight may begin before the others end.
fn long(name: bool, s: &[u8]) -> bool
    requires { 8 ≤ length s.now }
    ensures { result ≡ every name s.now }
{
    let (words, _) = s.as_chunks::<8>();
    words.iter().all(|w| is_fine_word(name, w))
        && s.last_chunk::<8>().is_some_and(|w| is_fine_word(name, w))
}

// Whether four to eight bytes are such: the first four and the last four.
fn middling(name: bool, s: &[u8]) -> bool
    requires { (4 ≤ length s.now) × (length s.now ≤ 8) }
    ensures { result ≡ every name s.now }
{
    is_fine(name, eight(s, 0, s.len() - 4))
}

// Whether a byte is one of `. ; [ /`.
fn is_mark(b: u8) -> bool
    ensures { result ≡ eqb b 0x2E || (eqb b 0x3B || (eqb b 0x5B || eqb b 0x2F)) }
{
    b == b'.' || b == b';' || b == b'[' || b == b'/'
}

// Whether one byte is such.
#[tactic(auto, using(crate::proofs::Windows::byte_out, crate::proofs::Windows::byte_text, crate::proofs::Windows::byte_name, std::proofs::lemmas::Bool::Decides::nat_tests))]
fn is_fine_byte(name: bool, b: u8) -> bool
    ensures { result ≡ every name (b ∷ []) }
{
    if !((0x01 <= b) & (b <= 0x7F)) {
        return false;
    }
    if name {
        return !is_mark(b);
    }
    true
}

// Whether a few bytes are such.
fn few(name: bool, s: &[u8]) -> bool
    ensures { result ≡ every name s.now }
{
    s.iter().all(|b| is_fine_byte(name, *b))
}

// Whether bytes are plain, and in a name none of `. ; [ /`.
fn is_every(name: bool, s: &[u8]) -> bool
    ensures { result ≡ every name s.now }
{
    if 8 <= s.len() {
        return long(name, s);
    }
    if 4 <= s.len() {
        return middling(name, s);
    }
    few(name, s)
}

// Whether the bytes are plain ASCII.
#[tactic(auto, using(crate::proofs::Windows::every_ascii))]
pub fn is_ascii(s: &[u8]) -> bool
    ensures { result ≡ ascii s.now }
{
    is_every(false, s)
}

// Whether the bytes are plain ASCII and an unqualified name.
#[tactic(auto, using(crate::proofs::Windows::named, crate::proofs::Windows::unnamed, std::proofs::lemmas::Bool::Decides::nat_tests))]
pub fn is_ascii_name(s: &[u8]) -> bool
    ensures { result ≡ ascii s.now && unqualified s.now }
{
    !s.is_empty() && is_every(true, s)
}

// Whether a byte can follow another in a binary name.
// `&` and `|`: with `&&` and `||` a fourth to a half more branches were foretold wrong on names of seven bytes.
fn is_linked1(p: u8, b: u8) -> bool
    ensures { result ≡ linked1 p b }
{
    ((p < 0x80) & ((0x01 <= b) & (b <= 0x7F)))
        & (!((b == b'.') | ((b == b';') | (b == b'['))) & !((b == b'/') & (p == b'/')))
}

// Whether each of eight bytes can follow the one before it, v's at its place.
#[tactic(auto, using(std::proofs::lemmas::Bool::Decides::nat_tests))]
fn is_linked8(v: u64, w: u64) -> bool
    ensures { result ≡ linked8 v w }
{
    let stops = lacks(w, 0x2E2E2E2E2E2E2E2E)
        & (lacks(w, 0x3B3B3B3B3B3B3B3B) & lacks(w, 0x5B5B5B5B5B5B5B5B));
    ((v & HIGHS == 0) & is_plain(w)) & (stops & lacks((w ^ SLASHES) | (v ^ SLASHES), 0))
}

// Whether each of the eight bytes after a place can follow the one before it.
fn link(s: &[u8], j: usize) -> bool
    requires { j + 9 ≤ length s.now }
    ensures { result ≡ linked (take 8 (drop (j + 1) (pairs 0x2F s.now))) }
{
    is_linked8(eight(s, j, j + 4), eight(s, j + 1, j + 5))
}

// Whether each of nine bytes and more can follow the one before it, the first a `/`. The last eight may begin before the others end.
// A loop of its own, though `links` has the same: by a call of that it took 4 % more instructions on 72 bytes.
// A `while`, here and in `links`: each turn looks at nine bytes and goes on by eight, so its pieces overlap, as those of `as_chunks` do not.
fn chain(s: &[u8]) -> bool
    requires { 9 ≤ length s.now }
    ensures { result ≡ linked (pairs 0x2F s.now) }
{
    if !is_linked1(b'/', s[0]) {
        return false;
    }
    let mut j = 0;
    while 9 <= s.len() - j {
        if !link(s, j) {
            return false;
        }
        j += 8;
    }
    let k = s.len() - 9;
    link(s, k)
}

// Whether each byte of a text, however short, can follow the one before it, the first a `/`.
#[tactic(auto, using(crate::proofs::Chains::linked_on, crate::proofs::Chains::linked_out))]
fn short_chain(s: &[u8]) -> bool
    ensures { result ≡ linked (pairs 0x2F s.now) }
{
    let mut before = b'/';
    for b in s {
        if !is_linked1(before, *b) {
            return false;
        }
        before = *b;
    }
    true
}

// Whether the bytes are plain ASCII and a binary name.
#[tactic(auto, using(crate::proofs::Chains::empty_none, crate::proofs::Chains::slash_last, crate::proofs::Chains::name_last))]
pub fn is_ascii_binary(s: &[u8]) -> bool
    ensures { result ≡ ascii s.now && binary s.now }
{
    match s.last() {
        None | Some(b'/') => return false,
        _ => {}
    }
    if 9 <= s.len() {
        return chain(s);
    }
    short_chain(s)
}

// How many bytes, of nine and more, are seen at once to be able to follow each other, the first a `/`.
fn links(s: &[u8]) -> usize
    requires { 9 ≤ length s.now }
    ensures { (result ≤ length s.now) × (linked (take result (pairs 0x2F s.now)) ≡ true) }
{
    if !is_linked1(b'/', s[0]) {
        return 0;
    }
    let mut j = 0;
    while 9 <= s.len() - j {
        if !link(s, j) {
            return j + 1;
        }
        j += 8;
    }
    j + 1
}

// A place in the bytes from where a walk along a binary name ends as from their start.
fn head(s: &[u8]) -> usize
    ensures { (result ≤ length s.now) × (result + walked false (drop result s.now) ≡ walked false s.now) × (whole false (drop result s.now) ≡ whole false s.now) }
{
    if s.len() < 9 {
        return 0;
    }
    let k = links(s);
    if k == 0 {
        return 0;
    }
    if s[k - 1] == b'/' {
        return k;
    }
    k - 1
}

// Walks along the binary name that the bytes begin with, as `text::walk_name` does.
pub fn walk_name(s: &[u8]) -> Walk
    ensures { (result.at ≡ walked false s.now) × (result.whole ≡ whole false s.now) }
{
    let k = head(s);
    let Walk { at, whole } = text::walk_name(&s[k..]);
    Walk { at: k + at, whole }
}
