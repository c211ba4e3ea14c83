// Lookups of values in a handed table: literals, and the bytes of Utf8 slots.
#![tactic(auto)]

ghost use Rattle.std.specs.Prelude.{◌≡◌, ◌+◌, ◌≤◌, length};
ghost use Rattle.reads.specs.Promise.{Is, answered, answered_by};
ghost use Rattle.slot.specs.Shown.{shown};
ghost use Rattle.handed.specs.Handed.{lookup};
ghost use Rattle.literal.specs.Readings.{reading_literal};
ghost use Rattle.values.specs.Lookups.{literal_at, text_at, span_of, span_at, span_in, bytes_at, bytes_in};
ghost use Rattle.values.specs.Readings.{reading_text};

use literal::Literal;
use pool::Kind;
use reads::Answer;
use slot::Pool;

// What a Utf8 slot holds: text, or bytes that are none.
#[derive(Clone, Copy)]
pub enum Utf8 {
    Text,
    Raw,
}

// A part of the file: its first byte, and the byte after its last. No `Range`: the clauses of `utf8_span` and `utf8_part` name its fields.
#[derive(Clone, Copy, Default)]
pub struct Span {
    pub from: usize,
    pub to: usize,
}

const LITERALS: u32 = pool::INTEGER | pool::FLOAT | pool::LONG | pool::DOUBLE | pool::STRING;

// The literal in slot n.
#[tactic(auto, unfolding(crate::specs::Lookups::literal_at, crate::specs::Lookups::literal_of))]
fn literal_at(p: &Pool, n: usize) -> Answer<Literal>
    ensures { Is (answered_by reading_literal) (literal_at n (shown p.now)) result }
{
    handed::check_asked(p, LITERALS, n)?;
    let tag = p.tag(n);
    if tag == Kind::String as u8 {
        return Ok(Literal::Text(p.field(n, 1)));
    }
    Ok(literal::number_at(p.file, tag, p.cell(n)))
}

// A literal, in slot n of a handed table: a number, or the Utf8 slot of a String. Each lookup makes the pool itself: one function over the
// inner step would be public, and need a `requires`.
#[tactic(auto, using(handed::proofs::Handed::on_lent, handed::proofs::Handed::off_lent))]
pub fn literal<'a>(file: &'a [u8], table: &'a [u32], n: u32) -> Answer<Literal>
    ensures { Is (answered_by reading_literal) (lookup file.now table.now (literal_at n)) result }
{
    let p = handed::pool_of(file, table)?;
    literal_at(&p, n as usize)
}

// Whether the Utf8 entry in slot n is text.
#[tactic(auto, unfolding(crate::specs::Lookups::text_at))]
fn text_at(p: &Pool, n: usize) -> Answer<Utf8>
    ensures { Is (answered_by reading_text) (text_at n (shown p.now)) result }
{
    handed::check_asked(p, pool::UTF8, n)?;
    if text::is_text(p.bytes(n)) {
        return Ok(Utf8::Text);
    }
    Ok(Utf8::Raw)
}

// Whether a Utf8 entry, in slot n of a handed table, is text or raw.
#[tactic(auto, using(handed::proofs::Handed::on_lent, handed::proofs::Handed::off_lent))]
pub fn text_or_raw<'a>(file: &'a [u8], table: &'a [u32], n: u32) -> Answer<Utf8>
    ensures { Is (answered_by reading_text) (lookup file.now table.now (text_at n)) result }
{
    let p = handed::pool_of(file, table)?;
    text_at(&p, n as usize)
}

// Where the bytes of the Utf8 entry in slot n stand, no further than the end of the file.
#[tactic(auto, using(crate::proofs::Parts::least), unfolding(crate::specs::Lookups::span_of))]
fn span_of(p: &Pool, n: usize) -> Span
    ensures { result ≡ span_of (shown p.now) n }
{
    let from = p.cell(n) as usize + 3;
    let to = from + p.field(n, 1) as usize;
    let end = p.file.len();
    Span {
        from: from.min(end),
        to: to.min(end),
    }
}

// Where the bytes of slot n stand, where it is of kind Utf8.
#[tactic(auto, unfolding(crate::specs::Lookups::span_at))]
fn span_at(p: &Pool, n: usize) -> Answer<Span>
    ensures { Is answered (span_at n (shown p.now)) result }
{
    handed::check_asked(p, pool::UTF8, n)?;
    Ok(span_of(p, n))
}

// Where the bytes of slot n of a handed table stand, where it is of kind Utf8.
#[tactic(auto, using(handed::proofs::Handed::on_lent, handed::proofs::Handed::off_lent))]
fn find_span(file: &[u8], table: &[u32], n: u32) -> Answer<Span>
    ensures { Is answered (lookup file.now table.now (span_at n)) result }
{
    let p = handed::pool_of(file, table)?;
    span_at(&p, n as usize)
}

// Where the bytes of a Utf8 entry stand in the file, in slot n of a handed table; an empty part at 0 where `text_or_raw` refuses.
pub fn utf8_span<'a>(file: &'a [u8], table: &'a [u32], n: u32) -> Span
    ensures { result ≡ span_in (lookup file.now table.now (span_at n)) }
{
    find_span(file, table, n).unwrap_or_default()
}

// The bytes of a Utf8 entry, in slot n of a handed table, as a part of the caller's own file; an empty part where `text_or_raw` refuses.
pub fn utf8_part<'a>(file: &'a [u8], table: &'a [u32], n: u32) -> &'a [u8]
    ensures bytes { result.now ≡ bytes_in (lookup file.now table.now (bytes_at n)) }
    ensures place { (result.ref_ptr.0 ≡ file.entry.ref_ptr.0) × (result.ref_ptr.1 ≡ file.entry.ref_ptr.1 + (span_in (lookup file.now table.now (span_at n))).from) }
{
    let s = utf8_span(file, table, n);
    &file[s.from..s.to]
}
