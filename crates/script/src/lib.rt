// What the programs that run vectors share. A script is lines; a line is words with one space between them: a command,
// then decimal numbers or byte strings in hexadecimal, `-` for an empty one. The answer is written behind the line.
#![tactic(auto)]

ghost use Rattle.std.specs.Prelude.{◌≡◌, ◌+◌, ◌-◌, ◌≤◌, ◌<◌, true, length, take, drop, min, IfOk, MatchOption};
ghost use Rattle.std.specs.Iterator.{at_most};
ghost use Rattle.script.specs.Script.{until, line_at, past, word_from, word_at, asked, digit, joined, filled, decimal};

use std::fmt::Display;
use std::io::{Read, Write};
use std::rt::Files;
use std::{fs, io, str};

// How many bytes stand before the first mark; all, where there is none.
fn length_to(s: &[u8], mark: u8) -> usize
    ensures { (result ≡ until mark s.now) × (result ≤ length s.now) }
{
    s.iter().position(|b| *b == mark).unwrap_or(s.len())
}

// The bytes from a place on; none past the end.
fn rest(s: &[u8], at: usize) -> &[u8]
    ensures { result.now ≡ drop at s.now }
{
    s.get(at..).unwrap_or(&[])
}

// The bytes before the first mark.
fn cut(s: &[u8], mark: u8) -> &[u8]
    ensures { result.now ≡ take (until mark s.now) s.now }
{
    let n = length_to(s, mark);
    &s[..n]
}

// The place after the first mark from a place on; the end, where there is none.
fn after(s: &[u8], at: usize, mark: u8) -> usize
    ensures { (result ≡ past mark s.now at) × (result ≤ length s.now) × (length s.now - result ≤ length s.now - (at + 1)) }
{
    if s.len() <= at {
        return s.len();
    }
    let n = length_to(&s[at..], mark);
    if n < s.len() - at {
        return at + n + 1;
    }
    s.len()
}

// The line at a place, without its end.
#[tactic(auto, unfolding(crate::specs::Script::line_at))]
pub fn line(s: &[u8], at: usize) -> &[u8]
    ensures { result.now ≡ line_at s.now at }
{
    cut(rest(s, at), b'\n')
}

// The place of the next line; the end, where there is none. What is left of the script falls with each.
pub fn next_line(s: &[u8], at: usize) -> usize
    ensures { (result ≡ past 10 s.now at) × (result ≤ length s.now) × (length s.now - result ≤ length s.now - (at + 1)) }
{
    after(s, at, b'\n')
}

// Whether a line asks for an answer: it is not empty and no comment.
#[tactic(auto, unfolding(crate::specs::Script::asked))]
pub fn is_asked(line: &[u8]) -> bool
    ensures { result ≡ asked line.now }
{
    line.first().is_some_and(|b| *b != b'#')
}

// Where the word of a line that has a number, from 0 on, begins.
fn word_start(line: &[u8], n: usize) -> usize
    ensures { result ≡ word_from n line.now 0 }
{
    let mut at = 0;
    for _ in 0..n {
        at = after(line, at, b' ');
    }
    at
}

// The word of a line that has a number, from 0 on; empty, where there is none.
#[tactic(auto, unfolding(crate::specs::Script::word_at))]
pub fn word(line: &[u8], n: usize) -> &[u8]
    ensures { result.now ≡ word_at line.now n }
{
    cut(rest(line, word_start(line, n)), b' ')
}

// Whether two byte strings are equal: `==` by a name that its contract keeps.
pub fn is(word: &[u8], what: &[u8]) -> bool
    ensures { (result ≡ true → word.now ≡ what.now) × (word.now ≡ what.now → result ≡ true) }
{
    word == what
}

// The value of a digit in base 16, in lower case.
#[tactic(auto, unfolding(crate::specs::Script::digit))]
fn digit_of(b: u8) -> Option<u8>
    ensures { MatchOption result (16 ≤ digit b) (λ d. (d ≡ digit b) × (d < 16)) }
{
    match b {
        b'0'..=b'9' => Some(b - b'0'),
        b'a'..=b'f' => Some(b - b'a' + 10),
        _ => None,
    }
}

// The byte that two digits make.
#[tactic(auto, unfolding(crate::specs::Script::joined))]
fn join(x: u8, y: u8) -> Option<u8>
    ensures { MatchOption result (256 ≤ joined (digit x) (digit y)) (λ b. (b ≡ joined (digit x) (digit y)) × (b < 256)) }
{
    let high = digit_of(x)?;
    let low = digit_of(y)?;
    Some(high * 16 + low)
}

// The bytes that a word in hexadecimal says, put at the start of `out`, as many as it has room for; how many they are.
// A word that is none, as `-`, says no byte, and what stands past the bytes in `out` stays.
pub fn bytes(word: &[u8], out: &mut [u8]) -> usize
    ensures says { (result, out.new) ≡ filled word.now out.old 0 }
    ensures within { (result ≤ length out.new) × (result ≡ length (take result out.new)) × (length out.new ≡ length out.old) }
{
    let mut left = word;
    for (n, place) in out.iter_mut().enumerate() {
        let [x, y, more @ ..] = left else {
            return n;
        };
        let Some(b) = join(*x, *y) else {
            return n;
        };
        *place = b;
        left = more;
    }
    out.len()
}

// The number that a decimal word says; 0, as the definition has it, where it is none, or from 18446744073709551610 on.
pub fn number(word: &[u8]) -> u64
    ensures { result ≡ decimal word.now }
{
    let mut n: u64 = 0;
    for b in word {
        let Some(d) = digit_of(*b) else {
            return 0;
        };
        if 9 < d || 1844674407370955160 < n {
            return 0;
        }
        n = n * 10 + u64::from(d);
    }
    n
}

// The number that a decimal word says, or the most that is allowed.
pub fn number_up_to(most: usize, word: &[u8]) -> usize
    ensures says { result ≡ min (decimal word.now) most }
    ensures within { result ≤ most }
{
    number(word).min(most as u64) as usize
}

// Writes bytes to `out`, which is standard output in the programs. Here and in all that print, an error of a write is passed on, and
// what was written before it is out.
pub fn print(out: &mut impl Write, bytes: &[u8]) -> io::Result<()> {
    out.write_all(bytes)
}

// Writes a number behind a space.
pub fn print_field(out: &mut impl Write, n: impl Display + Drop) -> io::Result<()> {
    write!(out, " {n}")
}

// Writes the numbers of a table so.
pub fn print_fields<T: Display>(out: &mut impl Write, table: &[T]) -> io::Result<()> {
    for n in table {
        print_field(out, n)?;
    }
    Ok(())
}

// Writes `yes` or `no`.
pub fn print_verdict(out: &mut impl Write, holds: bool) -> io::Result<()> {
    print(out, if holds { b"yes" } else { b"no" })
}

// Writes bytes in hexadecimal, `-` where there are none.
pub fn print_bytes(out: &mut impl Write, bytes: &[u8]) -> io::Result<()> {
    if bytes.is_empty() {
        return print(out, b"-");
    }
    for b in bytes {
        write!(out, "{b:02x}")?;
    }
    Ok(())
}

// Reads into `out` until it is full or the input ends; how many bytes. An error of the reader is passed on,
// and what was read before it stands in `out`.
pub fn read_full(mut from: impl Read + Drop, out: &mut [u8]) -> io::Result<usize>
    ensures ok { IfOk result (λ n. (n ≤ length out.new) × (n ≡ length (take n out.new))) }
    ensures left { length out.new ≡ length out.old }
{
    let mut n = 0;
    // A loop over `read`, since `read_exact` does not say how many bytes came before the input's end, and `read_to_end` needs a heap.
    while n < out.len() {
        let more = from.read(&mut out[n..])?;
        if more == 0 {
            return Ok(n);
        }
        n += more;
    }
    Ok(n)
}

// Reads a file by its name into `out`, as much as it has room for; how many bytes. A file that cannot be opened has none. An error
// of a read is passed on, and what was read before it stands in `out`.
pub fn read_file(files: &impl Files, name: &[u8], out: &mut [u8]) -> io::Result<usize>
    ensures ok { IfOk result (λ n. (n ≤ length out.new) × (n ≡ length (take n out.new))) }
    ensures left { length out.new ≡ length out.old }
{
    let Ok(path) = str::from_utf8(name) else {
        return Ok(0);
    };
    match fs::open(files, path) {
        Ok(file) => read_full(file, out),
        Err(_) => Ok(0),
    }
}

// The bytes that the n-th word of a line says, at the start of `out`: in hexadecimal, or as a file's name where the line begins with
// `file`; how many they are.
pub fn read_bytes(files: &impl Files, line: &[u8], n: usize, out: &mut [u8]) -> io::Result<usize>
    ensures ok { IfOk result (λ n. (n ≤ length out.new) × (n ≡ length (take n out.new))) }
    ensures left { length out.new ≡ length out.old }
{
    if is(word(line, 0), b"file") {
        return read_file(files, word(line, n), out);
    }
    Ok(bytes(word(line, n), out))
}

// The lines of a script from a place on.
#[derive(Drop)]
struct Lines<'a> {
    text: &'a [u8],
    at: usize,
}

impl<'a> Iterator for Lines<'a> {
    type Item = &'a [u8];

    ghost remaining = { λ s. at_most (length s.text.now - s.at) };

    fn next(&mut self) -> Option<&'a [u8]> {
        if self.text.len() <= self.at {
            return None;
        }
        let line = line(self.text, self.at);
        self.at = next_line(self.text, self.at);
        Some(line)
    }
}

// What a program does with the lines of its script.
pub trait Answers {
    // What stands between a line and its answer.
    fn between(&self) -> &'static [u8] {
        b" -> "
    }

    // Writes the answer of a line, and the end of its last line.
    fn answer(&mut self, out: &mut impl Write, line: &[u8]) -> io::Result<()>;
}

// Writes a line, and the answer where it asks for one.
fn respond(answers: &mut impl Answers, out: &mut impl Write, line: &[u8]) -> io::Result<()> {
    print(out, line)?;
    if !is_asked(line) {
        return print(out, b"\n");
    }
    print(out, answers.between())?;
    answers.answer(out, line)
}

// Answers a script, line by line.
fn respond_to_all(answers: &mut impl Answers, out: &mut impl Write, text: &[u8]) -> io::Result<()> {
    for line in (Lines { text, at: 0 }) {
        respond(answers, out, line)?;
    }
    Ok(())
}

// Reads a script into `input`, and answers it.
pub fn run(
    from: impl Read + Drop,
    out: &mut impl Write,
    input: &mut [u8],
    answers: &mut impl Answers,
) -> io::Result<()> {
    let n = read_full(from, input)?;
    respond_to_all(answers, out, &input[..n])
}

// How many bytes a script has at most, and a file that a line builds.
pub const SPACE: usize = 2097152;

// How many bytes one line says at most.
pub const LINE: usize = 65536;

// How many cells a table has at most: one for every slot of a pool.
pub const CELLS: usize = 65536;

// As many zeros as the array that is asked for has.
pub fn zeros<T: Copy + Default, const N: usize>() -> [T; N]
    ensures { N ≡ length result }
{
    [T::default(); N]
}
