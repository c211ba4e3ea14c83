// Big-endian reads at a byte of the file, each with refusal 2 where it passes the end; and lent tables made zero.
#![tactic(auto)]

ghost use Rattle.std.specs.Prelude.{◌≡◌, ◌+◌, ◌≤◌, length, take, drop, replicate, OnOk};
ghost use Rattle.reads.specs.Bytes.{num1, num2, within, u1, u2, u4, skipped};
ghost use Rattle.reads.specs.Promise.{Is, answered, number_of};

use std::error::Error;
use std::fmt;

// Why a call refuses, by document 01's numbers.
#[derive(Clone, Copy, Debug, PartialEq, Eq)]
pub enum Reason {
    TooLong = 1,
    PastEnd = 2,
    NoMagic = 3,
    Unknown = 4,
    NoCell = 5,
    Itself = 6,
    NoSlot = 7,
    OtherKind = 8,
    NoText = 9,
    BadName = 10,
    BadDescriptor = 11,
    OtherTable = 12,
    NoRoom = 13,
    Twice = 14,
    BadShape = 15,
    NotOneBootstrap = 16,
    NoMethod = 17,
    LeftOver = 18,
}

// A refusal: its number and its place. The number is no `Reason`, since `slot::check_text` refuses with any that its caller gives.
#[derive(Clone, Copy, Debug, PartialEq, Eq)]
pub struct Refusal {
    pub number: u8,
    pub place: usize,
}

impl Reason {
    // The refusal for this reason at a place.
    pub fn at(self, place: usize) -> Refusal
        ensures { result ≡ record { number = number_of self; place = place } }
    {
        Refusal {
            number: self as u8,
            place,
        }
    }
}

// `NUMBER at PLACE`.
impl fmt::Display for Refusal {
    fn fmt<W: fmt::Write>(&self, f: &mut fmt::Formatter<W>) -> fmt::Result {
        write!(f, "{} at {}", self.number, self.place)
    }
}

impl Error for Refusal {}

// What a call answers: a value, or a refusal.
pub type Answer<T> = Result<T, Refusal>;

// The byte at a place of the file, 0 past its end, as the definition has it.
pub fn byte_at(s: &[u8], at: usize) -> u8
    ensures { result ≡ num1 s.now at }
{
    s.get(at).copied().unwrap_or(0)
}

// The number of the two bytes at a place of the file, each 0 past its end.
pub fn pair_at(s: &[u8], at: usize) -> u16
    ensures { result ≡ num2 s.now at }
{
    if s.len() <= at {
        return 0;
    }
    u16::from_be_bytes([byte_at(s, at), byte_at(s, at + 1)])
}

// The n bytes of the file from a place on, or as many of them as it has.
pub fn part(s: &[u8], at: usize, n: usize) -> &[u8]
    ensures { result.now ≡ take n (drop at s.now) }
{
    let rest = &s[at.min(s.len())..];
    &rest[..n.min(rest.len())]
}

// That the n bytes from `at` on do not pass the end.
#[tactic(auto, unfolding(crate::specs::Bytes::within))]
fn check_within(s: &[u8], at: usize, n: usize) -> Answer<()>
    ensures answer { Is answered (within s.now at n) result }
    ensures inside { OnOk result (at + n ≤ length s.now) }
{
    if s.len() < at || s.len() - at < n {
        return Err(Reason::PastEnd.at(at));
    }
    Ok(())
}

// The place after the n bytes from `at` on.
#[tactic(auto, unfolding(crate::specs::Bytes::skipped))]
pub fn skip(s: &[u8], at: usize, n: usize) -> Answer<usize>
    ensures { Is answered (skipped s.now at n) result }
{
    check_within(s, at, n)?;
    Ok(at + n)
}

// The byte at a place. Three reads and no generic one, which would need a trait with the definitions of all three.
#[tactic(auto, unfolding(crate::specs::Bytes::u1))]
pub fn read_u1(s: &[u8], at: usize) -> Answer<u8>
    ensures { Is answered (u1 s.now at) result }
{
    check_within(s, at, 1)?;
    Ok(s[at])
}

// The big-endian number of the two bytes from a place on.
#[tactic(auto, unfolding(crate::specs::Bytes::u2))]
pub fn read_u2(s: &[u8], at: usize) -> Answer<u16>
    ensures { Is answered (u2 s.now at) result }
{
    check_within(s, at, 2)?;
    Ok(u16::from_be_bytes([s[at], s[at + 1]]))
}

// The big-endian number of the four bytes from a place on.
#[tactic(auto, unfolding(crate::specs::Bytes::u4))]
pub fn read_u4(s: &[u8], at: usize) -> Answer<u32>
    ensures { Is answered (u4 s.now at) result }
{
    check_within(s, at, 4)?;
    Ok(u32::from_be_bytes([s[at], s[at + 1], s[at + 2], s[at + 3]]))
}

// A number that a lent table may hold.
pub trait Zero: Copy {
    ghost ZERO: { Self };

    const ZERO: Self;
}

impl Zero for u8 {
    ghost ZERO = { 0 };

    const ZERO: u8 = 0;
}

impl Zero for u16 {
    ghost ZERO = { 0 };

    const ZERO: u16 = 0;
}

impl Zero for u32 {
    ghost ZERO = { 0 };

    const ZERO: u32 = 0;
}

// Makes every number of a lent table zero. No `fill`, which asks of every type that its clone goes well, and no `Default`, whose contract
// does not say 0.
pub fn clear<T: Zero>(table: &mut [T])
    ensures { table.new ≡ replicate (length table.old) T.ZERO }
{
    for cell in table.iter_mut() {
        *cell = T::ZERO;
    }
}
