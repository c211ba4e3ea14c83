// The pool's entries, read into a lent table: cell n is the file offset of slot n's tag byte, 0 for Zero and Unused.
#![tactic(auto)]

ghost use Rattle.std.specs.Prelude.{◌≡◌, ◌+◌, ◌≤◌, length, replicate};
ghost use Rattle.reads.specs.Answer.{mapped};
ghost use Rattle.reads.specs.Promise.{Is, answered, Accepted};
ghost use Rattle.reads.specs.Tables.{padded, after};
ghost use Rattle.pool.specs.Named.{kind_of};
ghost use Rattle.pool.specs.Rows.{first, row_of};
ghost use Rattle.pool.specs.Pool.{second_width, wide, entry_at, slot_at, all_entries, header_of, read_pool};
ghost use Rattle.pool.specs.Readings.{made_of, head_of};

use reads::{Answer, Reason};

// The kinds of entries, by their tags.
#[derive(Clone, Copy, Debug, PartialEq, Eq)]
pub enum Kind {
    Utf8 = 1,
    Integer = 3,
    Float = 4,
    Long = 5,
    Double = 6,
    Class = 7,
    String = 8,
    FieldRef = 9,
    MethodRef = 10,
    InterfaceMethodRef = 11,
    NameAndType = 12,
    MethodHandle = 15,
    MethodType = 16,
    Dynamic = 17,
    InvokeDynamic = 18,
    Module = 19,
    Package = 20,
}

impl Kind {
    // The kind whose tag that is, if there is one. `of` and no `TryFrom`: a tag of no kind is no error, its slot has no rule.
    #[tactic(auto, unfolding(crate::specs::Named::kind_of))]
    pub fn of(tag: u8) -> Option<Kind>
        ensures { result ≡ kind_of tag }
    {
        match tag {
            1 => Some(Kind::Utf8),
            3 => Some(Kind::Integer),
            4 => Some(Kind::Float),
            5 => Some(Kind::Long),
            6 => Some(Kind::Double),
            7 => Some(Kind::Class),
            8 => Some(Kind::String),
            9 => Some(Kind::FieldRef),
            10 => Some(Kind::MethodRef),
            11 => Some(Kind::InterfaceMethodRef),
            12 => Some(Kind::NameAndType),
            15 => Some(Kind::MethodHandle),
            16 => Some(Kind::MethodType),
            17 => Some(Kind::Dynamic),
            18 => Some(Kind::InvokeDynamic),
            19 => Some(Kind::Module),
            20 => Some(Kind::Package),
            _ => None,
        }
    }
}

// What the table of entries says of a tag: the major version from which on it is known, the widths of the two reads after the tag,
// and where its two references stand, from the tag byte on; 0 for none. No version knows what is known from 65536 on.
// No `Option`s and no names: `row_of` is public, and its clause says this row of these numbers.
#[derive(Clone, Copy)]
pub struct Row(pub u32, pub u8, pub u8, pub u8, pub u8);

// An entry: the byte after it, and whether it takes two slots. No `Option`: an entry has both.
#[derive(Clone, Copy)]
struct Entry {
    next: usize,
    wide: bool,
}

// A slot: its cell, the byte after its entry, and whether the next slot is the second of a wide entry. No Option: a slot has all three.
#[derive(Clone, Copy)]
pub struct Slot {
    pub cell: usize,
    pub next: usize,
    pub wide: bool,
}

// How many slots were made, and the byte after the last entry.
#[derive(Clone, Copy)]
struct Made {
    slots: usize,
    next: usize,
}

// The numbers that stand before the first entry.
#[derive(Clone, Copy)]
pub struct Header {
    pub minor: u16,
    pub major: u16,
    pub count: u16,
}

// What an accepted pool answers: P, the version, and the byte after the pool, where the class goes on.
#[derive(Clone, Copy)]
pub struct Head {
    pub slots: usize,
    pub minor: u16,
    pub major: u16,
    pub next: usize,
}

// Sets of kinds: bit k for the kind whose tag is k. A set is a number, since `check_kind` and `check_asked` are public and take one.
pub const UTF8: u32 = 1 << Kind::Utf8 as u32;

pub const INTEGER: u32 = 1 << Kind::Integer as u32;

pub const FLOAT: u32 = 1 << Kind::Float as u32;

pub const LONG: u32 = 1 << Kind::Long as u32;

pub const DOUBLE: u32 = 1 << Kind::Double as u32;

pub const CLASS: u32 = 1 << Kind::Class as u32;

pub const STRING: u32 = 1 << Kind::String as u32;

pub const FIELD_REF: u32 = 1 << Kind::FieldRef as u32;

pub const METHOD_REF: u32 = 1 << Kind::MethodRef as u32;

pub const INTERFACE_METHOD_REF: u32 = 1 << Kind::InterfaceMethodRef as u32;

pub const NAME_AND_TYPE: u32 = 1 << Kind::NameAndType as u32;

pub const METHOD_HANDLE: u32 = 1 << Kind::MethodHandle as u32;

pub const METHOD_TYPE: u32 = 1 << Kind::MethodType as u32;

pub const DYNAMIC: u32 = 1 << Kind::Dynamic as u32;

pub const INVOKE_DYNAMIC: u32 = 1 << Kind::InvokeDynamic as u32;

pub const MODULE: u32 = 1 << Kind::Module as u32;

pub const PACKAGE: u32 = 1 << Kind::Package as u32;

// The row of a tag: the table of entries. An arm is a constant; an array would be made anew in each call. The tag is
// matched, and not its `Kind`: of a match on `Kind::of` the compiler makes an array again, by which a pool is read 15 % slower.
#[tactic(auto, unfolding(crate::specs::Rows::row_of))]
pub fn row_of(tag: u8) -> Row
    ensures { result ≡ row_of tag }
{
    match tag {
        1 => Row(0, 2, 0, 0, 0), // Utf8
        3 => Row(0, 4, 0, 0, 0), // Integer
        4 => Row(0, 4, 0, 0, 0), // Float
        5 => Row(0, 8, 0, 0, 0), // Long
        6 => Row(0, 8, 0, 0, 0), // Double
        7 => Row(0, 2, 0, 1, 0), // Class
        8 => Row(0, 2, 0, 1, 0), // String
        9 => Row(0, 2, 2, 1, 3), // FieldRef
        10 => Row(0, 2, 2, 1, 3), // MethodRef
        11 => Row(0, 2, 2, 1, 3), // InterfaceMethodRef
        12 => Row(0, 2, 2, 1, 3), // NameAndType
        15 => Row(51, 1, 2, 2, 0), // MethodHandle
        16 => Row(51, 2, 0, 1, 0), // MethodType
        17 => Row(55, 2, 2, 3, 0), // Dynamic
        18 => Row(51, 2, 2, 3, 0), // InvokeDynamic
        19 => Row(53, 2, 0, 1, 0), // Module
        20 => Row(53, 2, 0, 1, 0), // Package
        _ => Row(65536, 0, 0, 0, 0),
    }
}

// The width of an entry's second read, after the first at b was found in the file: of a Utf8 what the first gives, of a handle only
// where its kind is known, a number from 1 to 9 of which nothing else is asked here. Neither is asked for a second time, so that a slot
// is short enough to become part of the loop over it.
#[tactic(auto, unfolding(crate::specs::Pool::second_width, crate::specs::Rows::row_of, reads::specs::Bytes::u2, reads::specs::Bytes::u1, reads::specs::Bytes::within))]
fn second_width(file: &[u8], b: usize, tag: u8, width: u8) -> Answer<u16>
    requires { b + first (row_of tag) ≤ length file.now }
    ensures { Is answered (second_width file.now b tag width) result }
{
    if tag == Kind::Utf8 as u8 {
        return Ok(u16::from_be_bytes([file[b], file[b + 1]]));
    }
    if tag == Kind::MethodHandle as u8 {
        let kind = file[b];
        if kind < 1 || 9 < kind {
            return Err(Reason::Unknown.at(b));
        }
    }
    Ok(width as u16)
}

// Long and Double take two slots.
#[tactic(auto, unfolding(crate::specs::Pool::wide))]
fn is_wide(tag: u8) -> bool
    ensures { result ≡ wide tag }
{
    tag == Kind::Long as u8 || tag == Kind::Double as u8
}

// The entry whose tag stands at a byte of the file.
#[tactic(auto, using(reads::proofs::Leaves::u1_in, reads::proofs::Leaves::skipped_in), unfolding(crate::specs::Pool::entry_at))]
fn entry_at(file: &[u8], major: u16, at: usize) -> Answer<Entry>
    ensures { Is answered (entry_at file.now major at) result }
{
    let tag = reads::read_u1(file, at)?;
    let row = row_of(tag);
    if (major as u32) < row.0 {
        return Err(Reason::Unknown.at(at));
    }
    let middle = reads::skip(file, at + 1, row.1 as usize)?;
    let width = second_width(file, at + 1, tag, row.2)?;
    let next = reads::skip(file, middle, width as usize)?;
    let wide = is_wide(tag);
    Ok(Entry { next, wide })
}

// Slot n of a table with room for that many cells; owed says that it is the second of a wide entry. The cell is asked for before the
// tag is read. A walk over a handed table takes its slots from here. `owed` is an argument of the definition, and so it is here.
#[tactic(auto, unfolding(crate::specs::Pool::slot_at))]
pub fn slot_at(
    file: &[u8],
    major: u16,
    room: usize,
    n: usize,
    owed: bool,
    at: usize,
) -> Answer<Slot>
    ensures { Is answered (slot_at file.now major room n owed at) result }
{
    if room <= n {
        return Err(Reason::NoCell.at(n));
    }
    if owed {
        return Ok(Slot {
            cell: 0,
            next: at,
            wide: false,
        });
    }
    let e = entry_at(file, major, at)?;
    Ok(Slot {
        cell: at,
        next: e.next,
        wide: e.wide,
    })
}

// All slots, into a table that is zero; after a refusal some of it may be written.
#[tactic(auto, using(crate::proofs::Entries::slot_in, crate::proofs::Entries::cell_below, crate::proofs::Filling::begin, crate::proofs::Filling::turn))]
fn fill(file: &[u8], major: u16, count: usize, table: &mut [u32]) -> Answer<Made>
    requires { (length file.now ≤ 16777216) × (table.old ≡ replicate (length table.old) 0) }
    ensures is { Is answered (mapped made_of (all_entries file.now major count (length table.old))) result }
    ensures table_after { Accepted (all_entries file.now major count (length table.old)) (λ x. padded 0 (length table.old) x.cells) table.new }
{
    if table.is_empty() {
        return Err(Reason::NoCell.at(0));
    }
    let mut at = 10;
    let mut owed = false;
    for n in 1..count {
        let e = slot_at(file, major, table.len(), n, owed, at)?;
        table[n] = e.cell as u32;
        at = e.next;
        owed = e.wide;
    }
    let slots = count.max(1);
    if !owed {
        return Ok(Made { slots, next: at });
    }
    if table.len() <= slots {
        return Err(Reason::NoCell.at(slots));
    }
    Ok(Made {
        slots: slots + 1,
        next: at,
    })
}

// The bytes before the first entry: the length, the magic number, the version and the count.
#[tactic(auto, unfolding(crate::specs::Pool::header_of))]
pub fn header_of(file: &[u8]) -> Answer<Header>
    ensures { Is answered (header_of file.now) result }
{
    if 16777216 < file.len() {
        return Err(Reason::TooLong.at(0));
    }
    let magic = reads::read_u4(file, 0)?;
    if magic != 0xCAFE_BABE {
        return Err(Reason::NoMagic.at(0));
    }
    let minor = reads::read_u2(file, 4)?;
    let major = reads::read_u2(file, 6)?;
    let count = reads::read_u2(file, 8)?;
    Ok(Header {
        minor,
        major,
        count,
    })
}

// The pool's entries, read into the lent table; nothing of them is checked yet. After a refusal the table is zero.
#[tactic(auto, using(crate::proofs::Entries::header_in))]
pub fn read_entries(file: &[u8], table: &mut [u32]) -> Answer<Head>
    ensures answer { Is answered (mapped head_of (read_pool file.now (length table.old))) result }
    ensures table { table.new ≡ after 0 (λ w. w.pool.cells) (length table.old) (read_pool file.now (length table.old)) }
{
    reads::clear(table);
    let h = header_of(file)?;
    match fill(file, h.major, h.count as usize, table) {
        Err(r) => {
            reads::clear(table);
            Err(r)
        }
        Ok(m) => Ok(Head {
            slots: m.slots,
            minor: h.minor,
            major: h.major,
            next: m.next,
        }),
    }
}
