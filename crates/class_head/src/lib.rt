// The class header (flags, this, super) and the interfaces, which go into a lent list of slots.
#![tactic(auto)]

ghost use Rattle.std.specs.Prelude.{◌≡◌, length, replicate};
ghost use Rattle.reads.specs.Answer.{accept, mapped};
ghost use Rattle.reads.specs.Bytes.{u2};
ghost use Rattle.reads.specs.Promise.{Is, answered, Accepted};
ghost use Rattle.reads.specs.Tables.{padded, after};
ghost use Rattle.slot.specs.Shown.{shown};
ghost use Rattle.class_head.specs.Header.{class_at, super_at, head_at, interface_at, interfaces_at};
ghost use Rattle.class_head.specs.Readings.{listed_of};

use reads::{Answer, Reason};
use slot::Pool;

// Flags as the file has them, and the slots of this and super.
#[derive(Clone, Copy)]
pub struct ClassHead {
    pub flags: u16,
    pub this: u16,
    pub parent: u16,
}

// How many slots a list holds, and the byte after it.
#[derive(Clone, Copy)]
pub struct Listed {
    pub count: u16,
    pub next: usize,
}

// That m is a slot, of kind Class, with a binary name.
#[tactic(auto, unfolding(crate::specs::Header::class_at))]
fn check_class(p: &Pool, place: usize, m: usize) -> Answer<()>
    ensures { Is answered (class_at (shown p.now) place m) result }
{
    p.check_range(place, m)?;
    p.check_kind(place, pool::CLASS, m)?;
    let name = p.field(m, 1) as usize;
    if text::is_binary_name(p.bytes(name)) {
        return Ok(());
    }
    Err(Reason::BadName.at(place))
}

// That m is the slot of a super class: 0, where there is none, or a slot of kind Class with a binary name.
#[tactic(auto, unfolding(crate::specs::Header::super_at))]
fn check_super(p: &Pool, place: usize, m: usize) -> Answer<()>
    ensures { Is answered (super_at (shown p.now) place m) result }
{
    if m == 0 {
        return Ok(());
    }
    check_class(p, place, m)
}

// Flags, this and super from a byte of the file on.
#[tactic(auto, using(reads::proofs::Leaves::u2_in), unfolding(crate::specs::Header::head_at))]
pub fn read_head(p: &Pool, at: usize) -> Answer<ClassHead>
    ensures { Is answered (head_at (shown p.now) at) result }
{
    let flags = reads::read_u2(p.file, at)?;
    let this = reads::read_u2(p.file, at + 2)?;
    check_class(p, at + 2, this as usize)?;
    let parent = reads::read_u2(p.file, at + 4)?;
    check_super(p, at + 4, parent as usize)?;
    Ok(ClassHead {
        flags,
        this,
        parent,
    })
}

// The interface at a byte of the file, number n of a list with room for that many.
#[tactic(auto, unfolding(crate::specs::Header::interface_at))]
fn interface_at(p: &Pool, room: usize, n: usize, at: usize) -> Answer<u16>
    ensures { Is answered (interface_at (shown p.now) room n at) result }
{
    let m = reads::read_u2(p.file, at)?;
    check_class(p, at, m as usize)?;
    if room <= n {
        return Err(Reason::NoRoom.at(at));
    }
    Ok(m)
}

// The interfaces, `count` of them, into a list that is zero; after a refusal some of it may be written.
#[tactic(auto, using(reads::proofs::Leaves::u2_in, crate::proofs::Listing::interface_in, crate::proofs::Listing::begin, crate::proofs::Listing::turn))]
fn fill(p: &Pool, start: usize, count: u16, list: &mut [u16]) -> Answer<Listed>
    requires zero { list.old ≡ replicate (length list.old) 0 }
    requires counted { accept count ≡ u2 p.now.file.now start }
    ensures is { Is answered (mapped listed_of (interfaces_at (shown p.now) (length list.old) start)) result }
    ensures list_after { Accepted (interfaces_at (shown p.now) (length list.old) start) (λ m. padded 0 (length list.old) m.list) list.new }
{
    let mut at = start + 2;
    for n in 0..count as usize {
        list[n] = interface_at(p, list.len(), n, at)?;
        at += 2;
    }
    Ok(Listed { count, next: at })
}

// The interfaces, from their number at a byte of the file on, into a lent list; after a refusal the list is zero. Where the number itself
// is cut off nothing was written, and a long list is not made zero twice.
pub fn read_interfaces(p: &Pool, start: usize, list: &mut [u16]) -> Answer<Listed>
    ensures answer { Is answered (mapped listed_of (interfaces_at (shown p.now) (length list.old) start)) result }
    ensures list { list.new ≡ after 0 (λ m. m.list) (length list.old) (interfaces_at (shown p.now) (length list.old) start) }
{
    reads::clear(list);
    let count = reads::read_u2(p.file, start)?;
    let answer = fill(p, start, count, list);
    if answer.is_err() {
        reads::clear(list);
    }
    answer
}
