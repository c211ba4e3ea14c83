// A field or a method, judged line by line up to its attributes: names, descriptors, shape, duplicates, room.
#![tactic(auto)]

ghost use Rattle.std.specs.Prelude.{◌≡◌, ◌+◌, ◌<◌};
ghost use Rattle.reads.specs.Promise.{Is, answered, number_of};
ghost use Rattle.slot.specs.Slots.{bytes_of};
ghost use Rattle.slot.specs.Shown.{shown};
ghost use Rattle.member.specs.Member.{masked, good_name, good_type, good_text, shape, good_shape, alike, twice, text_in, parts_at, member_at};

use reads::{Answer, Reason};
use slot::Pool;

// Which members are read: fields, or methods, and whether of an interface. Two flags and no enum: the definitions
// take the one and the other, and `member_at` is public over both.
#[derive(Clone, Copy)]
pub struct Sort {
    pub method: bool,
    pub in_interface: bool,
}

// What a member says of itself before its attributes: masked flags, the slots of its name and its descriptor, its number of attributes.
#[derive(Clone, Copy)]
pub struct Member {
    pub flags: u16,
    pub name: u16,
    pub descriptor: u16,
    pub count: u16,
}

// A slot of a text, and the bytes that it holds.
#[derive(Clone, Copy)]
struct Text<'a> {
    slot: u16,
    bytes: &'a [u8],
}

// Flags outside the mask are dropped.
#[tactic(auto, unfolding(crate::specs::Member::masked))]
fn mask(method: bool, flags: u16) -> u16
    ensures { result ≡ masked method flags }
{
    if method {
        flags & 0x1DFF
    } else {
        flags & 0x50DF
    }
}

// Whether a member may have these bytes as its name.
#[tactic(auto, unfolding(crate::specs::Member::good_name))]
fn is_good_name(sort: Sort, t: &[u8]) -> bool
    ensures { result ≡ good_name sort t.now }
{
    if sort.method {
        return text::is_unqualified_method_name(t, sort.in_interface);
    }
    text::is_unqualified_name(t)
}

// Whether a member may have these bytes as its descriptor.
#[tactic(auto, unfolding(crate::specs::Member::good_type))]
fn is_good_type(sort: Sort, t: &[u8]) -> bool
    ensures { result ≡ good_type sort t.now }
{
    if sort.method {
        return descriptors::is_method_descriptor(t);
    }
    descriptors::is_field_descriptor(t)
}

// A name, where the refusal would be that of a bad one, else a descriptor: the reason says which, as `good_text` has it.
#[tactic(auto, unfolding(crate::specs::Member::good_text))]
fn is_good(sort: Sort, bad: Reason, t: &[u8]) -> bool
    ensures { result ≡ good_text sort (number_of bad) t.now }
{
    match bad {
        Reason::BadName => is_good_name(sort, t),
        _ => is_good_type(sort, t),
    }
}

// The shape of `<init>` and `<clinit>`.
#[tactic(auto, unfolding(crate::specs::Member::shape))]
fn has_shape(major: u16, name: &[u8], descriptor: &[u8]) -> bool
    ensures { result ≡ shape major name.now descriptor.now }
{
    if text::is_init(name) {
        return descriptors::returns_void(descriptor);
    }
    if text::is_clinit(name) {
        return descriptors::returns_void(descriptor)
            && (major < 51 || descriptors::takes_nothing(descriptor));
    }
    true
}

// The shape of a method whose name is in slot m and whose descriptor is in slot n.
#[tactic(auto, unfolding(crate::specs::Member::good_shape))]
fn is_good_shape(sort: Sort, p: &Pool, m: usize, n: usize) -> bool
    ensures { result ≡ good_shape sort (shown p.now) m n }
{
    if sort.method {
        return has_shape(p.major, p.bytes(m), p.bytes(n));
    }
    true
}

// Whether slot m, a Utf8 entry, has the bytes of a text: the same slot has. A part of the loop over the members before, which is the
// work of a class of many members: as a call of its own it took a quarter longer.
#[inline(always)]
#[tactic(auto, using(crate::proofs::Duplicates::alike_self, text::proofs::Names::pointwise_same), unfolding(crate::specs::Member::alike))]
fn is_alike(p: &Pool, mine: &Text, m: u16) -> bool
    requires { mine.now.bytes.now ≡ bytes_of (shown p.now) mine.now.slot }
    ensures { result ≡ alike (shown p.now) mine.now.slot m }
{
    mine.slot == m || mine.bytes == p.bytes(m as usize)
}

// The text in a slot.
fn text_of<'f, 't>(p: &Pool<'f, 't>, slot: u16) -> Text<'f>
    ensures slot { result.slot ≡ slot }
    ensures bytes { result.bytes.now ≡ bytes_of (shown p.now) slot }
{
    Text {
        slot,
        bytes: p.bytes(slot as usize),
    }
}

// Whether a member of that name and descriptor is among those whose names and descriptors are given.
fn is_twice(p: &Pool, name: u16, descriptor: u16, names: &[u16], types: &[u16]) -> bool
    ensures { result ≡ twice (shown p.now) name descriptor names.now types.now }
{
    let my_name = text_of(p, name);
    let my_descriptor = text_of(p, descriptor);
    names.iter().zip(types).any(|(m, t)| is_alike(p, &my_name, *m)
        && is_alike(p, &my_descriptor, *t))
}

// That slot m is a text that a member may have as its name or its descriptor: which, the reason of the refusal says.
#[tactic(auto, unfolding(crate::specs::Member::text_in))]
fn check_text(sort: Sort, bad: Reason, p: &Pool, place: usize, m: usize) -> Answer<()>
    ensures { Is answered (text_in sort (number_of bad) (shown p.now) place m) result }
{
    p.check_utf8_index(place, m)?;
    if is_good(sort, bad, p.bytes(m)) {
        return Ok(());
    }
    Err(bad.at(place))
}

// A member's name, its descriptor and, of a method, its shape; `at` is the member's first byte.
#[tactic(auto, unfolding(crate::specs::Member::parts_at))]
fn check_parts(sort: Sort, p: &Pool, at: usize, name: u16, descriptor: u16) -> Answer<()>
    requires { at + 4 < 18446744073709551616 }
    ensures { Is answered (parts_at sort (shown p.now) at name descriptor) result }
{
    let m = name as usize;
    let n = descriptor as usize;
    check_text(sort, Reason::BadName, p, at + 2, m)?;
    check_text(sort, Reason::BadDescriptor, p, at + 4, n)?;
    if is_good_shape(sort, p, m, n) {
        return Ok(());
    }
    Err(Reason::BadShape.at(at))
}

// The member at a byte of the file, up to its attributes; it becomes record n. The names and descriptors are those of the members of
// its sort before it.
#[tactic(auto, using(reads::proofs::Leaves::u2_in), unfolding(crate::specs::Member::member_at))]
pub fn member_at(
    sort: Sort,
    p: &Pool,
    room: usize,
    n: usize,
    at: usize,
    names: &[u16],
    types: &[u16],
) -> Answer<Member>
    ensures { Is answered (member_at sort (shown p.now) room n at names.now types.now) result }
{
    let flags = reads::read_u2(p.file, at)?;
    let name = reads::read_u2(p.file, at + 2)?;
    let descriptor = reads::read_u2(p.file, at + 4)?;
    check_parts(sort, p, at, name, descriptor)?;
    if is_twice(p, name, descriptor, names, types) {
        return Err(Reason::Twice.at(at));
    }
    if room <= n {
        return Err(Reason::NoRoom.at(at));
    }
    let count = reads::read_u2(p.file, at + 6)?;
    Ok(Member {
        flags: mask(sort.method, flags),
        name,
        descriptor,
        count,
    })
}
