// Every slot of a handed table's pool in one reading: its tag and two numbers, into lent lists.
#![tactic(auto)]

ghost use Rattle.std.specs.Prelude.{◌≡◌, ◌+◌, ◌≤◌, length, replicate};
ghost use Rattle.reads.specs.Answer.{mapped};
ghost use Rattle.reads.specs.Promise.{Is, answered};
ghost use Rattle.reads.specs.Tables.{padded, after};
ghost use Rattle.pool.specs.Named.{tag_for};
ghost use Rattle.pool.specs.Pool.{slots as slots_in};
ghost use Rattle.slot.specs.Slots.{tag_of};
ghost use Rattle.slot.specs.Shown.{shown};
ghost use Rattle.values.specs.Lookups.{cut};
ghost use Rattle.listing.specs.Forms.{form_of, num_of};
ghost use Rattle.listing.specs.Listing.{first_of, second_of, up_to, column, listed_at, listed, room_of};

use pool::Kind;
use reads::{Answer, Reason};
use slot::Pool;

// Which two numbers of an entry are listed: the place of each, from the tag byte on, and its width; 0 and 0 for none.
// A row of bare numbers, and no `Option`s: so the table below reads line by line as `forms` of specs/Forms.antt.
#[derive(Clone, Copy)]
struct Form(u8, u8, u8, u8);

impl Form {
    // The form of a kind.
    #[tactic(auto, unfolding(crate::specs::Forms::form_of))]
    fn of(kind: Kind) -> Form
        ensures { result ≡ form_of (tag_for kind) }
    {
        match kind {
            Kind::Utf8 => Form(0, 0, 1, 2),
            Kind::Integer => Form(1, 4, 0, 0),
            Kind::Float => Form(1, 4, 0, 0),
            Kind::Long => Form(1, 4, 5, 4),
            Kind::Double => Form(1, 4, 5, 4),
            Kind::Class => Form(1, 2, 0, 0),
            Kind::String => Form(1, 2, 0, 0),
            Kind::FieldRef => Form(1, 2, 3, 2),
            Kind::MethodRef => Form(1, 2, 3, 2),
            Kind::InterfaceMethodRef => Form(1, 2, 3, 2),
            Kind::NameAndType => Form(1, 2, 3, 2),
            Kind::MethodHandle => Form(1, 1, 2, 2),
            Kind::MethodType => Form(1, 2, 0, 0),
            Kind::Dynamic => Form(1, 2, 3, 2),
            Kind::InvokeDynamic => Form(1, 2, 3, 2),
            Kind::Module => Form(1, 2, 0, 0),
            Kind::Package => Form(1, 2, 0, 0),
        }
    }
}

// The form of a tag.
#[tactic(auto, using(crate::proofs::Named::formed, crate::proofs::Named::formless))]
fn form_of(tag: u8) -> Form
    ensures { result ≡ form_of tag }
{
    match Kind::of(tag) {
        Some(kind) => Form::of(kind),
        None => Form(0, 0, 0, 0),
    }
}

// The number of that width that stands k bytes after a tag byte. The width is a number of the row, as in the definition.
#[tactic(auto, unfolding(crate::specs::Forms::num_of))]
fn num_of(file: &[u8], c: u32, k: u8, width: u8) -> u32
    ensures { result ≡ num_of file.now (c + k) width }
{
    let at = c as usize + k as usize;
    match width {
        1 => reads::byte_at(file, at) as u32,
        2 => reads::pair_at(file, at) as u32,
        4 => reads::pair_at(file, at) as u32 * 65536 + reads::pair_at(file, at + 2) as u32,
        _ => 0,
    }
}

// A place in the file, no further than its end.
#[tactic(auto, unfolding(values::specs::Lookups::cut))]
fn cut_at(file: &[u8], at: usize) -> u32
    requires { length file.now ≤ 16777216 }
    ensures { result ≡ cut file.now at }
{
    at.min(file.len()) as u32
}

// The first number of slot n.
#[tactic(auto, unfolding(crate::specs::Listing::first_of))]
fn first_of(p: &Pool, n: usize) -> u32
    requires { length p.now.file.now ≤ 16777216 }
    ensures { result ≡ first_of (shown p.now) n }
{
    let c = p.cell(n);
    let tag = p.tag(n);
    if tag == Kind::Utf8 as u8 {
        return cut_at(p.file, c as usize + 3);
    }
    let form = form_of(tag);
    num_of(p.file, c, form.0, form.1)
}

// The second number of slot n.
#[tactic(auto, unfolding(crate::specs::Listing::second_of))]
fn second_of(p: &Pool, n: usize) -> u32
    ensures { result ≡ second_of (shown p.now) n }
{
    let form = form_of(p.tag(n));
    num_of(p.file, p.cell(n), form.2, form.3)
}

// The first `end` slots, into lists that are zero and have room for them.
fn fill(p: &Pool, end: usize, tags: &mut [u8], firsts: &mut [u32], seconds: &mut [u32])
    requires { (length p.now.file.now ≤ 16777216) × (end ≤ room_of tags.old firsts.old seconds.old) × (tags.old ≡ replicate (length tags.old) 0) × (firsts.old ≡ replicate (length firsts.old) 0) × (seconds.old ≡ replicate (length seconds.old) 0) }
    ensures { let q = shown p.now in
        (tags.new ≡ padded 0 (length tags.old) (up_to end (tag_of q)))
        × (firsts.new ≡ padded 0 (length firsts.old) (up_to end (first_of q)))
        × (seconds.new ≡ padded 0 (length seconds.old) (up_to end (second_of q))) }
{
    for n in 0..end {
        tags[n] = p.tag(n);
        firsts[n] = first_of(p, n);
        seconds[n] = second_of(p, n);
    }
}

// All slots of a pool that was checked, into lists that are zero.
fn list_all(p: &Pool, tags: &mut [u8], firsts: &mut [u32], seconds: &mut [u32]) -> Answer<usize>
    requires { (length p.now.file.now ≤ 16777216) × (tags.old ≡ replicate (length tags.old) 0) × (firsts.old ≡ replicate (length firsts.old) 0) × (seconds.old ≡ replicate (length seconds.old) 0) }
    ensures answer { Is answered (mapped slots_in (listed_at (room_of tags.old firsts.old seconds.old) (shown p.now))) result }
    ensures tags { tags.new ≡ after 0 (column tag_of) (length tags.old) (listed_at (room_of tags.old firsts.old seconds.old) (shown p.now)) }
    ensures firsts { firsts.new ≡ after 0 (column first_of) (length firsts.old) (listed_at (room_of tags.old firsts.old seconds.old) (shown p.now)) }
    ensures seconds { seconds.new ≡ after 0 (column second_of) (length seconds.old) (listed_at (room_of tags.old firsts.old seconds.old) (shown p.now)) }
{
    let end = p.count();
    let room = tags.len().min(firsts.len()).min(seconds.len());
    if room < end {
        return Err(Reason::NoRoom.at(end));
    }
    fill(p, end, tags, firsts, seconds);
    Ok(end)
}

// Every slot of a handed table's pool by its tag, 0 for Zero and Unused, and two numbers: of a Utf8 where its bytes stand in the file and
// how many they are; the bits of an Integer and a Float; the higher and the lower bits of a Long and a Double; the slot that a Class, a
// String, a MethodType, a Module and a Package name; the two slots of a member reference and of a NameAndType; a handle's kind and slot;
// of a Dynamic and an InvokeDynamic the index and the NameAndType's slot. Cells past the slots are zero, and all are after a refusal. Three
// slices, since C lends each by itself.
pub fn list_slots(
    file: &[u8],
    table: &[u32],
    tags: &mut [u8],
    firsts: &mut [u32],
    seconds: &mut [u32],
) -> Answer<usize>
    ensures answer { Is answered (mapped slots_in (listed file.now table.now (room_of tags.old firsts.old seconds.old))) result }
    ensures tags { tags.new ≡ after 0 (column tag_of) (length tags.old) (listed file.now table.now (room_of tags.old firsts.old seconds.old)) }
    ensures firsts { firsts.new ≡ after 0 (column first_of) (length firsts.old) (listed file.now table.now (room_of tags.old firsts.old seconds.old)) }
    ensures seconds { seconds.new ≡ after 0 (column second_of) (length seconds.old) (listed file.now table.now (room_of tags.old firsts.old seconds.old)) }
{
    reads::clear(tags);
    reads::clear(firsts);
    reads::clear(seconds);
    let p = handed::pool_of(file, table)?;
    list_all(&p, tags, firsts, seconds)
}
