// Member and attribute records: the numbers that a class's members and attributes are read into, a slice for each, put together into lent tables of records.
#![tactic(auto)]

ghost use Rattle.std.specs.Prelude.{◌≡◌, length, get_or};
ghost use Rattle.records.specs.Records.{member_of, members_from, none, attribute_of, attributes_from, no_attribute};

use reads::Zero;

// A member: its flags, the Utf8 slots of its name and descriptor, its first attribute record, and how many it has.
#[derive(Clone, Copy, Default)]
pub struct Member {
    pub flags: u16,
    pub name: u16,
    pub descriptor: u16,
    pub first_attribute: u32,
    pub attributes: u16,
}

// Number i of a slice, and 0 past its end.
fn number<T: Zero>(list: &[T], i: usize) -> T
    ensures { result ≡ get_or list.now i T.ZERO }
{
    list.get(i).copied().unwrap_or(T::ZERO)
}

// Member i, from a slice for each of its numbers; past the end of a slice its number is 0.
// The slices of a record stay apart here and below: they are those that `class::read_class` fills for the C interface.
#[tactic(auto, unfolding(crate::specs::Records::member_of))]
pub fn member_of<'a>(
    flags: &'a [u16],
    names: &'a [u16],
    types: &'a [u16],
    firsts: &'a [u32],
    counts: &'a [u16],
    i: usize,
) -> Member
    ensures { result ≡ member_of (record { flags = flags.entry.now; names = names.now; types = types.now; firsts = firsts.now; counts = counts.now }) i }
{
    Member {
        flags: number(flags, i),
        name: number(names, i),
        descriptor: number(types, i),
        first_attribute: number(firsts, i),
        attributes: number(counts, i),
    }
}

// The lent table of records, from a slice for each number: every record is written.
pub fn member_records<'a, 'r>(
    flags: &'a [u16],
    names: &'a [u16],
    types: &'a [u16],
    firsts: &'a [u32],
    counts: &'a [u16],
    records: &'r mut [Member],
)
    ensures { records.new ≡ members_from (record { flags = flags.entry.now; names = names.now; types = types.now; firsts = firsts.now; counts = counts.now }) 0 (length records.old) }
{
    for (i, record) in records.iter_mut().enumerate() {
        *record = member_of(flags, names, types, firsts, counts, i);
    }
}

// Record i of a table of records, and one of zeros past its end. It and `attribute_at` are the public names for one line each.
pub fn record_at(records: &[Member], i: usize) -> Member
    ensures { result ≡ get_or records.now i none }
{
    records.get(i).copied().unwrap_or_default()
}

// An attribute: the Utf8 slot of its name, where its body begins in the file, and how long it is.
#[derive(Clone, Copy, Default)]
pub struct Attribute {
    pub name: u16,
    pub body: u32,
    pub length: u32,
}

// Attribute i, from a slice for each of its numbers; past the end of a slice its number is 0.
#[tactic(auto, unfolding(crate::specs::Records::attribute_of))]
pub fn attribute_of<'a>(
    titles: &'a [u16],
    bodies: &'a [u32],
    lengths: &'a [u32],
    i: usize,
) -> Attribute
    ensures { result ≡ attribute_of (record { titles = titles.entry.now; bodies = bodies.now; lengths = lengths.now }) i }
{
    Attribute {
        name: number(titles, i),
        body: number(bodies, i),
        length: number(lengths, i),
    }
}

// The lent table of attribute records, from a slice for each number: every record is written. No generic with `member_records`: the
// slices that a record is made of are the arguments, and they differ.
pub fn attribute_records<'a, 'r>(
    titles: &'a [u16],
    bodies: &'a [u32],
    lengths: &'a [u32],
    records: &'r mut [Attribute],
)
    ensures { records.new ≡ attributes_from (record { titles = titles.entry.now; bodies = bodies.now; lengths = lengths.now }) 0 (length records.old) }
{
    for (i, record) in records.iter_mut().enumerate() {
        *record = attribute_of(titles, bodies, lengths, i);
    }
}

// Record i of a table of attribute records, and one of zeros past its end.
pub fn attribute_at(records: &[Attribute], i: usize) -> Attribute
    ensures { result ≡ get_or records.now i no_attribute }
{
    records.get(i).copied().unwrap_or_default()
}
