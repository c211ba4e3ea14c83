// A whole class file, with its members and attributes as records too.
#![tactic(auto)]

ghost use Rattle.std.specs.Prelude.{◌≡◌, length};
ghost use Rattle.reads.specs.Answer.{mapped};
ghost use Rattle.reads.specs.Promise.{Is, answered};
ghost use Rattle.reads.specs.Tables.{after};
ghost use Rattle.class.specs.Columns.{lent, tabled};
ghost use Rattle.class.specs.Readings.{class_of};
ghost use Rattle.records.specs.Records.{none, no_attribute};
ghost use Rattle.class_records.specs.ClassRecords.{class_with, records_of, attribute_records_of};

use class::Class;
use reads::Answer;
use records::{Attribute, Member};

// A class file into lent tables, as `class::read_class` reads it, with room for at most so many member records and attribute records: the
// flags and the attributes' names are made zero, and only so many of them are lent on.
// The columns stay slices here: `class::read_class` asks for them so (the C interface), and a struct would be taken apart at once.
fn read_within<'c>(
    file: &[u8],
    table: &mut [u32],
    interfaces: &mut [u16],
    flags: &'c mut [u16],
    names: &'c mut [u16],
    types: &'c mut [u16],
    firsts: &'c mut [u32],
    counts: &'c mut [u16],
    titles: &'c mut [u16],
    bodies: &'c mut [u32],
    lengths: &'c mut [u32],
    most: usize,
    limit: usize,
) -> Answer<Class>
    ensures answer { let c = lent flags.old names.old types.old firsts.old counts.old titles.old bodies.old lengths.old in
        let x = class_with file.now (length table.old) (length interfaces.old) c most limit in
        Is answered (mapped class_of x) result }
    ensures tables { let c = lent flags.old names.old types.old firsts.old counts.old titles.old bodies.old lengths.old in
        let d = lent flags.new names.new types.new firsts.new counts.new titles.new bodies.new lengths.new in
        let x = class_with file.now (length table.old) (length interfaces.old) c most limit in
        (table.new ≡ after 0 (λ x. x.front.pool.pool.cells) (length table.old) x)
        × ((interfaces.new ≡ after 0 (λ x. x.front.interfaces) (length interfaces.old) x)
        × (d ≡ tabled c (mapped (λ x. x.tables) x))) }
{
    let room = most.min(flags.len());
    let framed = limit.min(titles.len());
    reads::clear(flags);
    reads::clear(titles);
    class::read_class(
        file,
        table,
        interfaces,
        &mut flags[..room],
        names,
        types,
        firsts,
        counts,
        &mut titles[..framed],
        bodies,
        lengths,
    )
}

// A class file, into lent tables: those of `class::read_class`, a table of member records, one for each field and then for each method, and
// one of attribute records, in file order, the class's own last. The shortest of the member columns and of the first says the room of members,
// the shortest of the attribute columns and of the second that of attributes. Records past those used are zero; after a refusal every one is.
pub fn read_class_records(
    file: &[u8],
    table: &mut [u32],
    interfaces: &mut [u16],
    flags: &mut [u16],
    names: &mut [u16],
    types: &mut [u16],
    firsts: &mut [u32],
    counts: &mut [u16],
    titles: &mut [u16],
    bodies: &mut [u32],
    lengths: &mut [u32],
    records: &mut [Member],
    attributes: &mut [Attribute],
) -> Answer<Class>
    ensures answer { let c = lent flags.old names.old types.old firsts.old counts.old titles.old bodies.old lengths.old in
        let x = class_with file.now (length table.old) (length interfaces.old) c (length records.old) (length attributes.old) in
        Is answered (mapped class_of x) result }
    ensures tables { let c = lent flags.old names.old types.old firsts.old counts.old titles.old bodies.old lengths.old in
        let d = lent flags.new names.new types.new firsts.new counts.new titles.new bodies.new lengths.new in
        let x = class_with file.now (length table.old) (length interfaces.old) c (length records.old) (length attributes.old) in
        (table.new ≡ after 0 (λ x. x.front.pool.pool.cells) (length table.old) x)
        × ((interfaces.new ≡ after 0 (λ x. x.front.interfaces) (length interfaces.old) x)
        × (d ≡ tabled c (mapped (λ x. x.tables) x))) }
    ensures records { let c = lent flags.old names.old types.old firsts.old counts.old titles.old bodies.old lengths.old in
        let x = class_with file.now (length table.old) (length interfaces.old) c (length records.old) (length attributes.old) in
        (records.new ≡ after none records_of (length records.old) x)
        × (attributes.new ≡ after no_attribute attribute_records_of (length attributes.old) x) }
{
    let answer = read_within(
        file,
        table,
        interfaces,
        flags,
        names,
        types,
        firsts,
        counts,
        titles,
        bodies,
        lengths,
        records.len(),
        attributes.len(),
    );
    records::member_records(flags, names, types, firsts, counts, records);
    records::attribute_records(titles, bodies, lengths, attributes);
    answer
}
