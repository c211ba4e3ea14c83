// A whole class file, into lent tables: the pool's cells, the interfaces, the members and the attributes.
#![tactic(auto)]

ghost use Rattle.std.specs.Prelude.{◌≡◌, ◌≤◌, ◌<◌, length, set, take, drop, replicate};
ghost use Rattle.reads.specs.Answer.{mapped};
ghost use Rattle.reads.specs.Promise.{Is, answered, Accepted};
ghost use Rattle.reads.specs.Tables.{after};
ghost use Rattle.slot.specs.Shown.{shown};
ghost use Rattle.attributes.specs.Attributes.{framed};
ghost use Rattle.member.specs.Member.{member_at};
ghost use Rattle.class.specs.Members.{sort_at};
ghost use Rattle.class.specs.Columns.{Number, Names, Types, Part, number, part, lent, member_room, attribute_room, rooms_of, tabled};
ghost use Rattle.class.specs.Class.{marked, class_flags, end_at, own_at, tables_at, front_at, class_file};
ghost use Rattle.class.specs.Steps.{numbers, parts, columns, limit, SameNumbers, SameParts, Same, AsLong, Long, InNumbers, InParts, rows, only, between, Ready, after_many, after_records, after_all, fronted};
ghost use Rattle.class.specs.Readings.{sorted_of, front_of, filled_of, class_of};

use attributes::Attribute;
use class_head::{ClassHead, Listed};
use member::{Member, Sort};
use pool::Head;
use reads::{Answer, Reason};
use slot::Pool;

// What is reached: how many members of one sort were read, the byte after them, and how many attribute records are made.
#[derive(Clone, Copy)]
struct Sorted {
    count: u16,
    at: usize,
    used: usize,
}

// What stands before the members: the pool, the class's header with its flags as the file has them, and the interfaces.
#[derive(Clone, Copy)]
struct Front {
    pool: Head,
    class: ClassHead,
    interfaces: Listed,
}

// What an accepted file answers: P, the version, masked flags, the slots of this and super, how many interfaces, fields and methods there
// are, how many attribute records are the members', and how many the class's own.
#[derive(Clone, Copy)]
pub struct Class {
    pub slots: usize,
    pub minor: u16,
    pub major: u16,
    pub flags: u16,
    pub this: u16,
    pub parent: u16,
    pub interfaces: u16,
    pub fields: u16,
    pub methods: u16,
    pub used: usize,
    pub own: u16,
}

// The lent columns of member records: a slice for each number of a record. Two structs and no generic one: their fields differ.
#[derive(Drop)]
struct MemberColumns<'a> {
    flags: &'a mut [u16],
    names: &'a mut [u16],
    types: &'a mut [u16],
    firsts: &'a mut [u32],
    counts: &'a mut [u16],
}

// The lent columns of attribute records.
#[derive(Drop)]
struct AttributeColumns<'a> {
    titles: &'a mut [u16],
    bodies: &'a mut [u32],
    lengths: &'a mut [u32],
}

// Whether the flags mark an interface.
#[tactic(auto, unfolding(crate::specs::Class::marked))]
fn is_marked(flags: u16) -> bool
    ensures { result ≡ marked flags }
{
    flags & 0x0200 != 0
}

// Flags outside the mask are dropped.
#[tactic(auto, unfolding(crate::specs::Class::class_flags))]
fn mask(flags: u16) -> u16
    ensures { result ≡ class_flags flags }
{
    flags & 0xF631
}

impl<'a> MemberColumns<'a> {
    // How many records there is room for: the shortest column says it.
    #[tactic(auto, unfolding(crate::specs::Columns::member_room))]
    fn room(&self) -> usize
        ensures { result ≡ member_room (rows (numbers self.now)) }
    {
        let ids = self.flags.len().min(self.names.len()).min(self.types.len());
        ids.min(self.firsts.len()).min(self.counts.len())
    }

    // The member at a byte of the file, up to its attributes; it becomes record n. The records of its sort go from `first` on.
    fn read(&self, sort: Sort, p: &Pool, first: usize, n: usize, at: usize) -> Answer<Member>
        requires { let c = numbers self.now in
            (first ≤ n) × ((n ≤ length (c Names)) × (n ≤ length (c Types))) }
        ensures { let c = numbers self.now in
            Is answered (member_at sort (shown p.now) (member_room (rows c)) n at (between first n (c Names)) (between first n (c Types))) result }
    {
        let names = &self.names[first..n];
        let types = &self.types[first..n];
        member::member_at(sort, p, self.room(), n, at, names, types)
    }

    // Every number of record n; the member's attributes begin with record `first`.
    fn put(&mut self, n: usize, m: Member, first: u32)
        requires { InNumbers n self.old }
        ensures same { SameNumbers self.old self.new }
        ensures record { numbers self.new ≡ (λ j. set (numbers self.old j) n (number j (only m first))) }
    {
        self.flags[n] = m.flags;
        self.names[n] = m.name;
        self.types[n] = m.descriptor;
        self.firsts[n] = first;
        self.counts[n] = m.count;
    }

    // Every cell becomes zero.
    fn clear(&mut self)
        ensures same { SameNumbers self.old self.new }
        ensures zero { numbers self.new ≡ (λ j. replicate (length (numbers self.old j)) 0) }
    {
        reads::clear(self.flags);
        reads::clear(self.names);
        reads::clear(self.types);
        reads::clear(self.firsts);
        reads::clear(self.counts);
    }
}

impl<'a> AttributeColumns<'a> {
    // How many records there is room for: the shortest column says it.
    fn room(&self) -> usize
        ensures { result ≡ limit self.now }
    {
        self.titles
            .len()
            .min(self.bodies.len())
            .min(self.lengths.len())
    }

    // Every number of record n.
    fn put(&mut self, n: usize, a: Attribute)
        requires { InParts n self.old × (a.start ≤ 16777216) }
        ensures same { SameParts self.old self.new }
        ensures record { parts self.new ≡ (λ j. set (parts self.old j) n (part j a)) }
    {
        self.titles[n] = a.name;
        self.bodies[n] = a.start as u32;
        self.lengths[n] = a.size;
    }

    // Every cell becomes zero.
    fn clear(&mut self)
        ensures same { SameParts self.old self.new }
        ensures zero { parts self.new ≡ (λ j. replicate (length (parts self.old j)) 0) }
    {
        reads::clear(self.titles);
        reads::clear(self.bodies);
        reads::clear(self.lengths);
    }

    // A number of attributes from a byte of the file on, the class's own or a member's, into the records from `used` on: the byte after
    // them. `own` is an argument of the definition, and so it is here.
    fn frame(&mut self, own: bool, p: &Pool, start: usize, count: u16, used: usize) -> Answer<usize>
        requires { (length p.now.file.now ≤ 16777216) × (used ≤ 16777216) }
        ensures same { SameParts self.old self.new }
        ensures long { AsLong (parts self.new) (parts self.old) }
        ensures answer { Is answered (mapped (λ m. m.end) (framed own (shown p.now) (limit self.old) count used start)) result }
        ensures tables { Accepted (framed own (shown p.now) (limit self.old) count used start) (after_records (parts self.old) used) (parts self.new) }
    {
        let room = self.room();
        let mut at = start;
        for n in used..used + count as usize {
            let a = attributes::record_at(own, p, room, n, at)?;
            self.put(n, a);
            at = a.start + a.size as usize;
        }
        Ok(at)
    }
}

// The members of one sort, from their number at the byte that is reached on, into the records after those before them.
fn read_sort(
    sort: Sort,
    p: &Pool,
    from: Sorted,
    members: &mut MemberColumns,
    attributes: &mut AttributeColumns,
) -> Answer<Sorted>
    requires { Ready p.now.file.now from.count from.at from.used (columns members.old attributes.old) }
    ensures same { Same members.old attributes.old members.new attributes.new }
    ensures long { Long (columns members.new attributes.new) (columns members.old attributes.old) }
    ensures answer { let c = columns members.old attributes.old in
        Is answered (mapped sorted_of (sort_at sort (shown p.now) (member_room c) (attribute_room c) from.count from.at from.used)) result }
    ensures tables { let c = columns members.old attributes.old in
        let d = columns members.new attributes.new in
        Accepted (sort_at sort (shown p.now) (member_room c) (attribute_room c) from.count from.at from.used) (after_many c from.count from.used) d }
{
    let count = reads::read_u2(p.file, from.at)?;
    let first = from.count as usize;
    let mut at = from.at + 2;
    let mut used = from.used;
    for n in first..first + count as usize {
        let m = members.read(sort, p, first, n, at)?;
        at = attributes.frame(false, p, at + 8, m.count, used)?;
        members.put(n, m, used as u32);
        used += m.count as usize;
    }
    Ok(Sorted { count, at, used })
}

// That the file ends at a byte, and that every bootstrap index is good. The class's own attributes are the `count` records from `used` on.
fn check_end(
    p: &Pool,
    end: usize,
    attributes: &AttributeColumns,
    used: usize,
    count: u16,
) -> Answer<()>
    ensures { let titles = attributes.now.titles.now in
        let bodies = attributes.now.bodies.now in
        Is answered (end_at (shown p.now) end (take count (drop used titles)) (take count (drop used bodies))) result }
{
    if end != p.file.len() {
        return Err(Reason::LeftOver.at(end));
    }
    bootstrap::check_indices(p, attributes.titles, attributes.bodies, used, count)
}

// The class's own attributes from their number at a byte of the file on, into the records from `used` on: how many they are.
fn read_own(p: &Pool, start: usize, used: usize, attributes: &mut AttributeColumns) -> Answer<u16>
    requires { (length p.now.file.now ≤ 16777216) × ((used ≤ start) × (used ≤ limit attributes.old)) }
    ensures same { SameParts attributes.old attributes.new }
    ensures long { AsLong (parts attributes.new) (parts attributes.old) }
    ensures answer { Is answered (mapped (λ m. length m.list) (own_at (shown p.now) (limit attributes.old) used start)) result }
    ensures tables { Accepted (own_at (shown p.now) (limit attributes.old) used start) (after_records (parts attributes.old) used) (parts attributes.new) }
{
    let count = reads::read_u2(p.file, start)?;
    let end = attributes.frame(true, p, start + 2, count, used)?;
    check_end(p, end, attributes, used, count)?;
    Ok(count)
}

// Fields, methods and the class's own attributes, after what stands before them, up to the end of the file.
fn read_tables(
    f: Front,
    p: &Pool,
    members: &mut MemberColumns,
    attributes: &mut AttributeColumns,
) -> Answer<Class>
    requires { length p.now.file.now ≤ 16777216 }
    ensures same { Same members.old attributes.old members.new attributes.new }
    ensures long { Long (columns members.new attributes.new) (columns members.old attributes.old) }
    ensures answer { let c = columns members.old attributes.old in
        Is answered (mapped (filled_of f) (tables_at (marked f.class.flags) (shown p.now) (member_room c) (attribute_room c) f.interfaces.next)) result }
    ensures tables { let c = columns members.old attributes.old in
        let d = columns members.new attributes.new in
        Accepted (tables_at (marked f.class.flags) (shown p.now) (member_room c) (attribute_room c) f.interfaces.next) (after_all c) d }
{
    let fields = Sort {
        method: false,
        in_interface: false,
    };
    let methods = Sort {
        method: true,
        in_interface: is_marked(f.class.flags),
    };
    let start = Sorted {
        count: 0,
        at: f.interfaces.next,
        used: 0,
    };
    let a = read_sort(fields, p, start, members, attributes)?;
    let b = read_sort(methods, p, a, members, attributes)?;
    let own = read_own(p, b.at, b.used, attributes)?;
    Ok(Class {
        slots: f.pool.slots,
        minor: f.pool.minor,
        major: f.pool.major,
        flags: mask(f.class.flags),
        this: f.class.this,
        parent: f.class.parent,
        interfaces: f.interfaces.count,
        fields: a.count,
        methods: b.count,
        used: b.used,
        own,
    })
}

// The pool, the header and the interfaces; after a refusal some of the table and of the list may be written.
fn fill_front(file: &[u8], table: &mut [u32], interfaces: &mut [u16]) -> Answer<Front>
    ensures answer { Is answered (mapped front_of (front_at file.now (length table.old) (length interfaces.old))) result }
    ensures tables { let cells = length table.old in
        let len = length interfaces.old in
        Accepted (front_at file.now cells len) (fronted cells len) (record { cells = table.new; interfaces = interfaces.new }) }
{
    let h = checks::read_pool(file, table)?;
    let p = Pool {
        file,
        major: h.major,
        table,
        slots: h.slots,
    };
    let c = class_head::read_head(&p, h.next)?;
    let l = class_head::read_interfaces(&p, h.next + 6, interfaces)?;
    Ok(Front {
        pool: h,
        class: c,
        interfaces: l,
    })
}

// The pool, the header and the interfaces; after a refusal the table and the list are zero.
fn read_front(file: &[u8], table: &mut [u32], interfaces: &mut [u16]) -> Answer<Front>
    ensures answer { Is answered (mapped front_of (front_at file.now (length table.old) (length interfaces.old))) result }
    ensures tables { let x = front_at file.now (length table.old) (length interfaces.old) in
        (table.new ≡ after 0 (λ f. f.pool.pool.cells) (length table.old) x) × (interfaces.new ≡ after 0 (λ f. f.interfaces) (length interfaces.old) x) }
{
    let answer = fill_front(file, table, interfaces);
    if answer.is_err() {
        reads::clear(table);
        reads::clear(interfaces);
    }
    answer
}

// A class file, into the pool's table, the list of interfaces and the columns.
fn read_into(
    file: &[u8],
    table: &mut [u32],
    interfaces: &mut [u16],
    members: &mut MemberColumns,
    attributes: &mut AttributeColumns,
) -> Answer<Class>
    ensures same { Same members.old attributes.old members.new attributes.new }
    ensures answer { let x = class_file file.now (rooms_of (length table.old) (length interfaces.old) (columns members.old attributes.old)) in
        Is answered (mapped class_of x) result }
    ensures tables { let c = columns members.old attributes.old in
        let x = class_file file.now (rooms_of (length table.old) (length interfaces.old) c) in
        (table.new ≡ after 0 (λ x. x.front.pool.pool.cells) (length table.old) x)
        × ((interfaces.new ≡ after 0 (λ x. x.front.interfaces) (length interfaces.old) x)
        × (columns members.new attributes.new ≡ tabled c (mapped (λ x. x.tables) x))) }
{
    members.clear();
    attributes.clear();
    let f = read_front(file, table, interfaces)?;
    let p = Pool {
        file,
        major: f.pool.major,
        table,
        slots: f.pool.slots,
    };
    let answer = read_tables(f, &p, members, attributes);
    if answer.is_err() {
        reads::clear(table);
        reads::clear(interfaces);
        members.clear();
        attributes.clear();
    }
    answer
}

// A class file, into lent tables: the pool's cells, the interfaces, and a slice for each number of a member record (flags, name slot,
// descriptor slot, first attribute record, number of attributes) and of an attribute record (name slot, body offset, body length).
// The shortest slice of a record says the room. Cells past those used are zero; after a refusal every cell is.
// Ten slices, and no struct of them: the C interface lends them one by one (`luo_class`), and laws of crate `demands` speak of each.
pub fn read_class(
    file: &[u8],
    table: &mut [u32],
    interfaces: &mut [u16],
    flags: &mut [u16],
    names: &mut [u16],
    types: &mut [u16],
    firsts: &mut [u32],
    counts: &mut [u16],
    titles: &mut [u16],
    bodies: &mut [u32],
    lengths: &mut [u32],
) -> Answer<Class>
    ensures answer { let c = lent flags.old names.old types.old firsts.old counts.old titles.old bodies.old lengths.old in
        let x = class_file file.now (rooms_of (length table.old) (length interfaces.old) c) in
        Is answered (mapped class_of x) result }
    ensures tables { let c = lent flags.old names.old types.old firsts.old counts.old titles.old bodies.old lengths.old in
        let d = lent flags.new names.new types.new firsts.new counts.new titles.new bodies.new lengths.new in
        let x = class_file file.now (rooms_of (length table.old) (length interfaces.old) c) in
        (table.new ≡ after 0 (λ x. x.front.pool.pool.cells) (length table.old) x)
        × ((interfaces.new ≡ after 0 (λ x. x.front.interfaces) (length interfaces.old) x)
        × (d ≡ tabled c (mapped (λ x. x.tables) x))) }
{
    let mut members = MemberColumns {
        flags,
        names,
        types,
        firsts,
        counts,
    };
    let mut attributes = AttributeColumns {
        titles,
        bodies,
        lengths,
    };
    read_into(file, table, interfaces, &mut members, &mut attributes)
}
