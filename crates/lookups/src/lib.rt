// Lookups in a handed table: one for each kind of entry, in two steps. The table is judged, and then the slot that is asked for: 7 where it
// is P or more, 8 where it is no entry of the kind. Texts are answered by their Utf8 slot.
#![tactic(auto)]

ghost use Rattle.std.specs.Prelude.{◌≡◌};
ghost use Rattle.reads.specs.Promise.{Is, answered};
ghost use Rattle.slot.specs.Shown.{shown};
ghost use Rattle.handed.specs.Handed.{lookup};
ghost use Rattle.lookups.specs.Lookups.{name_slot, class_at, module_at, package_at, method_type_at, named, named_at, member_of, member_at, handle_at, indexed_at, dynamic_at, invoke_dynamic_at};

use reads::Answer;
use slot::Pool;

// A name and a descriptor, by Utf8 slot.
#[derive(Clone, Copy)]
pub struct Named {
    pub name: u16,
    pub descriptor: u16,
}

// Which of the three member references it is, and the Utf8 slots of the class's name, of the member's name and of its descriptor. The tag
// is a number and no `Kind`: it goes to C as it is.
#[derive(Clone, Copy)]
pub struct Member {
    pub tag: u8,
    pub class: u16,
    pub name: u16,
    pub descriptor: u16,
}

// A handle's kind, which goes to C as it is, and what it holds.
#[derive(Clone, Copy)]
pub struct Held {
    pub kind: u8,
    pub member: Member,
}

// The index into the bootstrap methods, and a name and type.
#[derive(Clone, Copy)]
pub struct Indexed {
    pub index: u16,
    pub named: Named,
}

const MEMBERS: u32 = pool::FIELD_REF | pool::METHOD_REF | pool::INTERFACE_METHOD_REF;

// The Utf8 slot that slot n names first.
#[tactic(auto, unfolding(crate::specs::Lookups::name_slot))]
fn name_slot(p: &Pool, allowed: u32, n: usize) -> Answer<u16>
    ensures { Is answered (name_slot allowed n (shown p.now)) result }
{
    handed::check_asked(p, allowed, n)?;
    Ok(p.field(n, 1))
}

// The Utf8 slot that slot n of a handed table names first. Each lookup makes the pool itself: one function over the inner step would be
// public, and need a `requires`.
#[tactic(auto, using(handed::proofs::Handed::on_lent, handed::proofs::Handed::off_lent))]
fn find_name(file: &[u8], table: &[u32], allowed: u32, n: u32) -> Answer<u16>
    ensures { Is answered (lookup file.now table.now (name_slot allowed n)) result }
{
    let p = handed::pool_of(file, table)?;
    name_slot(&p, allowed, n as usize)
}

// The Utf8 slot of a class's name, in slot n of a handed table. It and the three after it differ in a kind alone, and stay as names of
// their own over `find_name`: document 01 asks for one lookup for each kind.
pub fn class_name<'a>(file: &'a [u8], table: &'a [u32], n: u32) -> Answer<u16>
    ensures { Is answered (lookup file.now table.now (class_at n)) result }
{
    find_name(file, table, pool::CLASS, n)
}

// The Utf8 slot of a module's name, in slot n of a handed table.
pub fn module_name<'a>(file: &'a [u8], table: &'a [u32], n: u32) -> Answer<u16>
    ensures { Is answered (lookup file.now table.now (module_at n)) result }
{
    find_name(file, table, pool::MODULE, n)
}

// The Utf8 slot of a package's name, in slot n of a handed table.
pub fn package_name<'a>(file: &'a [u8], table: &'a [u32], n: u32) -> Answer<u16>
    ensures { Is answered (lookup file.now table.now (package_at n)) result }
{
    find_name(file, table, pool::PACKAGE, n)
}

// The Utf8 slot of a method type, in slot n of a handed table.
pub fn method_type<'a>(file: &'a [u8], table: &'a [u32], n: u32) -> Answer<u16>
    ensures { Is answered (lookup file.now table.now (method_type_at n)) result }
{
    find_name(file, table, pool::METHOD_TYPE, n)
}

// The name and the descriptor of a NameAndType.
#[tactic(auto, unfolding(crate::specs::Lookups::named))]
fn pair_of(p: &Pool, m: usize) -> Named
    ensures { result ≡ named (shown p.now) m }
{
    Named {
        name: p.field(m, 1),
        descriptor: p.field(m, 3),
    }
}

// The name and type in slot n.
#[tactic(auto, unfolding(crate::specs::Lookups::named_at))]
fn named_at(p: &Pool, n: usize) -> Answer<Named>
    ensures { Is answered (named_at n (shown p.now)) result }
{
    handed::check_asked(p, pool::NAME_AND_TYPE, n)?;
    p.check_utf8(n, p.field(n, 3) as usize)?;
    Ok(pair_of(p, n))
}

// The parts of a member reference.
#[tactic(auto, unfolding(crate::specs::Lookups::named, crate::specs::Lookups::member_of))]
fn parts_of(p: &Pool, m: usize) -> Member
    ensures { result ≡ member_of (shown p.now) m }
{
    let tag = p.tag(m);
    let class = p.field(p.field(m, 1) as usize, 1);
    let pair = pair_of(p, p.field(m, 3) as usize);
    Member {
        tag,
        class,
        name: pair.name,
        descriptor: pair.descriptor,
    }
}

// The member reference in slot n.
#[tactic(auto, unfolding(crate::specs::Lookups::member_at))]
fn member_at(p: &Pool, n: usize) -> Answer<Member>
    ensures { Is answered (member_at n (shown p.now)) result }
{
    handed::check_asked(p, MEMBERS, n)?;
    Ok(parts_of(p, n))
}

// The handle in slot n.
#[tactic(auto, unfolding(crate::specs::Lookups::handle_at))]
fn handle_at(p: &Pool, n: usize) -> Answer<Held>
    ensures { Is answered (handle_at n (shown p.now)) result }
{
    handed::check_asked(p, pool::METHOD_HANDLE, n)?;
    let kind = reads::byte_at(p.file, p.cell(n) as usize + 1);
    let member = parts_of(p, p.field(n, 2) as usize);
    Ok(Held { kind, member })
}

// The Dynamic or the InvokeDynamic in slot n.
#[tactic(auto, unfolding(crate::specs::Lookups::indexed_at))]
fn indexed_at(p: &Pool, allowed: u32, n: usize) -> Answer<Indexed>
    ensures { Is answered (indexed_at allowed n (shown p.now)) result }
{
    handed::check_asked(p, allowed, n)?;
    let index = p.field(n, 1);
    let named = pair_of(p, p.field(n, 3) as usize);
    Ok(Indexed { index, named })
}

// What slot n of a handed table, a Dynamic or an InvokeDynamic as asked, names: its index and its NameAndType.
#[tactic(auto, using(handed::proofs::Handed::on_lent, handed::proofs::Handed::off_lent))]
fn find_indexed(file: &[u8], table: &[u32], allowed: u32, n: u32) -> Answer<Indexed>
    ensures { Is answered (lookup file.now table.now (indexed_at allowed n)) result }
{
    let p = handed::pool_of(file, table)?;
    indexed_at(&p, allowed, n as usize)
}

// A name and type, in slot n of a handed table; 9 where its descriptor is raw, which may be as long as no entry refers to it.
#[tactic(auto, using(handed::proofs::Handed::on_lent, handed::proofs::Handed::off_lent))]
pub fn name_and_type<'a>(file: &'a [u8], table: &'a [u32], n: u32) -> Answer<Named>
    ensures { Is answered (lookup file.now table.now (named_at n)) result }
{
    let p = handed::pool_of(file, table)?;
    named_at(&p, n as usize)
}

// A member reference, in slot n of a handed table: which of the three, and its three texts.
#[tactic(auto, using(handed::proofs::Handed::on_lent, handed::proofs::Handed::off_lent))]
pub fn member_reference<'a>(file: &'a [u8], table: &'a [u32], n: u32) -> Answer<Member>
    ensures { Is answered (lookup file.now table.now (member_at n)) result }
{
    let p = handed::pool_of(file, table)?;
    member_at(&p, n as usize)
}

// A handle, in slot n of a handed table: its kind and its member.
#[tactic(auto, using(handed::proofs::Handed::on_lent, handed::proofs::Handed::off_lent))]
pub fn method_handle<'a>(file: &'a [u8], table: &'a [u32], n: u32) -> Answer<Held>
    ensures { Is answered (lookup file.now table.now (handle_at n)) result }
{
    let p = handed::pool_of(file, table)?;
    handle_at(&p, n as usize)
}

// A Dynamic, in slot n of a handed table: its index, name and type.
pub fn dynamic_constant<'a>(file: &'a [u8], table: &'a [u32], n: u32) -> Answer<Indexed>
    ensures { Is answered (lookup file.now table.now (dynamic_at n)) result }
{
    find_indexed(file, table, pool::DYNAMIC, n)
}

// An InvokeDynamic, in slot n of a handed table: its index, name and type.
pub fn invoke_dynamic<'a>(file: &'a [u8], table: &'a [u32], n: u32) -> Answer<Indexed>
    ensures { Is answered (lookup file.now table.now (invoke_dynamic_at n)) result }
{
    find_indexed(file, table, pool::INVOKE_DYNAMIC, n)
}
