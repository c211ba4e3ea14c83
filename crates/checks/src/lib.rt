// The pool's checks over a table that was read or handed in: first every reference, then kinds and texts; and the whole pool call.
#![tactic(auto)]

ghost use Rattle.std.specs.Prelude.{◌≡◌, ℕ, length};
ghost use Rattle.reads.specs.Answer.{Check, mapped, each};
ghost use Rattle.reads.specs.Promise.{Is, answered};
ghost use Rattle.reads.specs.Tables.{after};
ghost use Rattle.pool.specs.Named.{tag_for};
ghost use Rattle.pool.specs.Pool.{slots};
ghost use Rattle.pool.specs.Readings.{head_of};
ghost use Rattle.slot.specs.Slots.{field};
ghost use Rattle.slot.specs.Grammars.{good};
ghost use Rattle.slot.specs.Shown.{shown};
ghost use Rattle.checks.specs.Loop.{Tells};
ghost use Rattle.checks.specs.Checks.{reference, references, member, name_and_type, handled, handle, rules, follow, obey, checked, pool};

use pool::{Head, Kind};
use reads::{Answer, Reason};
use slot::{Grammar, Pool};

// The reference of slot n that stands k bytes after its tag byte, if k is not 0: that it is not n, then that it is a slot. 0 for none, as
// a `Row` has it.
#[tactic(auto, unfolding(crate::specs::Checks::reference))]
fn check_reference(p: &Pool, n: usize, k: u8) -> Answer<()>
    ensures { Is answered (reference (shown p.now) n k) result }
{
    if k == 0 {
        return Ok(());
    }
    let m = p.field(n, k) as usize;
    if m == n {
        return Err(Reason::Itself.at(n));
    }
    p.check_range(n, m)
}

// Both references of slot n.
#[tactic(auto, unfolding(crate::specs::Checks::references))]
fn check_references(p: &Pool, n: usize) -> Answer<()>
    ensures { Is answered (references (shown p.now) n) result }
{
    let row = pool::row_of(p.tag(n));
    check_reference(p, n, row.3)?;
    check_reference(p, n, row.4)
}

// The kinds that a handle of that kind may name. Its kind stays a number: what is handed in is not judged before, so an enum would need a
// case for every other byte, and the rule goes by ranges.
#[tactic(auto, unfolding(crate::specs::Checks::handled))]
fn handled_by(major: u16, kind: u8) -> u32
    ensures { result ≡ handled major kind }
{
    match kind {
        0..=4 => pool::FIELD_REF,
        9 => pool::INTERFACE_METHOD_REF,
        6 | 7 if 52 <= major => pool::METHOD_REF | pool::INTERFACE_METHOD_REF,
        _ => pool::METHOD_REF,
    }
}

// The rule of a MethodHandle.
#[tactic(auto, unfolding(crate::specs::Checks::handle))]
fn check_handle(p: &Pool, n: usize) -> Answer<()>
    ensures { Is answered (handle (shown p.now) n) result }
{
    let kind = reads::byte_at(p.file, p.cell(n) as usize + 1);
    let m = p.field(n, 2);
    p.check_kind(n, handled_by(p.major, kind), m as usize)
}

// The rule of a FieldRef, a MethodRef and an InterfaceMethodRef, whose references are a and b.
#[tactic(auto, unfolding(crate::specs::Checks::member))]
fn check_member(grammar: Grammar, p: &Pool, n: usize, a: usize, b: usize) -> Answer<()>
    requires { (a ≡ field (shown p.now) n 1) × (b ≡ field (shown p.now) n 3) }
    ensures { Is answered (member (good grammar) (shown p.now) n) result }
{
    p.check_kind(n, pool::CLASS, a)?;
    p.check_typed(grammar, n, b)
}

// The rule of a NameAndType, whose references are a and b: its descriptor is judged only where an entry refers to it.
#[tactic(auto, unfolding(crate::specs::Checks::name_and_type))]
fn check_name_and_type(p: &Pool, n: usize, a: usize, b: usize) -> Answer<()>
    requires { (a ≡ field (shown p.now) n 1) × (b ≡ field (shown p.now) n 3) }
    ensures { Is answered (name_and_type (shown p.now) n) result }
{
    p.check_text(Grammar::Unqualified, Reason::BadName as u8, n, a)?;
    p.check_kind(n, pool::UTF8, b)
}

// The rule of slot n, an entry of that kind; a Utf8 and a number have none.
fn check_rule(kind: Kind, p: &Pool, n: usize) -> Answer<()>
    ensures { Is answered (follow rules (tag_for kind) (shown p.now) n) result }
{
    let a = p.field(n, 1) as usize;
    let b = || p.field(n, 3) as usize;
    match kind {
        Kind::Utf8 | Kind::Integer | Kind::Float | Kind::Long | Kind::Double => Ok(()),
        Kind::Class => p.check_class_name(n, a),
        Kind::String => p.check_kind(n, pool::UTF8, a),
        Kind::FieldRef => check_member(Grammar::FieldDescriptor, p, n, a, b()),
        Kind::MethodRef | Kind::InterfaceMethodRef => check_member(
            Grammar::MethodDescriptor,
            p,
            n,
            a,
            b(),
        ),
        Kind::NameAndType => check_name_and_type(p, n, a, b()),
        Kind::MethodHandle => check_handle(p, n),
        Kind::MethodType => p.check_text(
            Grammar::MethodDescriptor,
            Reason::BadDescriptor as u8,
            n,
            a,
        ),
        Kind::Dynamic => p.check_typed(Grammar::FieldDescriptor, n, b()),
        Kind::InvokeDynamic => p.check_typed(Grammar::MethodDescriptor, n, b()),
        Kind::Module => p.check_text(Grammar::ModuleName, Reason::BadName as u8, n, a),
        Kind::Package => p.check_text(Grammar::Binary, Reason::BadName as u8, n, a),
    }
}

// The rule of slot n, by its tag. Most slots are Utf8: what comes before Class is not looked at any further.
#[tactic(auto, using(crate::proofs::Rules::unruled, crate::proofs::Rules::ruled, crate::proofs::Rules::none))]
fn check_entry(p: &Pool, n: usize) -> Answer<()>
    ensures { Is answered (obey (shown p.now) n) result }
{
    let tag = p.tag(n);
    if tag < Kind::Class as u8 {
        return Ok(());
    }
    match Kind::of(tag) {
        Some(kind) => check_rule(kind, p, n),
        None => Ok(()),
    }
}

// That a check of each slot is fine, by rising slot.
#[tactic(auto, using(reads::proofs::Answers::each_go, reads::proofs::Answers::each_stop, reads::proofs::Answers::each_done))]
fn each_slot<F: Fn(usize) -> Answer<()>>(p: &Pool, check: F) -> Answer<()>
    requires { F.IsAlwaysCallable check }
    ensures { (f : ℕ → Check) → Tells (F.post check) f → Is answered (each (slots (shown p.now)) 0 f) result }
{
    for n in 0..p.count() {
        check(n)?;
    }
    Ok(())
}

// The pool's checks: references, then kinds and texts. Entries that all keep their rules have good references (an entry of an allowed
// kind is a slot, and never its own), so these are looked at only where a rule is broken, since their refusals come first.
#[tactic(auto, unfolding(crate::specs::Checks::checked))]
pub fn check_pool(p: &Pool) -> Answer<()>
    ensures { Is answered (checked (shown p.now)) result }
{
    let Err(broken) = each_slot(p, |n| check_entry(p, n)) else {
        return Ok(());
    };
    each_slot(p, |n| check_references(p, n))?;
    Err(broken)
}

// The pool of a file, into the lent table; after a refusal the table is zero.
pub fn read_pool(file: &[u8], table: &mut [u32]) -> Answer<Head>
    ensures answer { Is answered (mapped head_of (pool file.now (length table.old))) result }
    ensures table { table.new ≡ after 0 (λ w. w.pool.cells) (length table.old) (pool file.now (length table.old)) }
{
    let h = pool::read_entries(file, table)?;
    let p = Pool::of(file, &h, table);
    if let Err(r) = check_pool(&p) {
        reads::clear(table);
        return Err(r);
    }
    Ok(h)
}
