// What C calls: a table is native cells or four big-endian bytes a cell, an answer a struct of numbers. C knows neither generic functions
// nor closures, so each call is a function of its own, by its name in the header.
#![tactic(auto)]

ghost use Rattle.std.specs.Prelude.{◌≡◌, ◌/◌, length};
ghost use Rattle.reads.specs.Answer.{mapped};
ghost use Rattle.reads.specs.Tables.{after};
ghost use Rattle.pool.specs.Pool.{read_pool, slots as slots_of};
ghost use Rattle.pool.specs.Readings.{head_of};
ghost use Rattle.slot.specs.Slots.{tag_of};
ghost use Rattle.checks.specs.Checks.{pool as pool_of};
ghost use Rattle.cells.specs.Cells.{cells_in, as_bytes};
ghost use Rattle.handed.specs.Handed.{lookup};
ghost use Rattle.lookups.specs.Lookups.{class_at, module_at, package_at, method_type_at, named_at, member_at, handle_at, dynamic_at, invoke_dynamic_at};
ghost use Rattle.values.specs.Lookups.{literal_at, text_at, span_at};
ghost use Rattle.dependants.specs.Dependants.{dependants as dependants_of};
ghost use Rattle.listing.specs.Listing.{first_of, second_of, column, listed, room_of};
ghost use Rattle.class.specs.Columns.{lent, rooms_of, tabled};
ghost use Rattle.class.specs.Class.{class_file};
ghost use Rattle.class.specs.Readings.{class_of};
ghost use Rattle.numbers.specs.Numbers.{pool_numbers, slot_numbers, named_numbers, member_numbers, handle_numbers, dynamic_numbers, literal_numbers, text_numbers, part_numbers, list_numbers, class_numbers};

use numbers::{
    LuoClassAnswer, LuoDynamicAnswer, LuoHandleAnswer, LuoListAnswer, LuoLiteralAnswer,
    LuoMemberAnswer, LuoNamedAnswer, LuoPartAnswer, LuoPoolAnswer, LuoSlotAnswer, LuoTextAnswer,
};
use questions::Question;

// Reads the entries of the pool alone, with nothing of them checked, into native cells: where a refused slot stands.
#[unsafe(no_mangle)]
pub extern "C" fn luo_entries(file: &[u8], table: &mut [u32]) -> LuoPoolAnswer
    ensures answer { result ≡ pool_numbers (mapped head_of (read_pool file.now (length table.old))) }
    ensures table { table.new ≡ after 0 (λ w. w.pool.cells) (length table.old) (read_pool file.now (length table.old)) }
{
    numbers::pool_numbers(pool::read_entries(file, table))
}

// The pool of a file, into a lent table of native cells: every entry read, then checked; a refusal leaves zeros.
#[unsafe(no_mangle)]
pub extern "C" fn luo_pool32(file: &[u8], table: &mut [u32]) -> LuoPoolAnswer
    ensures answer { result ≡ pool_numbers (mapped head_of (pool_of file.now (length table.old))) }
    ensures table { table.new ≡ after 0 (λ w. w.pool.cells) (length table.old) (pool_of file.now (length table.old)) }
{
    numbers::pool_numbers(checks::read_pool(file, table))
}

// The pool of a file, into a lent table that is bytes. Room for so many cells as the table has four bytes; a refusal leaves zeros.
#[unsafe(no_mangle)]
pub extern "C" fn luo_pool(file: &[u8], table: &mut [u8]) -> LuoPoolAnswer
    ensures answer { result ≡ pool_numbers (mapped head_of (pool_of file.now (length table.old / 4))) }
    ensures table { table.new ≡ as_bytes (length table.old) (after 0 (λ w. w.pool.cells) (length table.old / 4) (pool_of file.now (length table.old / 4))) }
{
    numbers::pool_numbers(byte_pools::pool_bytes(file, table))
}

// The Utf8 slot of a class's name, in a slot of a handed table that is bytes.
#[unsafe(no_mangle)]
pub extern "C" fn luo_class_name(file: &[u8], table: &[u8], slot: u32) -> LuoSlotAnswer
    ensures { result ≡ slot_numbers (lookup file.now (cells_in table.now) (class_at slot)) }
{
    numbers::slot_answer(questions::ask(Question::ClassName, file, table, slot))
}

// The Utf8 slot of a module's name, in a slot of a handed table that is bytes.
#[unsafe(no_mangle)]
pub extern "C" fn luo_module_name(file: &[u8], table: &[u8], slot: u32) -> LuoSlotAnswer
    ensures { result ≡ slot_numbers (lookup file.now (cells_in table.now) (module_at slot)) }
{
    numbers::slot_answer(questions::ask(Question::ModuleName, file, table, slot))
}

// The Utf8 slot of a package's name, in a slot of a handed table that is bytes.
#[unsafe(no_mangle)]
pub extern "C" fn luo_package_name(file: &[u8], table: &[u8], slot: u32) -> LuoSlotAnswer
    ensures { result ≡ slot_numbers (lookup file.now (cells_in table.now) (package_at slot)) }
{
    numbers::slot_answer(questions::ask(Question::PackageName, file, table, slot))
}

// The Utf8 slot of a method type, in a slot of a handed table that is bytes.
#[unsafe(no_mangle)]
pub extern "C" fn luo_method_type(file: &[u8], table: &[u8], slot: u32) -> LuoSlotAnswer
    ensures { result ≡ slot_numbers (lookup file.now (cells_in table.now) (method_type_at slot)) }
{
    numbers::slot_answer(questions::ask(Question::MethodType, file, table, slot))
}

// A name and type, in a slot of a handed table that is bytes.
#[unsafe(no_mangle)]
pub extern "C" fn luo_name_and_type(file: &[u8], table: &[u8], slot: u32) -> LuoNamedAnswer
    ensures { result ≡ named_numbers (lookup file.now (cells_in table.now) (named_at slot)) }
{
    numbers::named_answer(questions::ask(Question::NameAndType, file, table, slot))
}

// A member reference, in a slot of a handed table that is bytes.
#[unsafe(no_mangle)]
pub extern "C" fn luo_member_reference(file: &[u8], table: &[u8], slot: u32) -> LuoMemberAnswer
    ensures { result ≡ member_numbers (lookup file.now (cells_in table.now) (member_at slot)) }
{
    numbers::member_answer(questions::ask(Question::MemberReference, file, table, slot))
}

// A method handle, in a slot of a handed table that is bytes.
#[unsafe(no_mangle)]
pub extern "C" fn luo_method_handle(file: &[u8], table: &[u8], slot: u32) -> LuoHandleAnswer
    ensures { result ≡ handle_numbers (lookup file.now (cells_in table.now) (handle_at slot)) }
{
    numbers::handle_answer(questions::ask(Question::MethodHandle, file, table, slot))
}

// A Dynamic, in a slot of a handed table that is bytes.
#[unsafe(no_mangle)]
pub extern "C" fn luo_dynamic(file: &[u8], table: &[u8], slot: u32) -> LuoDynamicAnswer
    ensures { result ≡ dynamic_numbers (lookup file.now (cells_in table.now) (dynamic_at slot)) }
{
    numbers::dynamic_answer(questions::ask(Question::Dynamic, file, table, slot))
}

// An InvokeDynamic, in a slot of a handed table that is bytes.
#[unsafe(no_mangle)]
pub extern "C" fn luo_invoke_dynamic(file: &[u8], table: &[u8], slot: u32) -> LuoDynamicAnswer
    ensures { result ≡ dynamic_numbers (lookup file.now (cells_in table.now) (invoke_dynamic_at slot)) }
{
    numbers::dynamic_answer(questions::ask(Question::InvokeDynamic, file, table, slot))
}

// A literal, in a slot of a handed table that is bytes.
#[unsafe(no_mangle)]
pub extern "C" fn luo_literal(file: &[u8], table: &[u8], slot: u32) -> LuoLiteralAnswer
    ensures { result ≡ literal_numbers (lookup file.now (cells_in table.now) (literal_at slot)) }
{
    numbers::literal_answer(questions::ask(Question::Literal, file, table, slot))
}

// Whether a Utf8 slot is text or raw, in a slot of a handed table that is bytes.
#[unsafe(no_mangle)]
pub extern "C" fn luo_text(file: &[u8], table: &[u8], slot: u32) -> LuoTextAnswer
    ensures { result ≡ text_numbers (lookup file.now (cells_in table.now) (text_at slot)) }
{
    numbers::text_answer(questions::ask(Question::Text, file, table, slot))
}

// Where the bytes of a Utf8 slot stand in the file, in a slot of a handed table that is bytes.
#[unsafe(no_mangle)]
pub extern "C" fn luo_utf8_part(file: &[u8], table: &[u8], slot: u32) -> LuoPartAnswer
    ensures { result ≡ part_numbers (lookup file.now (cells_in table.now) (span_at slot)) }
{
    numbers::part_answer(questions::ask(Question::Part, file, table, slot))
}

// The Utf8 slot of a class's name, in a slot of a handed table of native cells.
#[unsafe(no_mangle)]
pub extern "C" fn luo_class_name32<'a>(file: &'a [u8], table: &'a [u32], slot: u32) -> LuoSlotAnswer
    ensures { result ≡ slot_numbers (lookup file.now table.now (class_at slot)) }
{
    numbers::slot_answer(questions::answer(Question::ClassName, file, table, slot))
}

// The Utf8 slot of a module's name, in a slot of a handed table of native cells.
#[unsafe(no_mangle)]
pub extern "C" fn luo_module_name32<'a>(
    file: &'a [u8],
    table: &'a [u32],
    slot: u32,
) -> LuoSlotAnswer
    ensures { result ≡ slot_numbers (lookup file.now table.now (module_at slot)) }
{
    numbers::slot_answer(questions::answer(Question::ModuleName, file, table, slot))
}

// The Utf8 slot of a package's name, in a slot of a handed table of native cells.
#[unsafe(no_mangle)]
pub extern "C" fn luo_package_name32<'a>(
    file: &'a [u8],
    table: &'a [u32],
    slot: u32,
) -> LuoSlotAnswer
    ensures { result ≡ slot_numbers (lookup file.now table.now (package_at slot)) }
{
    numbers::slot_answer(questions::answer(Question::PackageName, file, table, slot))
}

// The Utf8 slot of a method type, in a slot of a handed table of native cells.
#[unsafe(no_mangle)]
pub extern "C" fn luo_method_type32<'a>(
    file: &'a [u8],
    table: &'a [u32],
    slot: u32,
) -> LuoSlotAnswer
    ensures { result ≡ slot_numbers (lookup file.now table.now (method_type_at slot)) }
{
    numbers::slot_answer(questions::answer(Question::MethodType, file, table, slot))
}

// A name and type, in a slot of a handed table of native cells.
#[unsafe(no_mangle)]
pub extern "C" fn luo_name_and_type32<'a>(
    file: &'a [u8],
    table: &'a [u32],
    slot: u32,
) -> LuoNamedAnswer
    ensures { result ≡ named_numbers (lookup file.now table.now (named_at slot)) }
{
    numbers::named_answer(questions::answer(Question::NameAndType, file, table, slot))
}

// A member reference, in a slot of a handed table of native cells.
#[unsafe(no_mangle)]
pub extern "C" fn luo_member_reference32<'a>(
    file: &'a [u8],
    table: &'a [u32],
    slot: u32,
) -> LuoMemberAnswer
    ensures { result ≡ member_numbers (lookup file.now table.now (member_at slot)) }
{
    numbers::member_answer(questions::answer(Question::MemberReference, file, table, slot))
}

// A method handle, in a slot of a handed table of native cells.
#[unsafe(no_mangle)]
pub extern "C" fn luo_method_handle32<'a>(
    file: &'a [u8],
    table: &'a [u32],
    slot: u32,
) -> LuoHandleAnswer
    ensures { result ≡ handle_numbers (lookup file.now table.now (handle_at slot)) }
{
    numbers::handle_answer(questions::answer(Question::MethodHandle, file, table, slot))
}

// A Dynamic, in a slot of a handed table of native cells.
#[unsafe(no_mangle)]
pub extern "C" fn luo_dynamic32<'a>(file: &'a [u8], table: &'a [u32], slot: u32) -> LuoDynamicAnswer
    ensures { result ≡ dynamic_numbers (lookup file.now table.now (dynamic_at slot)) }
{
    numbers::dynamic_answer(questions::answer(Question::Dynamic, file, table, slot))
}

// An InvokeDynamic, in a slot of a handed table of native cells.
#[unsafe(no_mangle)]
pub extern "C" fn luo_invoke_dynamic32<'a>(
    file: &'a [u8],
    table: &'a [u32],
    slot: u32,
) -> LuoDynamicAnswer
    ensures { result ≡ dynamic_numbers (lookup file.now table.now (invoke_dynamic_at slot)) }
{
    numbers::dynamic_answer(questions::answer(Question::InvokeDynamic, file, table, slot))
}

// A literal, in a slot of a handed table of native cells.
#[unsafe(no_mangle)]
pub extern "C" fn luo_literal32<'a>(file: &'a [u8], table: &'a [u32], slot: u32) -> LuoLiteralAnswer
    ensures { result ≡ literal_numbers (lookup file.now table.now (literal_at slot)) }
{
    numbers::literal_answer(questions::answer(Question::Literal, file, table, slot))
}

// Whether a Utf8 slot is text or raw, in a slot of a handed table of native cells.
#[unsafe(no_mangle)]
pub extern "C" fn luo_text32<'a>(file: &'a [u8], table: &'a [u32], slot: u32) -> LuoTextAnswer
    ensures { result ≡ text_numbers (lookup file.now table.now (text_at slot)) }
{
    numbers::text_answer(questions::answer(Question::Text, file, table, slot))
}

// Where the bytes of a Utf8 slot stand in the file, in a slot of a handed table of native cells.
#[unsafe(no_mangle)]
pub extern "C" fn luo_utf8_part32<'a>(file: &'a [u8], table: &'a [u32], slot: u32) -> LuoPartAnswer
    ensures { result ≡ part_numbers (lookup file.now table.now (span_at slot)) }
{
    numbers::part_answer(questions::answer(Question::Part, file, table, slot))
}

// Every slot that reaches a slot of a handed table that is bytes, rising, into a lent list that is bytes, a cell each; what is left of the
// list is zero, and all of it after a refusal. Where there are fewer cells than dependants: 13, at the number of them.
#[unsafe(no_mangle)]
pub extern "C" fn luo_dependants(
    file: &[u8],
    table: &[u8],
    slot: u32,
    list: &mut [u8],
) -> LuoListAnswer
    ensures answer { result ≡ list_numbers (mapped length (dependants_of file.now (cells_in table.now) slot (length list.old / 4))) }
    ensures list { list.new ≡ as_bytes (length list.old) (after 0 (λ xs. xs) (length list.old / 4) (dependants_of file.now (cells_in table.now) slot (length list.old / 4))) }
{
    numbers::list_numbers(byte_dependants::list_dependants(file, table, slot, list))
}

// Every slot that reaches a slot of a handed table of native cells, rising, into a lent list of slots; what is left of the list is zero,
// and all of it after a refusal. Where there are fewer cells than dependants: 13, at the number of them.
#[unsafe(no_mangle)]
pub extern "C" fn luo_dependants32(
    file: &[u8],
    table: &[u32],
    slot: u32,
    list: &mut [u16],
) -> LuoListAnswer
    ensures answer { result ≡ list_numbers (mapped length (dependants_of file.now table.now slot (length list.old))) }
    ensures list { list.new ≡ after 0 (λ xs. xs) (length list.old) (dependants_of file.now table.now slot (length list.old)) }
{
    numbers::list_numbers(dependants::dependants(file, table, slot, list))
}

// Every slot of a handed table of native cells by its tag and two numbers, into three lent lists; what is left of them is zero, and all of
// them after a refusal. Where a list has fewer cells than there are slots: 13, at the number of them.
#[unsafe(no_mangle)]
pub extern "C" fn luo_slots32(
    file: &[u8],
    table: &[u32],
    tags: &mut [u8],
    firsts: &mut [u32],
    seconds: &mut [u32],
) -> LuoListAnswer
    ensures answer { result ≡ list_numbers (mapped slots_of (listed file.now table.now (room_of tags.old firsts.old seconds.old))) }
    ensures tags { tags.new ≡ after 0 (column tag_of) (length tags.old) (listed file.now table.now (room_of tags.old firsts.old seconds.old)) }
    ensures firsts { firsts.new ≡ after 0 (column first_of) (length firsts.old) (listed file.now table.now (room_of tags.old firsts.old seconds.old)) }
    ensures seconds { seconds.new ≡ after 0 (column second_of) (length seconds.old) (listed file.now table.now (room_of tags.old firsts.old seconds.old)) }
{
    numbers::listing_numbers(listing::list_slots(file, table, tags, firsts, seconds))
}

// A whole class file, into slices of numbers: the pool's cells, the interfaces, and a slice for each number of a member record and of an
// attribute record. Cells past those used are zero, and all are after a refusal.
#[unsafe(no_mangle)]
pub extern "C" fn luo_class(
    file: &[u8],
    table: &mut [u32],
    interfaces: &mut [u16],
    flags: &mut [u16],
    names: &mut [u16],
    types: &mut [u16],
    firsts: &mut [u32],
    counts: &mut [u16],
    titles: &mut [u16],
    bodies: &mut [u32],
    lengths: &mut [u32],
) -> LuoClassAnswer
    ensures answer { let c = lent flags.old names.old types.old firsts.old counts.old titles.old bodies.old lengths.old in
        let x = class_file file.now (rooms_of (length table.old) (length interfaces.old) c) in
        result ≡ class_numbers (mapped class_of x) }
    ensures tables { let c = lent flags.old names.old types.old firsts.old counts.old titles.old bodies.old lengths.old in
        let d = lent flags.new names.new types.new firsts.new counts.new titles.new bodies.new lengths.new in
        let x = class_file file.now (rooms_of (length table.old) (length interfaces.old) c) in
        (table.new ≡ after 0 (λ x. x.front.pool.pool.cells) (length table.old) x)
        × ((interfaces.new ≡ after 0 (λ x. x.front.interfaces) (length interfaces.old) x)
        × (d ≡ tabled c (mapped (λ x. x.tables) x))) }
{
    numbers::class_numbers(class::read_class(
        file, table, interfaces, flags, names, types, firsts, counts, titles, bodies, lengths,
    ))
}
