// A view of a pool: the file and the table of its slots, held together, and each lookup over it. A lookup takes the view apart and calls
// the function on slices, which does the work.
#![tactic(auto)]

ghost use Rattle.std.specs.Prelude.{◌≡◌, ◌+◌, length};
ghost use Rattle.reads.specs.Answer.{mapped};
ghost use Rattle.reads.specs.Promise.{Is, answered, answered_by};
ghost use Rattle.reads.specs.Tables.{after};
ghost use Rattle.handed.specs.Handed.{lookup};
ghost use Rattle.literal.specs.Readings.{reading_literal};
ghost use Rattle.values.specs.Lookups.{literal_at, text_at, span_at, span_in, bytes_at, bytes_in};
ghost use Rattle.values.specs.Readings.{reading_text};
ghost use Rattle.lookups.specs.Lookups.{class_at, module_at, package_at, method_type_at, named_at, member_at, handle_at, dynamic_at, invoke_dynamic_at};
ghost use Rattle.dependants.specs.Dependants.{dependants as dependants_of};

use literal::Literal;
use lookups::{Held, Indexed, Member, Named};
use reads::Answer;
use values::{Span, Utf8};

// A pool as it is handed to a lookup: the file, and its table of slots.
#[derive(Clone, Copy)]
pub struct PoolView<'a> {
    pub file: &'a [u8],
    pub table: &'a [u32],
}

// One thin method for each lookup: document 01 asks for a struct that holds both slices and for lookups that take it apart.
impl<'a> PoolView<'a> {
    // The view of a file and of its table.
    pub fn new(file: &'a [u8], table: &'a [u32]) -> PoolView<'a>
        ensures { (result.file ≡ file.entry) × (result.table ≡ table.entry) }
    {
        PoolView { file, table }
    }

    // A literal, in slot n: a number, or the Utf8 slot of a String.
    pub fn literal(self, n: u32) -> Answer<Literal>
        ensures { Is (answered_by reading_literal) (lookup self.entry.file.now self.entry.table.now (literal_at n)) result }
    {
        values::literal(self.file, self.table, n)
    }

    // Whether the Utf8 entry in slot n is text or raw.
    pub fn text_or_raw(self, n: u32) -> Answer<Utf8>
        ensures { Is (answered_by reading_text) (lookup self.entry.file.now self.entry.table.now (text_at n)) result }
    {
        values::text_or_raw(self.file, self.table, n)
    }

    // The Utf8 slot of a class's name, in slot n.
    pub fn class_name(self, n: u32) -> Answer<u16>
        ensures { Is answered (lookup self.entry.file.now self.entry.table.now (class_at n)) result }
    {
        lookups::class_name(self.file, self.table, n)
    }

    // The Utf8 slot of a module's name, in slot n.
    pub fn module_name(self, n: u32) -> Answer<u16>
        ensures { Is answered (lookup self.entry.file.now self.entry.table.now (module_at n)) result }
    {
        lookups::module_name(self.file, self.table, n)
    }

    // The Utf8 slot of a package's name, in slot n.
    pub fn package_name(self, n: u32) -> Answer<u16>
        ensures { Is answered (lookup self.entry.file.now self.entry.table.now (package_at n)) result }
    {
        lookups::package_name(self.file, self.table, n)
    }

    // The Utf8 slot of a method type, in slot n.
    pub fn method_type(self, n: u32) -> Answer<u16>
        ensures { Is answered (lookup self.entry.file.now self.entry.table.now (method_type_at n)) result }
    {
        lookups::method_type(self.file, self.table, n)
    }

    // A name and type, in slot n.
    pub fn name_and_type(self, n: u32) -> Answer<Named>
        ensures { Is answered (lookup self.entry.file.now self.entry.table.now (named_at n)) result }
    {
        lookups::name_and_type(self.file, self.table, n)
    }

    // A member reference, in slot n.
    pub fn member_reference(self, n: u32) -> Answer<Member>
        ensures { Is answered (lookup self.entry.file.now self.entry.table.now (member_at n)) result }
    {
        lookups::member_reference(self.file, self.table, n)
    }

    // A handle, in slot n.
    pub fn method_handle(self, n: u32) -> Answer<Held>
        ensures { Is answered (lookup self.entry.file.now self.entry.table.now (handle_at n)) result }
    {
        lookups::method_handle(self.file, self.table, n)
    }

    // A Dynamic, in slot n.
    pub fn dynamic_constant(self, n: u32) -> Answer<Indexed>
        ensures { Is answered (lookup self.entry.file.now self.entry.table.now (dynamic_at n)) result }
    {
        lookups::dynamic_constant(self.file, self.table, n)
    }

    // An InvokeDynamic, in slot n.
    pub fn invoke_dynamic(self, n: u32) -> Answer<Indexed>
        ensures { Is answered (lookup self.entry.file.now self.entry.table.now (invoke_dynamic_at n)) result }
    {
        lookups::invoke_dynamic(self.file, self.table, n)
    }

    // Where the bytes of the Utf8 entry in slot n stand in the file; an empty part at 0 where `text_or_raw` refuses.
    pub fn utf8_span(self, n: u32) -> Span
        ensures { result ≡ span_in (lookup self.entry.file.now self.entry.table.now (span_at n)) }
    {
        values::utf8_span(self.file, self.table, n)
    }

    // The bytes of the Utf8 entry in slot n, as a part of the file that the view holds; an empty part where `text_or_raw` refuses.
    pub fn utf8_part(self, n: u32) -> &'a [u8]
        ensures bytes { result.now ≡ bytes_in (lookup self.entry.file.now self.entry.table.now (bytes_at n)) }
        ensures place { (result.ref_ptr.0 ≡ self.entry.file.ref_ptr.0) × (result.ref_ptr.1 ≡ self.entry.file.ref_ptr.1 + (span_in (lookup self.entry.file.now self.entry.table.now (span_at n))).from) }
    {
        values::utf8_part(self.file, self.table, n)
    }

    // Every slot that reaches slot n, each once and rising, into the lent list; cells past them are zero, and all are after a refusal.
    pub fn dependants(self, n: u32, list: &mut [u16]) -> Answer<usize>
        ensures answer { Is answered (mapped length (dependants_of self.entry.file.now self.entry.table.now n (length list.old))) result }
        ensures list { list.new ≡ after 0 (λ xs. xs) (length list.old) (dependants_of self.entry.file.now self.entry.table.now n (length list.old)) }
    {
        dependants::dependants(self.file, self.table, n, list)
    }
}

// A literal, in slot n of a table: for a caller that holds no view.
pub fn literal_of<'a>(file: &'a [u8], table: &'a [u32], n: u32) -> Answer<Literal>
    ensures { Is (answered_by reading_literal) (lookup file.now table.now (literal_at n)) result }
{
    PoolView::new(file, table).literal(n)
}
