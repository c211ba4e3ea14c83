// Every lookup as one question with one reply, a struct of numbers, in a handed table that is bytes: the entries are read afresh into
// cells of this crate's own, as many as are enough for the file, and the table is held against them.
#![tactic(auto)]

ghost use Rattle.std.specs.Prelude.{◌≡◌, ◌≤◌, length};
ghost use Rattle.reads.specs.Promise.{Is, answered};
ghost use Rattle.handed.specs.Handed.{handed as handed_pool, lookup};
ghost use Rattle.literal.specs.Readings.{reading_literal};
ghost use Rattle.values.specs.Lookups.{span_at};
ghost use Rattle.values.specs.Readings.{reading_text};
ghost use Rattle.cells.specs.Cells.{cells_in};
ghost use Rattle.byte_tables.specs.Enough.{enough_for};
ghost use Rattle.questions.specs.Replies.{none, numbers, slot_values, named_values, member_values, held_values, indexed_values, literal_values, tag_for, text_values, span_values, reply_at, on_pool};

use literal::Literal;
use lookups::{Held, Indexed, Member, Named};
use pool::Kind;
use reads::{Answer, Refusal};
use values::{Span, Utf8};

// What can be asked of a slot. No closure in its place: `loader` hands it on from C's calls, and `reply_at` is defined by it.
#[derive(Clone, Copy)]
pub enum Question {
    ClassName,
    ModuleName,
    PackageName,
    MethodType,
    NameAndType,
    MemberReference,
    MethodHandle,
    Dynamic,
    InvokeDynamic,
    Literal,
    Text,
    Part,
}

// A reply, in numbers, since each goes into a struct for C as it is: the refusal's number, 0 where there is an answer, its place, and the answer's values: up to five numbers in the order of the
// question's own struct, the bits of a literal, and where a part of the file starts and how long it is; 0 where it has no such value.
#[derive(Clone, Copy, Default)]
pub struct Reply {
    pub refusal: u32,
    pub place: u64,
    pub one: u32,
    pub two: u32,
    pub three: u32,
    pub four: u32,
    pub five: u32,
    pub bits: u64,
    pub start: u64,
    pub length: u64,
}

// The reply to a refusal: its number and its place, and no values.
fn refused(r: Refusal) -> Reply
    ensures { result ≡ none r.number r.place }
{
    Reply {
        refusal: r.number as u32,
        place: r.place as u64,
        ..Reply::default()
    }
}

// What a lookup answers, and the values that a reply has of it.
trait Values {
    ghost use Rattle.questions.specs.declared.Reply.{Reply};

    ghost values: { Self → Reply };

    fn values(self) -> Reply
        ensures { result ≡ values self };
}

impl Values for u16 {
    ghost values = { slot_values };

    fn values(self) -> Reply {
        Reply {
            one: self as u32,
            ..Reply::default()
        }
    }
}

impl Values for Named {
    ghost values = { named_values };

    fn values(self) -> Reply {
        Reply {
            one: self.name as u32,
            two: self.descriptor as u32,
            ..Reply::default()
        }
    }
}

impl Values for Member {
    ghost values = { member_values };

    fn values(self) -> Reply {
        Reply {
            one: self.tag as u32,
            two: self.class as u32,
            three: self.name as u32,
            four: self.descriptor as u32,
            ..Reply::default()
        }
    }
}

impl Values for Held {
    ghost values = { held_values };

    fn values(self) -> Reply {
        Reply {
            one: self.kind as u32,
            two: self.member.tag as u32,
            three: self.member.class as u32,
            four: self.member.name as u32,
            five: self.member.descriptor as u32,
            ..Reply::default()
        }
    }
}

impl Values for Indexed {
    ghost values = { indexed_values };

    fn values(self) -> Reply {
        Reply {
            one: self.index as u32,
            two: self.named.name as u32,
            three: self.named.descriptor as u32,
            ..Reply::default()
        }
    }
}

// The tag of a literal's kind.
fn tag_for(x: Literal) -> u32
    ensures { result ≡ tag_for (reading_literal.read x) }
{
    match x {
        Literal::Integer(_) => Kind::Integer as u32,
        Literal::Float(_) | Literal::FloatNan(_) => Kind::Float as u32,
        Literal::Long(_) => Kind::Long as u32,
        Literal::Double(_) | Literal::DoubleNan(_) => Kind::Double as u32,
        Literal::Text(_) => Kind::String as u32,
    }
}

impl Values for Literal {
    ghost values = { λ x. literal_values (reading_literal.read x) };

    fn values(self) -> Reply {
        Reply {
            one: tag_for(self),
            bits: literal::bits_of(Ok(self)),
            ..Reply::default()
        }
    }
}

impl Values for Utf8 {
    ghost values = { λ x. text_values (reading_text.read x) };

    fn values(self) -> Reply {
        let is_text = match self {
            Utf8::Text => 1,
            Utf8::Raw => 0,
        };
        Reply {
            one: is_text,
            ..Reply::default()
        }
    }
}

// A part of the file is told by its first byte and its length.
impl Values for Span {
    ghost values = { span_values };

    fn values(self) -> Reply {
        Reply {
            start: self.from as u64,
            length: self.to.saturating_sub(self.from) as u64,
            ..Reply::default()
        }
    }
}

// The reply that a lookup's answer comes to.
fn reply_to<T: Values>(answer: Answer<T>) -> Reply
    ensures { result ≡ numbers T.values (answered.read answer) }
{
    match answer {
        Ok(x) => x.values(),
        Err(r) => refused(r),
    }
}

// Where the bytes of a Utf8 slot stand; it is refused as the text is.
fn part_of<'a>(file: &'a [u8], table: &'a [u32], n: u32) -> Answer<Span>
    ensures { Is answered (lookup file.now table.now (span_at n)) result }
{
    values::text_or_raw(file, table, n)?;
    Ok(values::utf8_span(file, table, n))
}

// The question put to a handed table of cells.
#[tactic(auto, using(crate::proofs::Asked::replied))]
pub fn answer<'a>(question: Question, file: &'a [u8], table: &'a [u32], n: u32) -> Reply
    ensures { result ≡ on_pool (reply_at question n) (handed_pool file.now table.now) }
{
    match question {
        Question::ClassName => reply_to(lookups::class_name(file, table, n)),
        Question::ModuleName => reply_to(lookups::module_name(file, table, n)),
        Question::PackageName => reply_to(lookups::package_name(file, table, n)),
        Question::MethodType => reply_to(lookups::method_type(file, table, n)),
        Question::NameAndType => reply_to(lookups::name_and_type(file, table, n)),
        Question::MemberReference => reply_to(lookups::member_reference(file, table, n)),
        Question::MethodHandle => reply_to(lookups::method_handle(file, table, n)),
        Question::Dynamic => reply_to(lookups::dynamic_constant(file, table, n)),
        Question::InvokeDynamic => reply_to(lookups::invoke_dynamic(file, table, n)),
        Question::Literal => reply_to(values::literal(file, table, n)),
        Question::Text => reply_to(values::text_or_raw(file, table, n)),
        Question::Part => reply_to(part_of(file, table, n)),
    }
}

// The work of `ask`, with as many cells lent as are enough.
fn ask_in(question: Question, file: &[u8], table: &[u8], n: u32, cells: &mut [u32]) -> Reply
    requires { enough_for file.now ≤ length cells.old }
    ensures { result ≡ on_pool (reply_at question n) (handed_pool file.now (cells_in table.now)) }
{
    match byte_tables::check_afresh(file, table, cells) {
        Ok(()) => answer(question, file, cells, n),
        Err(r) => refused(r),
    }
}

// The same, of the cells only as many as are used.
fn ask_with(
    question: Question,
    file: &[u8],
    table: &[u8],
    n: u32,
    cells: &mut [u32],
    need: usize,
) -> Reply
    requires { (need ≡ enough_for file.now) × (need ≤ length cells.old) }
    ensures { result ≡ on_pool (reply_at question n) (handed_pool file.now (cells_in table.now)) }
{
    ask_in(question, file, table, n, &mut cells[..need])
}

// The reply with N cells of its own.
fn ask_sized<const N: usize>(question: Question, file: &[u8], table: &[u8], n: u32) -> Reply
    requires enough { enough_for file.now ≤ N }
    requires few { N ≤ 65536 }
    ensures { result ≡ on_pool (reply_at question n) (handed_pool file.now (cells_in table.now)) }
{
    let need = byte_tables::cells_for(file);
    let mut cells = [0u32; N];
    ask_with(question, file, table, n, &mut cells, need)
}

// The reply to a question about slot n of a handed table that is bytes. The numbers of cells double: the compiler takes only the first
// few of these functions into this one's frame. The tests stand as in `byte_pools`, which says why.
pub fn ask(question: Question, file: &[u8], table: &[u8], n: u32) -> Reply
    ensures { result ≡ on_pool (reply_at question n) (handed_pool file.now (cells_in table.now)) }
{
    let need = byte_tables::cells_for(file);
    if need <= 64 {
        return ask_sized::<64>(question, file, table, n);
    }
    if need <= 128 {
        return ask_sized::<128>(question, file, table, n);
    }
    if need <= 256 {
        return ask_sized::<256>(question, file, table, n);
    }
    if need <= 512 {
        return ask_sized::<512>(question, file, table, n);
    }
    if need <= 1024 {
        return ask_sized::<1024>(question, file, table, n);
    }
    if need <= 2048 {
        return ask_sized::<2048>(question, file, table, n);
    }
    if need <= 4096 {
        return ask_sized::<4096>(question, file, table, n);
    }
    if need <= 8192 {
        return ask_sized::<8192>(question, file, table, n);
    }
    if need <= 16384 {
        return ask_sized::<16384>(question, file, table, n);
    }
    if need <= 32768 {
        return ask_sized::<32768>(question, file, table, n);
    }
    ask_sized::<65536>(question, file, table, n)
}
