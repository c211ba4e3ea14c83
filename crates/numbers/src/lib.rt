// Structs of numbers that C calls answer with, and what fills them from the answers of the reader. The structs are the C interface's, one
// for each sort of answer, and so are the functions that fill them.
#![tactic(auto)]

ghost use Rattle.std.specs.Prelude.{◌≡◌, ◌%◌};
ghost use Rattle.reads.specs.Promise.{answered};
ghost use Rattle.numbers.specs.Numbers.{pool_words, slot_of, named_of, member_of, handle_of, dynamic_of, literal_of, text_of, part_of, list_words, class_values, class_numbers};

use class::Class;
use pool::Head;
use questions::Reply;
use reads::Answer;

// What `luo_pool` answers: the refusal's number, 0 where the pool is accepted, its place, how many slots there are, and the version.
#[repr(C)]
#[derive(Clone, Copy, Default)]
pub struct LuoPoolAnswer {
    pub refusal: u32,
    pub place: u64,
    pub slots: u32,
    pub minor: u32,
    pub major: u32,
}

// What a name or a method type is answered by: after the refusal and its place, its Utf8 slot.
#[repr(C)]
#[derive(Clone, Copy)]
pub struct LuoSlotAnswer {
    pub refusal: u32,
    pub place: u64,
    pub slot: u32,
}

// A name and type: the Utf8 slots of its name and of its descriptor.
#[repr(C)]
#[derive(Clone, Copy)]
pub struct LuoNamedAnswer {
    pub refusal: u32,
    pub place: u64,
    pub name: u32,
    pub descriptor: u32,
}

// A member reference: which of the three (9, 10, 11), and the Utf8 slots of the class's name, of its name and of its descriptor.
#[repr(C)]
#[derive(Clone, Copy)]
pub struct LuoMemberAnswer {
    pub refusal: u32,
    pub place: u64,
    pub tag: u32,
    pub class_name: u32,
    pub name: u32,
    pub descriptor: u32,
}

// A method handle: its kind, and the member that it holds.
#[repr(C)]
#[derive(Clone, Copy)]
pub struct LuoHandleAnswer {
    pub refusal: u32,
    pub place: u64,
    pub kind: u32,
    pub tag: u32,
    pub class_name: u32,
    pub name: u32,
    pub descriptor: u32,
}

// A Dynamic or an InvokeDynamic: its index into the bootstrap methods, and the Utf8 slots of its name and of its descriptor.
#[repr(C)]
#[derive(Clone, Copy)]
pub struct LuoDynamicAnswer {
    pub refusal: u32,
    pub place: u64,
    pub index: u32,
    pub name: u32,
    pub descriptor: u32,
}

// A literal: its tag (3 Integer, 4 Float, 5 Long, 6 Double, 8 String) and its bits, of a String its Utf8 slot.
#[repr(C)]
#[derive(Clone, Copy)]
pub struct LuoLiteralAnswer {
    pub refusal: u32,
    pub place: u64,
    pub tag: u32,
    pub bits: u64,
}

// Whether a Utf8 slot is text (1) or raw (0).
#[repr(C)]
#[derive(Clone, Copy)]
pub struct LuoTextAnswer {
    pub refusal: u32,
    pub place: u64,
    pub text: u32,
}

// Where the bytes of a Utf8 slot start in the file, and how many they are.
#[repr(C)]
#[derive(Clone, Copy)]
pub struct LuoPartAnswer {
    pub refusal: u32,
    pub place: u64,
    pub start: u64,
    pub length: u64,
}

// How many dependants were listed.
#[repr(C)]
#[derive(Clone, Copy, Default)]
pub struct LuoListAnswer {
    pub refusal: u32,
    pub place: u64,
    pub count: u32,
}

// What `luo_class` answers: after the refusal and its place, how many slots there are, the version, the masked flags, the slots of this and
// super, and how many interfaces, fields, methods, member attributes and class attributes there are.
#[repr(C)]
#[derive(Clone, Copy, Default)]
pub struct LuoClassAnswer {
    pub refusal: u32,
    pub place: u64,
    pub slots: u32,
    pub minor: u32,
    pub major: u32,
    pub flags: u32,
    pub this_class: u32,
    pub super_class: u32,
    pub interfaces: u32,
    pub fields: u32,
    pub methods: u32,
    pub member_attributes: u32,
    pub class_attributes: u32,
}

// A number's lowest 32 bits.
fn word(x: usize) -> u32
    ensures { result ≡ x % 4294967296 }
{
    (x % 4294967296) as u32
}

// The answer of the pool as numbers.
pub fn pool_numbers(answer: Answer<Head>) -> LuoPoolAnswer
    ensures { result ≡ pool_words (answered.read answer) }
{
    match answer {
        Ok(h) => LuoPoolAnswer {
            refusal: 0,
            place: 0,
            slots: word(h.slots),
            minor: h.minor as u32,
            major: h.major as u32,
        },
        Err(r) => LuoPoolAnswer {
            refusal: r.number as u32,
            place: r.place as u64,
            ..LuoPoolAnswer::default()
        },
    }
}

// A lookup that answers one slot: the name of a class, a module or a package, or a method type.
pub fn slot_answer(r: Reply) -> LuoSlotAnswer
    ensures { result ≡ slot_of r }
{
    LuoSlotAnswer {
        refusal: r.refusal,
        place: r.place,
        slot: r.one,
    }
}

// The lookup of a name and type.
pub fn named_answer(r: Reply) -> LuoNamedAnswer
    ensures { result ≡ named_of r }
{
    LuoNamedAnswer {
        refusal: r.refusal,
        place: r.place,
        name: r.one,
        descriptor: r.two,
    }
}

// The lookup of a member reference.
pub fn member_answer(r: Reply) -> LuoMemberAnswer
    ensures { result ≡ member_of r }
{
    LuoMemberAnswer {
        refusal: r.refusal,
        place: r.place,
        tag: r.one,
        class_name: r.two,
        name: r.three,
        descriptor: r.four,
    }
}

// The lookup of a method handle.
pub fn handle_answer(r: Reply) -> LuoHandleAnswer
    ensures { result ≡ handle_of r }
{
    LuoHandleAnswer {
        refusal: r.refusal,
        place: r.place,
        kind: r.one,
        tag: r.two,
        class_name: r.three,
        name: r.four,
        descriptor: r.five,
    }
}

// The lookup of a Dynamic, and of an InvokeDynamic.
pub fn dynamic_answer(r: Reply) -> LuoDynamicAnswer
    ensures { result ≡ dynamic_of r }
{
    LuoDynamicAnswer {
        refusal: r.refusal,
        place: r.place,
        index: r.one,
        name: r.two,
        descriptor: r.three,
    }
}

// The lookup of a literal: its tag and its bits, a String by the slot that it names.
pub fn literal_answer(r: Reply) -> LuoLiteralAnswer
    ensures { result ≡ literal_of r }
{
    LuoLiteralAnswer {
        refusal: r.refusal,
        place: r.place,
        tag: r.one,
        bits: r.bits,
    }
}

// Whether a Utf8 is text: 1, or raw: 0.
pub fn text_answer(r: Reply) -> LuoTextAnswer
    ensures { result ≡ text_of r }
{
    LuoTextAnswer {
        refusal: r.refusal,
        place: r.place,
        text: r.one,
    }
}

// Where the bytes of a Utf8 stand in the file.
pub fn part_answer(r: Reply) -> LuoPartAnswer
    ensures { result ≡ part_of r }
{
    LuoPartAnswer {
        refusal: r.refusal,
        place: r.place,
        start: r.start,
        length: r.length,
    }
}

// The answer of the dependants as numbers.
pub fn list_numbers(answer: Answer<usize>) -> LuoListAnswer
    ensures { result ≡ list_words (answered.read answer) }
{
    match answer {
        Ok(n) => LuoListAnswer {
            refusal: 0,
            place: 0,
            count: word(n),
        },
        Err(r) => LuoListAnswer {
            refusal: r.number as u32,
            place: r.place as u64,
            ..LuoListAnswer::default()
        },
    }
}

// The answer of the listing as numbers: `list_numbers`, by the name that a theorem of `demands` (TiedNative) speaks of.
pub fn listing_numbers(answer: Answer<usize>) -> LuoListAnswer
    ensures { result ≡ list_words (answered.read answer) }
{
    list_numbers(answer)
}

// The numbers of an accepted class file.
fn class_values(c: Class) -> LuoClassAnswer
    ensures { result ≡ class_values c }
{
    LuoClassAnswer {
        refusal: 0,
        place: 0,
        slots: word(c.slots),
        minor: c.minor as u32,
        major: c.major as u32,
        flags: c.flags as u32,
        this_class: c.this as u32,
        super_class: c.parent as u32,
        interfaces: c.interfaces as u32,
        fields: c.fields as u32,
        methods: c.methods as u32,
        member_attributes: word(c.used),
        class_attributes: c.own as u32,
    }
}

// What `class::read_class` answers.
pub fn class_numbers(answer: Answer<Class>) -> LuoClassAnswer
    ensures { result ≡ class_numbers (answered.read answer) }
{
    match answer {
        Ok(c) => class_values(c),
        Err(r) => LuoClassAnswer {
            refusal: r.number as u32,
            place: r.place as u64,
            ..LuoClassAnswer::default()
        },
    }
}
