// Runs lookups. A line is the lookup, the file, the handed table with four bytes a cell, and the slot that is asked for.
#![tactic(auto)]

ghost use Rattle.std.specs.Prelude.{◌≡◌, ◌≤◌, length, take};

use literal::Literal;
use lookups::{Held, Indexed, Member, Named};
use reads::Answer;
use script::Answers;
use std::io;
use std::io::Write;
use values::Utf8;

// The cells that bytes are, into a table; how many.
fn fill(bytes: &[u8], table: &mut [u32]) -> usize
    ensures { (result ≤ length table.new) × (length table.new ≡ length table.old) }
{
    let (cells, _) = bytes.as_chunks::<4>();
    for (place, cell) in table.iter_mut().zip(cells) {
        *place = u32::from_be_bytes(*cell);
    }
    table.len().min(cells.len())
}

// What a lookup finds, written as its vectors have it.
trait Found {
    fn print(&self, out: &mut impl Write) -> io::Result<()>;
}

impl Found for u16 {
    fn print(&self, out: &mut impl Write) -> io::Result<()> {
        write!(out, "slot {self}")
    }
}

impl Found for Named {
    fn print(&self, out: &mut impl Write) -> io::Result<()> {
        write!(out, "named {} {}", self.name, self.descriptor)
    }
}

impl Found for Member {
    fn print(&self, out: &mut impl Write) -> io::Result<()> {
        let Member {
            tag,
            class,
            name,
            descriptor,
        } = *self;
        write!(out, "member {tag} {class} {name} {descriptor}")
    }
}

impl Found for Held {
    fn print(&self, out: &mut impl Write) -> io::Result<()> {
        write!(out, "kind {} ", self.kind)?;
        self.member.print(out)
    }
}

impl Found for Indexed {
    fn print(&self, out: &mut impl Write) -> io::Result<()> {
        write!(out, "index {} ", self.index)?;
        self.named.print(out)
    }
}

impl Found for Utf8 {
    fn print(&self, out: &mut impl Write) -> io::Result<()> {
        out.write_all(match self {
            Utf8::Text => b"text",
            Utf8::Raw => b"raw",
        })
    }
}

// What it is, its bits, and whether it is below zero.
impl Found for Literal {
    fn print(&self, out: &mut impl Write) -> io::Result<()> {
        let (what, is_below) = match *self {
            Literal::Integer(x) => ("integer", x < 0),
            Literal::Float(x) => ("float", x < 0.0),
            Literal::FloatNan(_) => ("float that is no number", false),
            Literal::Long(x) => ("long", x < 0),
            Literal::Double(x) => ("double", x < 0.0),
            Literal::DoubleNan(_) => ("double that is no number", false),
            Literal::Text(_) => ("string", false),
        };
        let sign = if is_below { " below zero" } else { "" };
        write!(out, "{what} {}{sign}", literal::bits_of(Ok(*self)))
    }
}

fn print<T: Found + Drop>(out: &mut impl Write, answer: Answer<T>) -> io::Result<()> {
    match answer {
        Ok(found) => found.print(out),
        Err(r) => write!(out, "refused {} {}", r.number, r.place),
    }
}

// Answers a lookup by its name.
fn look_up<'a>(
    out: &mut impl Write,
    what: &[u8],
    file: &'a [u8],
    table: &'a [u32],
    n: u32,
) -> io::Result<()> {
    match what {
        b"literal" => print(out, values::literal(file, table, n)),
        b"utf8" => print(out, values::text_or_raw(file, table, n)),
        b"part" => script::print_bytes(out, values::utf8_part(file, table, n)),
        b"name_and_type" => print(out, lookups::name_and_type(file, table, n)),
        b"member" => print(out, lookups::member_reference(file, table, n)),
        b"handle" => print(out, lookups::method_handle(file, table, n)),
        b"dynamic" => print(out, lookups::dynamic_constant(file, table, n)),
        b"invoke_dynamic" => print(out, lookups::invoke_dynamic(file, table, n)),
        b"class" => print(out, lookups::class_name(file, table, n)),
        b"module" => print(out, lookups::module_name(file, table, n)),
        b"package" => print(out, lookups::package_name(file, table, n)),
        b"method_type" => print(out, lookups::method_type(file, table, n)),
        _ => script::print(out, b"no such lookup"),
    }
}

// The space that a line's bytes take, and its table.
#[derive(Drop)]
struct Lookups {
    space: [u8; script::LINE],
    table: [u32; script::CELLS],
}

impl Answers for Lookups {
    fn answer(&mut self, out: &mut impl Write, line: &[u8]) -> io::Result<()> {
        let m = script::bytes(script::word(line, 2), &mut self.space);
        let k = fill(&self.space[..m], &mut self.table);
        let n = script::bytes(script::word(line, 1), &mut self.space);
        let slot = u32::try_from(script::number(script::word(line, 3))).unwrap_or(u32::MAX);
        look_up(
            out,
            script::word(line, 0),
            &self.space[..n],
            &self.table[..k],
            slot,
        )?;
        script::print(out, b"\n")
    }
}

fn main(rt: HostRuntime) -> io::Result<()> {
    let mut input: [u8; script::SPACE] = script::zeros();
    let mut lookups = Lookups {
        space: script::zeros(),
        table: script::zeros(),
    };
    script::run(rt.reader(), &mut io::writer(&rt), &mut input, &mut lookups)
}
