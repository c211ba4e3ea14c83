// Runs vectors of texts, names and descriptors: a command and bytes in hexadecimal, answered by a verdict or a number.
#![tactic(auto)]

ghost use Rattle.std.specs.Prelude.{◌≡◌, ◌+◌, ◌≤◌, length};

use script::Answers;
use std::io;
use std::io::Write;

// The verdict that a command asks for.
fn verdict(command: &[u8], s: &[u8]) -> bool {
    match command {
        b"text" => text::is_text(s),
        b"field" => descriptors::is_field_descriptor(s),
        b"array" => descriptors::is_array_descriptor(s),
        b"method" => descriptors::is_method_descriptor(s),
        b"returns_void" => descriptors::returns_void(s),
        b"takes_nothing" => descriptors::takes_nothing(s),
        b"unqualified" => text::is_unqualified_name(s),
        b"method_name" => text::is_unqualified_method_name(s, false),
        b"interface_method_name" => text::is_unqualified_method_name(s, true),
        b"binary" => text::is_binary_name(s),
        b"module" => text::is_module_name(s),
        b"init" => text::is_init(s),
        b"clinit" => text::is_clinit(s),
        _ => text::is_bootstrap_methods(s),
    }
}

// Answers a command on bytes: how many of them are text, or the verdict.
fn answer(out: &mut impl Write, command: &[u8], s: &[u8]) -> io::Result<()> {
    match command {
        b"text_length" => write!(out, "{}", text::text_length(s))?,
        _ => script::print_verdict(out, verdict(command, s))?,
    }
    script::print(out, b"\n")
}

// The bytes of a line whose second word is a number: as many `[`, or as many as `space` has room for, and those that its third word says.
fn read_deep(line: &[u8], space: &mut [u8]) -> usize
    ensures { (result ≤ length space.new) × (length space.new ≡ length space.old) }
{
    let n = script::number_up_to(space.len(), script::word(line, 1));
    space[..n].fill(b'[');
    n + script::bytes(script::word(line, 2), &mut space[n..])
}

// The bytes that a line says, into `space`; how many they are.
fn read_bytes(line: &[u8], space: &mut [u8]) -> usize
    ensures { (result ≤ length space.new) × (length space.new ≡ length space.old) }
{
    if script::word(line, 2).is_empty() {
        return script::bytes(script::word(line, 1), space);
    }
    read_deep(line, space)
}

// The space that the bytes of a line take.
#[derive(Drop)]
struct Verdicts {
    space: [u8; script::LINE],
}

impl Answers for Verdicts {
    // A command and its bytes; or a command, a number, and the bytes that follow as many `[`.
    fn answer(&mut self, out: &mut impl Write, line: &[u8]) -> io::Result<()> {
        let n = read_bytes(line, &mut self.space);
        answer(out, script::word(line, 0), &self.space[..n])
    }
}

fn main(rt: HostRuntime) -> io::Result<()> {
    let mut input: [u8; script::SPACE] = script::zeros();
    let mut verdicts = Verdicts {
        space: script::zeros(),
    };
    script::run(rt.reader(), &mut io::writer(&rt), &mut input, &mut verdicts)
}
