// Runs class files: a line says how large the lent tables are, and the bytes in hexadecimal, or a file of data/. Written are the
// answer and every lent table, whole.
#![tactic(auto)]

ghost use Rattle.std.specs.Prelude.{◌≤◌};

use class::Class;
use reads::Answer;
use script::Answers;
use std::fmt::Display;
use std::io;
use std::io::Write;
use std::rt::Files;

// A column: its name and its cells.
fn print_column<T: Display>(out: &mut impl Write, name: &str, cells: &[T]) -> io::Result<()> {
    write!(out, "  {name}")?;
    script::print_fields(out, cells)?;
    script::print(out, b"\n")
}

fn print_class(out: &mut impl Write, c: Class) -> io::Result<()> {
    write!(
        out,
        "accepted {} {} {} {} {} {} {} {} {} {} {}",
        c.slots,
        c.minor,
        c.major,
        c.flags,
        c.this,
        c.parent,
        c.interfaces,
        c.fields,
        c.methods,
        c.used,
        c.own
    )
}

fn print_answer(out: &mut impl Write, answer: Answer<Class>) -> io::Result<()> {
    match answer {
        Err(r) => write!(out, "refused {} {}", r.number, r.place)?,
        Ok(c) => print_class(out, c)?,
    }
    script::print(out, b"\n")
}

// Reads a file into tables of so many cells, interfaces, member records and attribute records, and writes the answer and the tables.
fn show<const CELLS: usize, const INTERFACES: usize, const MEMBERS: usize, const ATTRIBUTES: usize>(
    out: &mut impl Write,
    file: &[u8],
) -> io::Result<()>
    requires { (CELLS ≤ 80) × (INTERFACES ≤ 4) × (MEMBERS ≤ 20) × (ATTRIBUTES ≤ 30) }
{
    let mut table = [0u32; CELLS];
    let mut interfaces = [0u16; INTERFACES];
    let mut flags = [0u16; MEMBERS];
    let mut names = [0u16; MEMBERS];
    let mut types = [0u16; MEMBERS];
    let mut firsts = [0u32; MEMBERS];
    let mut counts = [0u16; MEMBERS];
    let mut titles = [0u16; ATTRIBUTES];
    let mut bodies = [0u32; ATTRIBUTES];
    let mut lengths = [0u32; ATTRIBUTES];
    let answer = class::read_class(
        file,
        &mut table,
        &mut interfaces,
        &mut flags,
        &mut names,
        &mut types,
        &mut firsts,
        &mut counts,
        &mut titles,
        &mut bodies,
        &mut lengths,
    );
    print_answer(out, answer)?;
    print_column(out, "cells", &table)?;
    print_column(out, "interfaces", &interfaces)?;
    print_column(out, "flags", &flags)?;
    print_column(out, "names", &names)?;
    print_column(out, "descriptors", &types)?;
    print_column(out, "firsts", &firsts)?;
    print_column(out, "counts", &counts)?;
    print_column(out, "attributes", &titles)?;
    print_column(out, "bodies", &bodies)?;
    print_column(out, "lengths", &lengths)
}

// Reads a file into tables as large as a word says.
fn show_as(out: &mut impl Write, size: &[u8], file: &[u8]) -> io::Result<()> {
    match size {
        b"short" => show::<5, 1, 1, 1>(out, file),
        b"tight" => show::<60, 1, 1, 1>(out, file),
        b"large" => show::<80, 4, 20, 30>(out, file),
        _ => show::<60, 3, 4, 5>(out, file),
    }
}

// Where the files are, and the space that a line's file takes.
#[derive(Drop)]
struct Classes<'a, F> {
    files: &'a F,
    space: [u8; script::LINE],
}

impl<'a, F: Files> Answers for Classes<'a, F> {
    fn between(&self) -> &'static [u8] {
        b"\n"
    }

    fn answer(&mut self, out: &mut impl Write, line: &[u8]) -> io::Result<()> {
        let n = script::read_bytes(self.files, line, 2, &mut self.space)?;
        show_as(out, script::word(line, 1), &self.space[..n])
    }
}

fn main(rt: HostRuntime) -> io::Result<()> {
    let mut input: [u8; script::SPACE] = script::zeros();
    let mut classes = Classes {
        files: &rt,
        space: script::zeros(),
    };
    script::run(rt.reader(), &mut io::writer(&rt), &mut input, &mut classes)
}
