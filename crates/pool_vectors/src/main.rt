// Runs vectors of the pool call: how many cells are lent and a file, answered by what `read_pool` says and the table afterwards.
#![tactic(auto)]

ghost use Rattle.std.specs.Prelude.{◌≡◌, ◌≤◌, length, take};

use pool::Head;
use reads::Answer;
use script::Answers;
use std::io;
use std::io::Write;

fn print_answer(out: &mut impl Write, answer: Answer<Head>) -> io::Result<()> {
    match answer {
        Err(r) => write!(out, "{r}"),
        Ok(h) => write!(
            out,
            "P {}, version {}.{}, then byte {}",
            h.slots, h.major, h.minor, h.next
        ),
    }
}

// The last two cells.
fn print_last(out: &mut impl Write, table: &[u32]) -> io::Result<()> {
    match table {
        [.., a, b] => write!(out, " {a} {b}"),
        _ => Ok(()),
    }
}

// How many cells are not 0.
fn used(table: &[u32]) -> usize
    ensures { result ≤ length table.now }
{
    table.iter().filter(|cell| **cell != 0).count()
}

// `read CELLS FILE`: the answer and the table.
fn read(out: &mut impl Write, file: &[u8], table: &mut [u32]) -> io::Result<()> {
    print_answer(out, checks::read_pool(file, table))?;
    script::print(out, b" |")?;
    script::print_fields(out, table)?;
    script::print(out, b"\n")
}

// `cuts CELLS FILE`: the answer for each beginning of the file that is shorter than it, and how many cells it leaves that are not 0.
fn cuts(out: &mut impl Write, file: &[u8], table: &mut [u32]) -> io::Result<()> {
    for n in 0..file.len() {
        print_answer(out, checks::read_pool(&file[..n], table))?;
        write!(out, " |{}; ", used(table))?;
    }
    script::print(out, b"\n")
}

// `fill CELLS START ENTRY TIMES END`: the answer for START, ENTRY so many times, and END; how many cells are then not 0, and the
// last cells.
fn fill(out: &mut impl Write, file: &[u8], table: &mut [u32]) -> io::Result<()> {
    print_answer(out, checks::read_pool(file, table))?;
    write!(out, " | {} ..", used(table))?;
    print_last(out, table)?;
    script::print(out, b"\n")
}

// The bytes that a word says, put at a place; the place after them.
fn append(word: &[u8], space: &mut [u8], at: usize) -> usize
    requires { at ≤ length space.old }
    ensures { (result ≤ length space.new) × (length space.new ≡ length space.old) }
{
    at + script::bytes(word, &mut space[at..])
}

// The file that a line of `fill` says.
fn build(line: &[u8], space: &mut [u8]) -> usize
    ensures { (result ≤ length space.new) × (length space.new ≡ length space.old) }
{
    let mut at = append(script::word(line, 2), space, 0);
    let entry = script::word(line, 3);
    for _ in 0..script::number_up_to(65535, script::word(line, 4)) {
        at = append(entry, space, at);
    }
    append(script::word(line, 5), space, at)
}

// The file that a line says, into `space`; how many bytes it has.
fn read_file(line: &[u8], space: &mut [u8]) -> usize
    ensures { (result ≤ length space.new) × (length space.new ≡ length space.old) }
{
    match script::word(line, 0) {
        b"fill" => build(line, space),
        _ => script::bytes(script::word(line, 2), space),
    }
}

// The space that a line's file takes, and the cells that are lent.
#[derive(Drop)]
struct Pools {
    space: [u8; script::SPACE],
    cells: [u32; script::CELLS],
}

impl Answers for Pools {
    fn answer(&mut self, out: &mut impl Write, line: &[u8]) -> io::Result<()> {
        let n = read_file(line, &mut self.space);
        let room = script::number_up_to(self.cells.len(), script::word(line, 1));
        let file = &self.space[..n];
        // Two lines: of a part of a field that is an array, as `&mut self.cells[..room]`, the borrow checker does not cover the loan.
        let cells = &mut self.cells[..];
        let table = &mut cells[..room];
        match script::word(line, 0) {
            b"fill" => fill(out, file, table),
            b"cuts" => cuts(out, file, table),
            _ => read(out, file, table),
        }
    }
}

fn main(rt: HostRuntime) -> io::Result<()> {
    let mut input: [u8; script::SPACE] = script::zeros();
    let mut pools = Pools {
        space: script::zeros(),
        cells: script::zeros(),
    };
    script::run(rt.reader(), &mut io::writer(&rt), &mut input, &mut pools)
}
