// Runs the test vectors: each file of data/, line by line. Prints the lines on which something else comes out, and how many agree.
#![tactic(auto)]

ghost use Rattle.std.specs.Prelude.{◌≤◌, length};

mod images;
mod program;
mod runs;
mod signed;
mod states;
mod text;
mod words;
mod writer;

use runs::Run;
use std::fs;
use std::io::Read;
use std::rt::Files;
use text::Text;
use words::{rest, without_end};

// Room for a file, for an image, for a transcript and for a message.
const FILE: usize = 2097152;

const IMAGE: usize = 65536;

const TRANSCRIPT: usize = 40960;

const MESSAGE: usize = 5120;

// What a buffer is filled with before a call.
const FILL: u8 = 165;

// What a file's lines are. No closure: the lines of runs share what the others have none of.
#[derive(Clone, Copy)]
enum Kind {
    Images,
    Writer,
    Program,
    Runs,
}

impl Kind {
    // The word from which on a line has what is to come out.
    fn wanted(self) -> usize {
        match self {
            Kind::Writer => 3,
            Kind::Images | Kind::Program | Kind::Runs => 1,
        }
    }
}

// How many results there were, and how many of them agree.
#[derive(Clone, Copy, Default)]
struct Tally {
    results: usize,
    agree: usize,
}

impl Tally {
    // Holds what came out of a line to what it wants; where they differ, prints both.
    fn hold(&mut self, rt: &impl Print, number: usize, given: &[u8], wanted: &[u8]) {
        self.results = self.results.saturating_add(1);
        if given == wanted {
            self.agree = self.agree.saturating_add(1);
        } else {
            let _ = print!(rt; "line {number}: ");
            let _ = rt.write_all(given);
            let _ = rt.write_all(b", not ");
            let _ = rt.write_all(wanted);
            let _ = rt.println("");
        }
    }
}

// All lines of a file.
fn take_lines(rt: &impl Print, kind: Kind, file: &[u8]) -> Tally {
    let mut tally = Tally::default();
    let mut text = Text::new();
    let mut run = Run::new(file);
    let mut at: usize = 0;
    for (number, line) in (1..=usize::MAX).zip(file.split_inclusive(|&b| b == b'\n')) {
        let lines = file.get(at..).unwrap_or(&[]);
        at = at.saturating_add(line.len());
        let line = without_end(line);
        let given = match kind {
            Kind::Images => Some(images::said(rt, &mut text, line)),
            Kind::Writer => Some(writer::written(rt, &mut text, line)),
            Kind::Program => Some(program::made(rt, &mut text, line, number)),
            Kind::Runs => run.take_line(rt, &mut text, line, lines),
        };
        if let Some(given) = given {
            tally.hold(rt, number, given, rest(line, kind.wanted()));
        }
    }
    tally
}

// Reads until the room is full, the input ends or a read fails, and answers how many bytes there are then. Not read_to_end: that asks for
// memory, which may run out.
fn read_full(input: &mut impl Read, room: &mut [u8]) -> usize
    ensures { result ≤ length room.new }
{
    let mut done = 0;
    while done < room.len() {
        let Ok(n) = input.read(&mut room[done..]) else {
            break;
        };
        if n == 0 {
            break;
        }
        done += n;
    }
    done
}

// Puts a file at the start of the room, and answers its length, 0 where it cannot be opened; says so where it is too long.
fn load(rt: &(impl Files + Print), path: &str, room: &mut [u8; FILE]) -> usize {
    let Ok(mut file) = fs::open(rt, path) else {
        return 0;
    };
    let length = read_full(&mut file, room);
    if length == FILE {
        let _ = rt.println("no room");
    }
    length
}

// Runs a file of data/.
fn run(rt: &(impl Files + Print), path: &str, kind: Kind) {
    let mut room = [0u8; FILE];
    let length = load(rt, path, &mut room);
    let Tally { results, agree } = take_lines(rt, kind, wire::part_of(&room, 0, length));
    let _ = println!(rt; "{path}: {agree} of {results} agree");
}

// The files of data/, each with what its lines are. Output that cannot be written is left.
fn main(rt: HostRuntime) {
    run(&rt, "images.txt", Kind::Images);
    run(&rt, "writer.txt", Kind::Writer);
    run(&rt, "program.txt", Kind::Program);
    run(&rt, "runs.txt", Kind::Runs);
}
