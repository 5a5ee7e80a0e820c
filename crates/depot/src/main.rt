#![tactic(auto)]

// Reads a depot and the vectors that follow it, and tells what it found.
use depot_text::split_input;
use lines::Text;
use opened::open_text;
use passes::Lent;
use process::size_of;
use std::io::{self, Read};
use std::{env, fs};
use table::Table;
use vector_text::read_vector;

mod telling;

// how many bytes are read of an input; what lies past them is not
const MOST: usize = 65536;

// the most states, options and moves that a depot may have
const STATES: usize = 4096;

const OPTIONS: usize = 16384;

const MOVES: usize = 65536;

fn main(rt: HostRuntime) -> anyhow::Result<()> {
    run(&rt)
}

fn run(rt: &HostRuntime) -> anyhow::Result<()> {
    let bytes = read_input(rt)?;
    tell_input(rt, bytes.as_slice())?;
    Ok(())
}

// From the file that the one argument names, or from standard input.
fn read_input(rt: &HostRuntime) -> io::Result<Vec<u8>> {
    match env::args(rt)?.nth(1) {
        Some(path) => read_most(rt, fs::open(rt, path)?),
        None => read_most(rt, rt.stdin()),
    }
}

fn read_most<R: Read + Drop>(rt: &HostRuntime, reader: R) -> io::Result<Vec<u8>> {
    let mut bytes = Vec::new(rt.alloc());
    let _ = reader.take(MOST as u64).read_to_end(&mut bytes)?;
    Ok(bytes)
}

fn tell_input(rt: &HostRuntime, input: &[u8]) -> io::Result<()> {
    let mut options = vec![in rt.alloc(); 0u32; STATES + 1]?;
    let mut starts = vec![in rt.alloc(); 0u32; OPTIONS + 1]?;
    let mut moves = vec![in rt.alloc(); 0u32; 2 * MOVES]?;
    let split = split_input(input);
    let mut table = Table::empty();
    let lists = Lent {
        options: options.as_mut_slice(),
        starts: starts.as_mut_slice(),
        moves: moves.as_mut_slice(),
    };
    match open_text(&mut table, split.depot, lists) {
        Ok(()) => {
            telling::print_size(rt, size_of(&table))?;
            tell_vectors(rt, split.vectors)
        }
        Err(refusal) => telling::print_refusal(rt, refusal),
    }
}

fn tell_vectors(rt: &HostRuntime, mut text: Text<'_>) -> io::Result<()> {
    let mut entries = vec![in rt.alloc(); 0u32; OPTIONS]?;
    while !text.is_empty() {
        match read_vector(text, entries.as_mut_slice()) {
            Ok(found) => {
                telling::print_vector(rt, &found)?;
                text = found.text;
            }
            Err(refusal) => return telling::print_refusal(rt, refusal),
        }
    }
    Ok(())
}
