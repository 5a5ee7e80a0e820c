// What the program prints.
use process::Size;
use refusal::Refusal;
use std::io;
use vector_text::Found;

pub(crate) fn print_refusal(rt: &HostRuntime, refusal: Refusal) -> io::Result<()> {
    println!(rt; "refused={}", refusal.number())?;
    println!(rt; "at={}", refusal.place())
}

pub(crate) fn print_size(rt: &HostRuntime, size: Size) -> io::Result<()> {
    println!(rt; "states={}", size.states)?;
    println!(rt; "options={}", size.options)?;
    println!(rt; "moves={}", size.moves)
}

pub(crate) fn print_vector(rt: &HostRuntime, found: &Found<'_>) -> io::Result<()> {
    println!(rt; "vector={} entries={}", found.kind, found.count)
}
