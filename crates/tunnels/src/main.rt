// Reads the text of a survey from standard input and prints its tunnels, by our descriptions; or only `refused N`.
#![tactic(auto)]

use load::Loaded;
use refusal::Refusal;
use std::io;
use tables::Tables;

// One byte more than a text may have, so that a longer one is seen.
const TEXT_ROOM: usize = 65537;

// Room for the lines of 16,384 result words, which have at most 43 bytes a word.
const PAGE_ROOM: usize = 786432;

// Room for the lines of most adapters. The largest room is made only where it is needed: filling it takes as long as all else of a small survey.
const SMALL_ROOM: usize = 8192;

fn write_refused(rt: &impl Print, refusal: Refusal) -> io::Result<()> {
    let number = refusals::numbers_of(refusal).number;
    let mut line = [0u8; 16];
    if let Ok(n) = summary::refused(number, &mut line) {
        rt.write_all(&line[..n])?;
    }
    Ok(())
}

fn write_total(rt: &impl Print, tunnels: usize) -> io::Result<()> {
    let mut line = [0u8; 32];
    if let Ok(n) = summary::total(tunnels, &mut line) {
        rt.write_all(&line[..n])?;
    }
    Ok(())
}

// Writes an adapter's lines, by way of a buffer that holds any page.
fn write_long_page(rt: &impl Print, tables: &Tables, index: usize) -> io::Result<()> {
    let mut buffer = input::room::<PAGE_ROOM>();
    if let Ok(Ok(n)) = report::put_page(tables, index, &mut buffer) {
        rt.write_all(&buffer[..n])?;
    }
    Ok(())
}

// Writes an adapter's lines, and says whether the buffer has room for them; where it hasn't, nothing is written. None is refused here, since each was tried.
fn write_page(
    rt: &impl Print,
    tables: &Tables,
    index: usize,
    buffer: &mut [u8],
) -> io::Result<bool> {
    match report::put_page(tables, index, buffer) {
        Ok(Ok(n)) => {
            rt.write_all(&buffer[..n])?;
            Ok(true)
        }
        Ok(Err(_)) => Ok(false),
        Err(_) => Ok(true),
    }
}

// Writes the lines of the adapters from one to before another, in order. It goes by halves and not by a loop: the compiler puts no large room into the frame of a function that calls itself. Otherwise the largest room would be in the frame of `main`, of which every page is touched in every run.
fn write_pages(
    rt: &impl Print,
    tables: &Tables,
    from: usize,
    end: usize,
    buffer: &mut [u8],
) -> io::Result<()> {
    if end <= from {
        return Ok(());
    }
    let middle = from + (end - from) / 2;
    write_pages(rt, tables, from, middle, buffer)?;
    if !write_page(rt, tables, middle, buffer)? {
        write_long_page(rt, tables, middle)?;
    }
    write_pages(rt, tables, middle + 1, end, buffer)
}

// Writes each adapter's lines.
fn write_tables(rt: &impl Print, tables: &Tables) -> io::Result<()> {
    let mut buffer = input::room::<SMALL_ROOM>();
    write_pages(rt, tables, 0, tables.adapters.len(), &mut buffer)
}

// Writes the lines of a text that was opened, or its refusal.
fn write_opened(
    rt: &impl Print,
    answer: Result<usize, Refusal>,
    loaded: &Loaded,
) -> io::Result<()> {
    match (answer, loaded.tables()) {
        (Ok(tunnels), Ok(tables)) => {
            write_total(rt, tunnels)?;
            write_tables(rt, &tables)
        }
        (Ok(_), Err(refusal)) => write_refused(rt, refusal),
        (Err(refusal), _) => write_refused(rt, refusal),
    }
}

// Nothing is written before all adapters were tried.
fn write_text(rt: &impl Print, text: &[u8]) -> io::Result<()> {
    let mut loaded = Loaded::none();
    let answer = program::open_into(text, &mut loaded);
    write_opened(rt, answer, &loaded)
}

fn main(rt: HostRuntime) -> io::Result<()> {
    let mut text = input::room::<TEXT_ROOM>();
    let n = input::read_full(&mut rt.stdin(), &mut text)?;
    write_text(&rt, &text[..n])
}
