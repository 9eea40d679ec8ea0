// What the program prints of a text, page by page, against the stored answer, pairs of hex digits in lower case: each call gives what follows what is printed, or none where
// other bytes stand. So it needs no room, however much is printed.
use load::Loaded;
use refusal::Refusal;
use tables::Tables;

// The digit of a value below 16, in lower case.
fn digit(n: u8) -> u8 {
    if n < 10 {
        return n.wrapping_add(b'0');
    }
    n.wrapping_add(b'a' - 10)
}

// What follows the pairs of these bytes, if they stand next.
fn after<'a>(pairs: &'a [u8], bytes: &[u8]) -> Option<&'a [u8]> {
    if pairs.len() / 2 < bytes.len() {
        return None;
    }
    for i in 0..bytes.len() {
        let b = bytes[i];
        if pairs[2 * i] != digit(b / 16) || pairs[2 * i + 1] != digit(b % 16) {
            return None;
        }
    }
    Some(&pairs[2 * bytes.len()..])
}

fn after_refused(stored: &[u8], refusal: Refusal) -> Option<&[u8]> {
    let number = refusals::numbers_of(refusal).number;
    let mut line = [0u8; 16];
    match summary::refused(number, &mut line) {
        Ok(n) => after(stored, line.get(..n)?),
        Err(_) => None,
    }
}

fn after_total(stored: &[u8], tunnels: usize) -> Option<&[u8]> {
    let mut line = [0u8; 32];
    match summary::total(tunnels, &mut line) {
        Ok(n) => after(stored, line.get(..n)?),
        Err(_) => None,
    }
}

// What follows all adapters' lines.
fn after_pages<'a>(stored: &'a [u8], tables: &Tables, buffer: &mut [u8]) -> Option<&'a [u8]> {
    let mut rest = stored;
    for index in 0..tables.adapters.len() {
        match report::put_page(tables, index, buffer) {
            Ok(Ok(n)) => rest = after(rest, buffer.get(..n)?)?,
            _ => return None,
        }
    }
    Some(rest)
}

// Here, and not where a text is opened, so that the buffer is cleared only where there are pages; as much as the program lends for one.
fn after_tables<'a>(stored: &'a [u8], tunnels: usize, tables: &Tables) -> Option<&'a [u8]> {
    let mut buffer = input::room::<786432>();
    let rest = after_total(stored, tunnels)?;
    after_pages(rest, tables, &mut buffer)
}

fn after_text<'a>(stored: &'a [u8], text: &[u8]) -> Option<&'a [u8]> {
    let mut loaded = Loaded::none();
    let answer = program::open_into(text, &mut loaded);
    match (answer, loaded.tables()) {
        (Ok(tunnels), Ok(tables)) => after_tables(stored, tunnels, &tables),
        (Ok(_), Err(refusal)) => after_refused(stored, refusal),
        (Err(refusal), _) => after_refused(stored, refusal),
    }
}

// Whether that, and no more, is printed of the text.
pub fn is_printed(stored: &[u8], text: &[u8]) -> bool {
    match after_text(stored, text) {
        Some(rest) => rest.is_empty(),
        None => false,
    }
}
