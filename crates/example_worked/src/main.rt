// Document 01's list in full, played on a fresh store: each event with its answer, then how the commit page begins and the records, in hex.
#![tactic(auto)]

use std::{fmt, io};

// The sixteen event words.
const EVENTS: [u8; 64] = [
    0x80, 0x00, 0x3F, 0x00, 0x1F, 0x80, 0x00, 0x00, 0x10, 0x00, 0x00, 0x00, 0x20, 0x98, 0x00, 0x00,
    0x30, 0x98, 0x80, 0xA5, 0x50, 0x80, 0x3F, 0x00, 0x10, 0x00, 0x00, 0x00, 0x20, 0x98, 0x00, 0x00,
    0x30, 0x98, 0x80, 0x11, 0x60, 0x80, 0x00, 0x00, 0x50, 0x00, 0x02, 0x00, 0x40, 0x18, 0x80, 0x00,
    0x80, 0x00, 0x3F, 0x00, 0x1F, 0x80, 0x00, 0x00, 0x20, 0x18, 0x00, 0x00, 0x40, 0x18, 0x80, 0x00,
];

// Bytes that are shown in hex.
#[derive(Drop)]
struct Hex<'a>(&'a [u8]);

impl fmt::Display for Hex<'_> {
    fn fmt<W: fmt::Write>(&self, f: &mut fmt::Formatter<W>) -> fmt::Result {
        for byte in self.0 {
            write!(f, "{byte:02x}")?;
        }
        Ok(())
    }
}

fn print_events(rt: &impl Print, events: &[u8], answers: &[u8]) -> io::Result<()> {
    for (event, answer) in events.chunks(4).zip(answers.chunks(2)) {
        println!(rt; "{} {}", Hex(event), Hex(answer))?;
    }
    Ok(())
}

// The commit page, and behind the intentions the home pages of the records.
fn print_store(rt: &impl Print, store: &[u8]) -> io::Result<()> {
    let mut pages = store.chunks(32);
    if let Some(commit_page) = pages.next() {
        println!(rt; "page 0 {}", Hex(commit_page))?;
    }
    for (r, page) in pages.skip(16).enumerate() {
        println!(rt; "record {r} {}", Hex(page))?;
    }
    Ok(())
}

fn main(rt: HostRuntime) -> io::Result<()> {
    let events = EVENTS;
    let mut store = [0u8; 1056];
    let mut work = [0u8; nekahuiro::WORK];
    let mut answers = [0u8; 32];
    nekahuiro::nekahuiro_fresh(&mut store);
    nekahuiro::nekahuiro_run(&mut store, &events, &mut work, &mut answers);
    print_events(&rt, &events, &answers)?;
    print_store(&rt, &store)
}
