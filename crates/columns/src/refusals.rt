//! One example of each refusal.

use crate::packing::{PackError, pack, unpack};
use column::flat::Flat;
use column::short::Short;
use column::steps::Steps;
use document::refusals::Refusal;
use printing::Hex;
use std::io;

/// Ten bytes that each say that another follows, and an eleventh.
const ELEVEN: [u8; 11] = [
    0x80, 0x80, 0x80, 0x80, 0x80, 0x80, 0x80, 0x80, 0x80, 0x80, 0,
];

/// Prints how many bytes or values were taken, or why none was.
fn show_taken<T: Drop>(
    rt: &HostRuntime,
    title: &str,
    taken: Result<Vec<T>, PackError>,
    unit: &str,
) -> io::Result<()> {
    match taken {
        Ok(items) => {
            let count = items.len();
            println!(rt; "  {title}: taken, {count} {unit}")
        }
        Err(error) => println!(rt; "  {title}: {error}"),
    }
}

/// What a write refuses.
fn show_writes(rt: &HostRuntime) -> io::Result<()> {
    let alloc = rt.alloc();
    let room = Short::size(300).saturating_sub(1);
    let short = pack(alloc, &Short, 32, &[300], room);
    show_taken(
        rt,
        "short 32, 300, one byte of room too few",
        short,
        "bytes",
    )?;
    let unlisted = pack(alloc, &Flat, 12, &[300], 8);
    show_taken(rt, "flat 12, 300, no such width", unlisted, "bytes")?;
    let above = pack(alloc, &Flat, 8, &[256], 8);
    show_taken(rt, "flat 8, 256, above the width", above, "bytes")?;
    let steps = Steps { lower: Flat };
    let above = pack(alloc, &steps, 8, &[256], 8);
    show_taken(
        rt,
        "steps over flat 8, 256, above the width",
        above,
        "bytes",
    )?;
    let roomless = pack(alloc, &steps, 8, &[255], 0);
    show_taken(
        rt,
        "steps over flat 8, 255, no room at all",
        roomless,
        "bytes",
    )
}

/// What a read of one value refuses.
fn show_reads(rt: &HostRuntime) -> io::Result<()> {
    let alloc = rt.alloc();
    let cut = unpack(alloc, &Short, 32, 1, &[0xac]);
    show_taken(rt, "short 32, ac 02 without its last byte", cut, "values")?;
    let bit = unpack(alloc, &Flat, 1, 1, &[2]);
    show_taken(rt, "flat 1, 02, neither 0 nor 1", bit, "values")?;
    let eleven = unpack(alloc, &Short, 64, 1, &ELEVEN);
    show_taken(rt, "short 64, a form of eleven bytes", eleven, "values")?;
    let steps = Steps { lower: Flat };
    let bit = unpack(alloc, &steps, 1, 1, &[2]);
    show_taken(rt, "steps over flat 1, 02, neither 0 nor 1", bit, "values")?;
    let unlisted = unpack(alloc, &steps, 12, 1, &[2]);
    show_taken(rt, "steps over flat 12, no such width", unlisted, "values")
}

/// What the test of text refuses.
fn show_text(rt: &HostRuntime, text: &[u8]) -> io::Result<()> {
    let bytes = Hex(text);
    match utf8::well_formed(text) {
        Ok(()) => println!(rt; "  text {bytes}: taken"),
        Err(fault) => {
            let number = Refusal::Text.number();
            println!(rt; "  text {bytes}: {fault}; refusal {number}")
        }
    }
}

/// Prints one example of each refusal.
pub(crate) fn show_refusals(rt: &HostRuntime) -> io::Result<()> {
    println!(rt; "refusals")?;
    show_writes(rt)?;
    show_reads(rt)?;
    show_text(rt, &[0xc3])
}
