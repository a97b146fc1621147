//! Packs the columns of a card table under each kind, unpacks them, and shows what is refused.
#![tactic(auto)]

ghost use Rattle.std.specs.Prelude.{◌≡◌, true};
ghost use Rattle.columns.specs.Examples.{examples};

use document::laws::{allocation, conservation, faithfulness, grammar, replay, worked_examples};
use refusals::show_refusals;
use report::show_table;
use std::io;
use std::io::Read;

mod packing;
mod refusals;
mod report;
mod table;
mod trial;

/// The worked examples of the definitions come out as they should.
fn examples_hold() -> bool
    ensures value { result ≡ examples }
    ensures holds { examples ≡ true }
{
    true
}

/// Names the laws of documents that stand, each by the call whose contract it is.
fn show_laws(rt: &HostRuntime) -> io::Result<()> {
    println!(rt; "laws of documents that are proved")?;
    for law in [
        grammar(),
        conservation(),
        allocation(),
        replay(),
        faithfulness(),
        worked_examples(),
    ] {
        println!(rt; "  {law:?}")?;
    }
    Ok(())
}

fn main(rt: HostRuntime) -> io::Result<()> {
    let mut text = Vec::new(rt.alloc());
    let mut stdin = rt.stdin();
    stdin.read_to_end(&mut text)?;
    show_table(&rt, &text)?;
    show_refusals(&rt)?;
    let hold = examples_hold();
    println!(rt; "the worked examples hold: {hold}")?;
    show_laws(&rt)
}
