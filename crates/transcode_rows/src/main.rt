//! Runs the rows of a table in its input, each as `bin/transcode` would, over files and streams in memory.
//!
//! Read first: docs/internals/TESTING.md and the head of `stdin`, which has the rows and their form.
#![tactic(auto)]

mod error;
mod lines;
mod row;
mod running;
mod table;

use running::passes;
use std::io;
use table::read_table;

fn main(rt: HostRuntime) -> anyhow::Result<()> {
    let text = io::read_to_string(rt.alloc(), rt.stdin())?;
    let rows = read_table(rt.alloc(), text.as_str())?;
    let count = rows.len();
    let mut passed = 0usize;
    for row in rows {
        if passes(&rt, row)? {
            passed = passed.saturating_add(1);
        }
    }
    let failed = count.saturating_sub(passed);
    println!(rt; "{passed} rows passed, {failed} failed")?;
    Ok(())
}
