// Checks a sheet of N-Triples on standard input: how many lines of each kind it has, and each line that cannot be
// read. Everything that is printed is computed by the library `linter`; here it is read and printed.

#![tactic(auto)]

use linter::survey::survey;
use std::io::Read;

fn main(rt: HostRuntime) -> anyhow::Result<()> {
    let heap = rt.alloc();
    let mut text = Vec::new(heap);
    let _ = rt.stdin().read_to_end(&mut text)?;
    let found = survey(heap, text.as_slice())?;
    println!(rt; "{found}")?;
    for finding in found.findings.iter() {
        println!(rt; "{finding}")?;
    }
    Ok(())
}
