// Reads an exchange file and prints what it says, or where it was refused.
#![tactic(auto)]

use report::report;
use std::io;
use std::io::{Read, Write};

mod report;

fn main(rt: HostRuntime) -> io::Result<()> {
    let mut file = Vec::new(rt.alloc());
    // One byte more than a file may have, so that a longer one is refused.
    rt.stdin().take(8193).read_to_end(&mut file)?;
    let text = report(rt.alloc(), &file)?;
    rt.stdout().write_all(&text)
}
