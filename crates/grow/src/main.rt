// Reads a program's text from standard input, and prints its words or why it is refused.
#![tactic(auto)]

use hub::{MOST_BYTES, session};
use std::io;
use std::io::Read;

fn main(rt: HostRuntime) -> io::Result<()> {
    let heap = rt.alloc();
    let mut input = Vec::new(heap);
    // One byte more than a session takes tells that there are too many.
    rt.stdin()
        .take(MOST_BYTES as u64 + 1)
        .read_to_end(&mut input)?;
    rt.print(session(heap, &input)?)
}
