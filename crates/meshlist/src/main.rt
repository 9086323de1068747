// Reads a bundle from standard input and prints its listing. One byte more than a bundle may have is read, to see that there is one.
#![tactic(auto)]

ghost use Rattle.std.specs.Prelude.{◌≤◌, length};

use std::io;
use std::io::{Read, Write};

// Reads until the area is full or the input ends, and answers how many bytes it has put at the area's front. A failed read is the end of the input.
fn read_full<R: Read>(input: &mut R, area: &mut [u8]) -> usize
    ensures { result ≤ length area.new }
{
    let mut done = 0;
    // Stays: a while, since each read answers how far it came.
    while done < area.len() {
        match input.read(&mut area[done..]) {
            Ok(0) => break,
            Ok(n) => done += n,
            Err(_) => break,
        }
    }
    done
}

fn main(rt: HostRuntime) -> io::Result<()> {
    let mut input = [0u8; listing::MOST_BYTES + 1];
    let mut output = [0u8; listing::ROOM];
    let n = read_full(&mut rt.stdin(), &mut input);
    let m = listing::list(&input[..n], &mut output);
    rt.stdout().write_all(&output[..m])
}
