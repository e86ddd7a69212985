// The program: a packet on standard input, one line on standard output: refusal or 0, steps, used and text, parted by blanks, with a dash for the
// text of what was refused.
#![tactic(auto)]

use std::io;

// Runs the packet that is read. A program is a crate of its own, so that these lines stand in each.
fn main(rt: HostRuntime) -> io::Result<()> {
    let mut packet = [0u8; lines::PACKET_BYTES];
    let n = streams::read_full(&mut rt.reader(), &mut packet)?;
    lines::answer(&mut io::writer(&rt), &packet[..n], run::run)
}
