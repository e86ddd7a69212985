// The program: a packet on standard input, one line on standard output. For a stop while applying: Run's number, the argument's place, the steps of the
// whole run and the name of the rule wanted, parted by blanks. For every other outcome: Run's number alone.
#![tactic(auto)]

use std::io::{self, Write};
use stopping::Stopped;

// Writes the line of a run, by where it stopped.
fn print<W: Write>(output: &mut W, stopped: Stopped) -> io::Result<()> {
    match stopped {
        Stopped::Applying {
            refusal,
            place,
            steps,
            rule,
        } => {
            let number = refusals::number(refusal);
            writeln!(output, "{number} {place} {steps} {rule}")
        }
        Stopped::Refused(refusal) => {
            let number = refusals::number(refusal);
            writeln!(output, "{number}")
        }
        Stopped::Completed => writeln!(output, "0"),
    }
}

// Runs a packet, with the memory that the program `lazvorn` lends. The line needs no out bytes, so the call is plainer than `lines::answer`. In a
// function of its own, since `main` would set the memory to 0 twice.
fn answer<W: Write>(output: &mut W, packet: &[u8]) -> io::Result<()> {
    let mut table = [0u32; lines::TABLE_WORDS];
    let mut stack = [0u32; lines::STACK_WORDS];
    let mut out = [0u8; lines::OUT_BYTES];
    print(
        output,
        stops::stopped(&mut table, &mut stack, &mut out, packet),
    )
}

// Runs the packet that is read.
fn main(rt: HostRuntime) -> io::Result<()> {
    let mut packet = [0u8; lines::PACKET_BYTES];
    let n = streams::read_full(&mut rt.reader(), &mut packet)?;
    answer(&mut io::writer(&rt), &packet[..n])
}
