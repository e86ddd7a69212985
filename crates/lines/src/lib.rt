// The memory that the programs lend, and the line that a program prints for a packet: refusal or 0, steps, used and text, parted by blanks, with a dash for the text of what was refused.
#![tactic(auto)]

ghost use Rattle.std.specs.Prelude.{◌≡◌, ◌≤◌, length, OnOk, IfOk};
ghost use Rattle.std.specs.Io.KnownBytes.{Appends};
ghost use Rattle.lines.specs.Line.{line, line_of, TextsWithin, Answered};

use running::Ran;
use std::io::{self, Write};
use table::Refusal;

// The words of a table of 8,192 nodes.
pub const TABLE_WORDS: usize = 16384;

// The words of a stack of 4,096 frames.
pub const STACK_WORDS: usize = 12288;

// The out bytes.
pub const OUT_BYTES: usize = 16384;

// How many bytes of a packet are read: one of more than 16,384 bytes is refused, so one byte more is enough.
pub const PACKET_BYTES: usize = 16385;

// Writes a line.
fn put<W: Write>(
    output: &mut W,
    refusal: usize,
    steps: usize,
    used: usize,
    text: &[u8],
) -> io::Result<()>
    ensures { OnOk result (Appends (W.contents output.old) (W.contents output.new) (line refusal steps used text.now)) }
{
    write!(output, "{refusal} {steps} {used} ")?;
    output.write_all(text)?;
    output.write_all(b"\n")
}

// Writes the line of an answer, of which the text begins the out bytes.
pub fn print<W: Write>(output: &mut W, answer: Result<Ran, Refusal>, out: &[u8]) -> io::Result<()>
    requires { IfOk answer (λ ran. ran.digits ≤ length out.now) }
    ensures { OnOk result (Appends (W.contents output.old) (W.contents output.new) (line_of answer out.now)) }
{
    match answer {
        Ok(ran) => put(output, 0, ran.steps, ran.used, &out[..ran.digits]),
        Err(refusal) => put(output, refusals::number(refusal), 0, 0, b"-"),
    }
}

// Lends an operation on a packet empty memory, and writes the line of its answer.
pub fn answer<
    W: Write,
    F: FnOnce(&mut [u32], &mut [u32], &mut [u8], &[u8]) -> Result<Ran, Refusal>,
>(output: &mut W, packet: &[u8], operation: F) -> io::Result<()>
    requires callable { F.IsAlwaysCallable operation }
    requires within { TextsWithin (F.post operation) }
    ensures { OnOk result (Answered (F.post operation) packet.now (W.contents output.old) (W.contents output.new)) }
{
    let mut table = [0u32; TABLE_WORDS];
    let mut stack = [0u32; STACK_WORDS];
    let mut out = [0u8; OUT_BYTES];
    let answer = operation(&mut table, &mut stack, &mut out, packet);
    print(output, answer, &out)
}
