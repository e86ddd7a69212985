// The program: a rule text on standard input, less one final newline; one line on standard output: refusal or 0, and the bytes of the term in
// hexadecimal, or a dash.
#![tactic(auto)]

ghost use Rattle.std.specs.Prelude.{◌≡◌, ◌*◌, ◌≤◌, ◌<◌, ◌++◌, length, drop};
ghost use Rattle.rule_text.specs.Line.{digit, digits};

use std::io::{self, Write};

// A hexadecimal digit.
#[tactic(auto, unfolding(crate::specs::Line::digit))]
fn digit(n: u8) -> u8
    requires { n < 16 }
    ensures { result ≡ digit n }
{
    if n < 10 {
        return b'0' + n;
    }
    b'a' - 10 + n
}

// Spells bytes in hexadecimal, as `digits` of specs/Line.antt has it; how many digits they have. The line is an array: no heap is used.
fn spell(bytes: &[u8], line: &mut [u8]) -> usize
    requires { (length bytes.now ≤ 4096) × (2 * length bytes.now ≤ length line.old) }
    ensures { (result ≡ 2 * length bytes.now) × (line.new ≡ digits bytes.now ++ drop result line.old) }
{
    for i in 0..bytes.len() {
        line[2 * i] = digit(bytes[i] / 16);
        line[2 * i + 1] = digit(bytes[i] % 16);
    }
    2 * bytes.len()
}

// Writes a line.
fn print<W: Write>(output: &mut W, refusal: usize, text: &[u8]) -> io::Result<()> {
    write!(output, "{refusal} ")?;
    output.write_all(text)?;
    output.write_all(b"\n")
}

// Reads a text, with room for any rule.
#[tactic(auto, using(crate::proofs::Spelling::bytes_within))]
fn answer<W: Write>(output: &mut W, text: &[u8]) -> io::Result<()> {
    let mut out = [0u8; 4096];
    let mut line = [0u8; 8192];
    match rule_reader::rule_text(text, &mut out) {
        Ok(n) => {
            let m = spell(&out[..n], &mut line);
            print(output, 0, &line[..m])
        }
        Err(refusal) => print(output, refusals::number(refusal), b"-"),
    }
}

// A text of more than 8,192 bytes is refused, so these, a newline and one byte more are enough to read.
fn main(rt: HostRuntime) -> io::Result<()> {
    let mut input = [0u8; 8194];
    let n = streams::read_full(&mut rt.reader(), &mut input)?;
    let text = &input[..n];
    answer(
        &mut io::writer(&rt),
        text.strip_suffix(b"\n").unwrap_or(text),
    )
}
