// Rule text to a rule's bytes, with arrays of its own. The definition is in the crate `grammar`. Assumes nothing.
//
// The arrays are in six sizes, so that a text pays for arrays about as long as it needs. Each size is a call of its own, which is
// not inlined, so that a short text does not touch the room of long arrays.
#![tactic(auto)]

ghost use Rattle.std.specs.Prelude.{◌≡◌, [], ◌*◌, ◌≤◌, length};
ghost use Rattle.table.specs.Outcome.{whole_out};
ghost use Rattle.grammar.specs.Outcome.{rule_text};

use table::Refusal;

// How many bytes a rule text has at most.
const MOST_BYTES: usize = 8192;

// A text, in arrays of so many words, names and symbols.
#[inline(never)]
fn read_in<const WORDS: usize, const NAMES: usize, const SYMBOLS: usize>(
    text: &[u8],
    out: &mut [u8],
) -> Result<usize, Refusal>
    requires words { (length text.now ≤ WORDS) × (WORDS ≤ 8192) }
    requires names { (length text.now ≤ 3 * NAMES) × (NAMES ≤ 8192) }
    requires symbols { (2 * length text.now ≤ SYMBOLS) × (SYMBOLS ≤ 16384) }
    ensures { whole_out result [] [] out.new ≡ rule_text text.now out.old }
{
    let mut words = [0u64; WORDS];
    let mut names = [0u64; NAMES];
    let mut post = [0u16; SYMBOLS];
    text_reader::read_text(text, &mut words, &mut names, &mut post, out)
}

// Reads a rule text and writes the bytes of its term: 12, then 5, then 10.
#[tactic(auto, using(crate::proofs::Lengths::text_long))]
pub fn rule_text(text: &[u8], out: &mut [u8]) -> Result<usize, Refusal>
    ensures { whole_out result [] [] out.new ≡ rule_text text.now out.old }
{
    let n = text.len();
    if MOST_BYTES < n {
        return Err(Refusal::RuleText);
    }
    if n <= 32 {
        return read_in::<32, 11, 64>(text, out);
    }
    if n <= 128 {
        return read_in::<128, 43, 256>(text, out);
    }
    if n <= 512 {
        return read_in::<512, 171, 1024>(text, out);
    }
    if n <= 1024 {
        return read_in::<1024, 342, 2048>(text, out);
    }
    if n <= 2048 {
        return read_in::<2048, 683, 4096>(text, out);
    }
    read_in::<8192, 2731, 16384>(text, out)
}
