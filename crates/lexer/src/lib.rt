// Rule text to words, one for each token. The spelling and the laws that callers cite are in the crate `grammar`; specs/ says what the functions ask
// and give in its terms. Assumes nothing.
#![tactic(auto)]

ghost use Rattle.std.specs.Prelude.{◌≡◌, ◌+◌, ◌≤◌, ◌<◌, length};
ghost use Rattle.grammar.specs.Words.{is_sign, lex};
ghost use Rattle.lexer.specs.Code.{Flushed, Lexes};

// How many letters a name has at most.
const MOST_LETTERS: usize = 8;

// Whether a byte is a sign: a token by itself. The tests one by one, which the compiler joins with that for a space; by `matches!` a text of spaces
// takes 1.3 times as long.
#[tactic(auto, unfolding(grammar::specs::Words::is_sign))]
fn is_sign(b: u8) -> bool
    ensures { result ≡ is_sign b }
{
    b == b'!'
        || b == b'&'
        || b == b'('
        || b == b')'
        || b == b'.'
        || b == b'>'
        || b == b'\\'
        || b == b'^'
        || b == b'|'
}

// Ends a name of k letters: its word, where there is one.
#[tactic(auto, using(crate::proofs::Lexing::flushed_none, crate::proofs::Lexing::flushed_name))]
fn flush(words: &mut [u64], n: usize, k: usize, w: u64) -> usize
    requires { n + k ≤ length words.old }
    ensures { Flushed words.old n k w result words.new }
{
    if k == 0 {
        return n;
    }
    words[n] = w;
    n + 1
}

// The words of a text, where it spells tokens.
#[tactic(auto, using(crate::proofs::Lexing::steps))]
pub fn lex(text: &[u8], words: &mut [u64]) -> Option<usize>
    requires { length text.now ≤ length words.old }
    ensures { Lexes (lex 0 0 text.now) (length text.now) words.new result }
{
    let mut n = 0;
    let mut k = 0;
    let mut w = 0;
    for &b in text {
        if b.is_ascii_lowercase() {
            if k == MOST_LETTERS {
                return None;
            }
            w = w * 256 + u64::from(b);
            k += 1;
            continue;
        }
        n = flush(words, n, k, w);
        k = 0;
        w = 0;
        if b == b' ' {
            continue;
        }
        if !is_sign(b) {
            return None;
        }
        words[n] = u64::from(b);
        n += 1;
    }
    Some(flush(words, n, k, w))
}
