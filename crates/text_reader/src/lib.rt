// Rule text to a rule's bytes, over arrays for the words of a text, the names around a place and the symbols. The definition and the laws that callers
// cite are in the crate `grammar`; specs/ says what the functions ask. Assumes nothing.
#![tactic(auto)]

ghost use Rattle.std.specs.Prelude.{◌≡◌, [], take, leb};
ghost use Rattle.std.proofs.Math.Option.{some};
ghost use Rattle.calculus.specs.Term.{nesting};
ghost use Rattle.calculus.specs.Bytes.{bytes, rule};
ghost use Rattle.table.specs.Outcome.{whole_out};
ghost use Rattle.grammar.specs.Expression.{Expression};
ghost use Rattle.grammar.specs.Meaning.{term_of};
ghost use Rattle.grammar.specs.Postfix.{abstractions};
ghost use Rattle.grammar.specs.Text.{of_words};
ghost use Rattle.grammar.specs.Outcome.{of_bytes, of_reading, rule_text};
ghost use Rattle.text_reader.specs.Code.{Stands, StandsSome, WordRoom, TextRoom};

use parser::Place;
use table::Refusal;

// The symbols of a rule end with that of an abstraction.
const LAST: u16 = grammar::ABSTRACTION;

// How many bytes a rule has at most.
const MOST_BYTES: usize = 4096;

// How many abstractions nest in a rule at most.
const MOST_NESTED: usize = 16;

// How deep parentheses nest in a rule text at most.
const MOST_PARENTHESES: usize = 32;

// Whether no more than 16 abstractions nest in the term whose symbols are the first `end`, so many of them abstractions. Where there are no more at
// all, none need be followed.
fn is_shallow(post: &[u16], end: usize, count: usize) -> bool
    requires { StandsSome post.now end × (count ≡ abstractions (take end post.now)) }
    ensures { (e : Expression) → Stands e post.now end → result ≡ leb (nesting (term_of e)) 16 }
{
    if count <= MOST_NESTED {
        return true;
    }
    symbols::nesting(post, end).depth <= MOST_NESTED
}

// The bytes of the term whose symbols are the first `end`: 5, then 10, then the bytes.
fn give(post: &[u16], end: usize, out: &mut [u8]) -> Result<usize, Refusal>
    requires { StandsSome post.now end }
    ensures { (e : Expression) → Stands e post.now end
        → whole_out result [] [] out.new ≡ of_bytes (bytes (term_of e)) (rule (bytes (term_of e))) out.old }
{
    if post[end - 1] != LAST {
        return Err(Refusal::Rule);
    }
    let sizes = symbols::measure(post, end);
    let n = sizes.bytes;
    if MOST_BYTES < n {
        return Err(Refusal::Rule);
    }
    if !is_shallow(post, end, sizes.abstractions) {
        return Err(Refusal::Rule);
    }
    if out.len() < n {
        return Err(Refusal::Out);
    }
    encoder::encode(post, end, out, n);
    Ok(n)
}

// Reads words: 12 where they are no expression, or something follows one.
fn read_words(
    words: &[u64],
    names: &mut [u64],
    post: &mut [u16],
    out: &mut [u8],
) -> Result<usize, Refusal>
    requires { WordRoom words.now names.old post.old }
    ensures { whole_out result [] [] out.new ≡ of_reading (of_words (some words.now)) out.old }
{
    let start = Place {
        at: 0,
        k: names.len(),
        w: 0,
    };
    let phrase = parser::expression(words, names, post, start, MOST_PARENTHESES).ok_or(
        Refusal::RuleText,
    )?;
    if phrase.next < words.len() {
        return Err(Refusal::RuleText);
    }
    give(post, phrase.end, out)
}

// Reads a text for which the arrays have room.
pub fn read_text(
    text: &[u8],
    words: &mut [u64],
    names: &mut [u64],
    post: &mut [u16],
    out: &mut [u8],
) -> Result<usize, Refusal>
    requires { TextRoom text.now words.old names.old post.old }
    ensures { whole_out result [] [] out.new ≡ rule_text text.now out.old }
{
    let n = lexer::lex(text, words).ok_or(Refusal::RuleText)?;
    read_words(&words[..n], names, post, out)
}
