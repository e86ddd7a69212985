// Words to postfix symbols: the expression parser and the operand parser, which call each other. The grammar and its reader are in the crate
// `grammar`; specs/ says what the functions ask and give in its terms. Assumes nothing.
//
// The names around a place are `names[k..]`, nearest first: the array is filled from its end. Words, names and symbols stand in lent arrays: no heap is
// used.
#![tactic(auto)]

ghost use Rattle.std.specs.Prelude.{◌≡◌, List, ℕ, ◌≤◌, ◌<◌, length, get_or, drop};
ghost use Rattle.grammar.specs.Reader.{nothing, empty, lookup, parse, operand};
ghost use Rattle.grammar.specs.Words.{tokens};
ghost use Rattle.parser.specs.Code.{place_of, IsName, IsBinder, RowAsks, Row, Asks, Tells, close_group};

use grammar::{
    ABSTRACTION, AMPERSAND, ARROW, BACKSLASH, BANG, BAR, CARET, CLOSING, LEAF, OPENING, STOP,
    VARIABLE,
};
use operators::Step;

// What a phrase gives: the places after its words and after its symbols.
#[derive(Clone, Copy)]
pub struct Phrase {
    pub next: usize,
    pub end: usize,
}

// A place: in the words, among the names around it, and in the symbols. The arrays stay slices: a struct that
// lends them must also promise that each stays the same array and as long.
#[derive(Clone, Copy)]
pub struct Place {
    pub at: usize,
    pub k: usize,
    pub w: usize,
}

// Looks for a name among those around, nearest first: how many abstractions lie between the name and its own.
fn find(names: &[u64], x: u64) -> Option<usize>
    ensures { result ≡ place_of (lookup names.now x) }
{
    names.iter().position(|&y| x == y)
}

// Whether a word is a name. The signs are listed as in `lexer`, which has them as bytes and which this crate does not use.
fn is_name(t: u64) -> bool
    ensures { IsName t result }
{
    !matches!(
        t,
        BANG | AMPERSAND | OPENING | CLOSING | STOP | ARROW | BACKSLASH | CARET | BAR
    )
}

// A leaf or a name.
fn atom(words: &[u64], names: &[u64], post: &mut [u16], place: Place) -> Option<Phrase>
    requires { Asks words.now place.at names.now place.k post.old place.w × (place.at < length words.now) × (get_or words.now place.at 0 ≡ OPENING → ⊥) × (get_or words.now place.at 0 ≡ BACKSLASH → ⊥) }
    ensures { (d : ℕ) → Tells (operand d (drop place.k names.now) (tokens (drop place.at words.now))) words.now place.w post.old post.new result }
{
    let t = words[place.at];
    let phrase = Phrase {
        next: place.at + 1,
        end: place.w + 1,
    };
    if t == CARET {
        post[place.w] = LEAF;
        return Some(phrase);
    }
    if !is_name(t) {
        return None;
    }
    let i = find(&names[place.k..], t)?;
    post[place.w] = i as u16 + VARIABLE;
    Some(phrase)
}

// Whether an abstraction opens at a place: a backslash, a name and a full stop.
fn is_binder(words: &[u64], at: usize) -> bool
    requires { at ≤ length words.now }
    ensures { IsBinder words.now at result }
{
    let [BACKSLASH, t, STOP, ..] = &words[at..] else {
        return false;
    };
    is_name(*t)
}

// How many abstractions a row of them opens from the backslash at `at` on: a count, 0 where the backslash opens none. Their names go before those around.
#[tactic(auto, using(crate::proofs::Groups::rows))]
fn open_abstractions(words: &[u64], at: usize, names: &mut [u64], k: usize) -> usize
    requires { RowAsks words.now at names.old k }
    ensures { Row words.now at names.old k result names.new
        × (result ≡ 0 → (d : ℕ) (Γ : List ℕ) → operand d Γ (tokens (drop at words.now)) ≡ nothing) }
{
    for n in 0..k {
        if !is_binder(words, at + 3 * n) {
            return n;
        }
        names[k - n - 1] = words[at + 3 * n + 1];
    }
    k
}

// The operand in parentheses, of which `inner` is the inside: the closing one follows it.
#[tactic(auto, unfolding(crate::specs::Code::close_group))]
fn close_group(words: &[u64], inner: Phrase) -> Option<Phrase>
    ensures { result ≡ close_group words.now inner }
{
    if words.len() <= inner.next {
        return None;
    }
    if words[inner.next] != CLOSING {
        return None;
    }
    Some(Phrase {
        next: inner.next + 1,
        ..inner
    })
}

// An operand. Parentheses may nest `depth` deep in it.
#[cycle(expression_operand)]
fn operand(
    words: &[u64],
    names: &mut [u64],
    post: &mut [u16],
    place: Place,
    depth: usize,
) -> Option<Phrase>
    requires { Asks words.now place.at names.old place.k post.old place.w }
    ensures { Tells (operand depth (drop place.k names.old) (tokens (drop place.at words.now))) words.now place.w post.old post.new result
        × (drop place.k names.new ≡ drop place.k names.old) }
{
    if words.len() <= place.at {
        return None;
    }
    let t = words[place.at];
    if t == OPENING {
        if depth == 0 {
            return None;
        }
        let inside = Place {
            at: place.at + 1,
            ..place
        };
        let inner = expression(words, names, post, inside, depth - 1)?;
        return close_group(words, inner);
    }
    if t == BACKSLASH {
        let n = open_abstractions(words, place.at, names, place.k);
        if n == 0 {
            return None;
        }
        let inside = Place {
            at: place.at + 3 * n,
            k: place.k - n,
            ..place
        };
        let body = expression(words, names, post, inside, depth)?;
        let end = operators::put(post, body.end, n, ABSTRACTION);
        return Some(Phrase { end, ..body });
    }
    atom(words, names, post, place)
}

// An expression, up to the end of the words or a closing parenthesis.
#[cycle(expression_operand)]
pub fn expression(
    words: &[u64],
    names: &mut [u64],
    post: &mut [u16],
    place: Place,
    depth: usize,
) -> Option<Phrase>
    requires { Asks words.now place.at names.old place.k post.old place.w }
    ensures { Tells (parse depth (drop place.k names.old) empty (tokens (drop place.at words.now))) words.now place.w post.old post.new result
        × (drop place.k names.new ≡ drop place.k names.old) }
{
    let mut waiting = operators::begin(words, place.at, place.w, 0, 0, 0);
    loop {
        let from = Place {
            at: waiting.at,
            w: waiting.end,
            ..place
        };
        let Phrase { next, end } = operand(words, names, post, from, depth)?;
        match operators::after(words, next, post, end, waiting)? {
            Step::More(more) => waiting = more,
            Step::Done(done) => return Some(Phrase { next, end: done }),
        }
    }
}
