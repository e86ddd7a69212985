// Rule text with operators ([3] of document 02) as definitions, in specs/, and its theorems, in proofs/. The code is in the crates `lexer`,
// `operators`, `parser`, `symbols`, `encoder`, `text_reader` and `rule_reader`; the numbers of symbols and signs, which these share, are here.
#![tactic(auto)]

// The postfix symbols, as `postfix` has them. A variable's is so much more than its number.
pub const APPLICATION: u16 = 0;

pub const AND: u16 = 1;

pub const OR: u16 = 2;

pub const IMPLIES: u16 = 3;

pub const ABSTRACTION: u16 = 4;

pub const NOT: u16 = 5;

pub const LEAF: u16 = 6;

pub const VARIABLE: u16 = 7;

// The words of signs: their bytes.
pub const CARET: u64 = b'^' as u64;

pub const OPENING: u64 = b'(' as u64;

pub const BACKSLASH: u64 = b'\\' as u64;

pub const CLOSING: u64 = b')' as u64;

pub const STOP: u64 = b'.' as u64;

pub const BANG: u64 = b'!' as u64;

pub const AMPERSAND: u64 = b'&' as u64;

pub const BAR: u64 = b'|' as u64;

pub const ARROW: u64 = b'>' as u64;
