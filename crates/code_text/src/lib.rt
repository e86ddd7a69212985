// The text of a code ([12]): the digits of its value in base 3, counted and written, and the operation. The definitions and their theorems are in the crate
// `short_codes`. Assumes nothing.
#![tactic(auto)]

ghost use Rattle.std.specs.Prelude.{◌≡◌, [], ◌++◌, ◌+◌, ◌≤◌, length, drop};
ghost use Rattle.table.specs.Outcome.{whole_out};
ghost use Rattle.short_codes.specs.Values.{numeral};
ghost use Rattle.short_codes.specs.ShortCodes.{code_text};

use table::Refusal;

// How many codes there are.
const CODES: usize = 1374;

// How many digits a value has in base 3.
fn many_digits(value: usize) -> usize
    ensures { (result ≡ length (numeral value)) × (result ≤ value + 1) }
{
    if value < 3 {
        return 1;
    }
    many_digits(value / 3) + 1
}

// Writes the digits of a value over the whole of a slice, which has room for them and no more.
fn put_digits(value: usize, digits: &mut [u8])
    requires { length digits.old ≡ length (numeral value) }
    ensures { digits.new ≡ numeral value }
{
    let last = digits.len() - 1;
    if 3 <= value {
        put_digits(value / 3, &mut digits[..last]);
    }
    digits[last] = b'0' + (value % 3) as u8;
}

// Writes the text of a code: none from 1,374 on, whatever out is; then 10.
pub fn code_text(code: usize, out: &mut [u8]) -> Result<Option<usize>, Refusal>
    ensures { whole_out result [] [] out.new ≡ code_text code out.old }
{
    if CODES <= code {
        return Ok(None);
    }
    let value = code_values::value_at(code) as usize;
    let n = many_digits(value);
    if out.len() < n {
        return Err(Refusal::Out);
    }
    put_digits(value, &mut out[..n]);
    Ok(Some(n))
}
