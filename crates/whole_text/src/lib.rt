// The test for a whole text: its digits first to last, with the number of trees still wanted. The definitions and the laws of that number are in the
// crate `ternary`; specs/ says what the code's own values mean in their terms. Assumes nothing.
#![tactic(auto)]

ghost use Rattle.std.specs.Prelude.{◌≡◌, ◌≤◌, ◌<◌, length};
ghost use Rattle.std.proofs.Math.Option.{some};
ghost use Rattle.ternary.specs.Wanted.{wanted_after};
ghost use Rattle.whole_text.specs.Code.{wanted_of, ScanSays};

// What the digit c makes of n trees wanted: its node is one of them, and wants its own branches. None where no text with this beginning is whole.
fn wanted_after(c: u8, n: usize) -> Option<usize>
    requires { n < 4294967296 }
    ensures { wanted_of result ≡ wanted_after c (some n) }
{
    let branches = match c {
        b'0' => 0, // a leaf takes one away
        b'1' => 1, // a stem leaves the number
        b'2' => 2, // a fork adds one
        _ => return None,
    };
    Some(n.checked_sub(1)? + branches)
}

// Takes the digits first to last and counts the trees still wanted; the most trees pending, where the text is one whole tree. Of a whole text those
// wanted before a digit are those pending from there on, so that the most of them is Read's.
pub fn scan(text: &[u8]) -> Option<usize>
    requires { length text.now ≤ 65535 }
    ensures { ScanSays text.now result }
{
    let mut wanted = 1;
    let mut most = 0;
    for &c in text {
        most = most.max(wanted);
        let Some(next) = wanted_after(c, wanted) else {
            return None;
        };
        wanted = next;
    }
    if wanted == 0 { Some(most) } else { None }
}
