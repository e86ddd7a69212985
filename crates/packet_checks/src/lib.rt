// The checks that the readers of a packet share: lengths, for 1; and of a whole packet its rule, for 5, and its texts, for 4. The definitions and
// their theorems are in the crate `running`, the laws that callers cite in proofs/.
#![tactic(auto)]

ghost use Rattle.std.specs.Prelude.{◌≡◌, ◌++◌, ◌≤◌, length};
ghost use Rattle.checks.specs.Code.{refusal_of};
ghost use Rattle.packet.specs.Code.{end_at, value_at, Stand, values_at, label_at, LabelStands};
ghost use Rattle.running.specs.Run.{all_readable, label_texts, parts_lack, lengths_fit};

use packet::{Form, Part};
use table::Refusal;

// Whether table, stack and out bytes are within the lengths of refusal 1.
#[tactic(auto, unfolding(running::specs::Run::lengths_fit))]
pub fn lengths_fit(table: &[u32], stack: &[u32], out: &[u8]) -> bool
    ensures { result ≡ lengths_fit table.now stack.now out.now }
{
    table.len() <= 131072 && stack.len() <= 65536 && out.len() <= 65535
}

// Whether each of so many texts, from a position of the packet on, is one that Read takes.
fn all_texts(packet: &[u8], from: usize, count: usize) -> bool
    requires { Stand packet.now from count }
    ensures { result ≡ all_readable (values_at packet.now from count) }
{
    let mut at = from;
    for _ in 0..count {
        let Part { start, end } = packet::part_at(packet, at);
        if !reader::is_text(&packet[start..end]) {
            return false;
        }
        at = end;
    }
    true
}

// Whether the label's text, in the packet's last bytes, is one that Read takes; where there is no label, nothing is left to check.
fn label_text(packet: &[u8], size: Option<usize>) -> bool
    requires { LabelStands packet.now size }
    ensures { result ≡ all_readable (label_texts (label_at packet.now size)) }
{
    let Some(size) = size else {
        return true;
    };
    let Part { start, end } = packet::part_at(packet, packet.len() - size);
    reader::is_text(&packet[start..end])
}

// Checks a packet of this form: its rule, its arguments' texts, its label's text.
pub fn check_parts(packet: &[u8], form: Form) -> Result<(), Refusal>
    requires { (end_at packet.now 0 ≤ length packet.now) × Stand packet.now (end_at packet.now 0) form.arguments × LabelStands packet.now form.label_size }
    ensures { refusal_of result
        ≡ parts_lack (value_at packet.now 0) (values_at packet.now (end_at packet.now 0) form.arguments ++ label_texts (label_at packet.now form.label_size)) }
{
    let Part { start, end } = packet::part_at(packet, 0);
    if rule_size::rule_size(&packet[start..end]).is_none() {
        return Err(Refusal::Rule);
    }
    if !all_texts(packet, end, form.arguments) {
        return Err(Refusal::Text);
    }
    if !label_text(packet, form.label_size) {
        return Err(Refusal::Text);
    }
    Ok(())
}
