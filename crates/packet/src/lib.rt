// The fields of a packet: where the rule, the arguments' texts and the label's stand in it, and the step limit. The definition is in the crate `fields`,
// the laws that callers cite are in proofs/. A value is a part of the packet, `&packet[start..end]`, and is not copied. The tags 1 to 4
// are numbers, since they are bytes of the packet as the papers have it.
#![tactic(auto)]

ghost use Rattle.std.specs.Prelude.{◌≡◌, List, ℕ, ◌+◌, ◌≤◌, ◌<◌, length, take, drop};
ghost use Rattle.fields.specs.Packet.{high_first};
ghost use Rattle.fields.specs.Packet as reading;
ghost use Rattle.fields.specs.Packet.{after_limit, after_arguments, after_rule};
ghost use Rattle.packet.specs.Code.{part_at, end_in, fields_from, with_fields, form_of, counted};

// Where a field's value stands: packet[start..end]. A struct of its own, since a `Range` is no `Copy`.
#[derive(Clone, Copy)]
pub struct Part {
    pub start: usize,
    pub end: usize,
}

// What a whole packet has: so many arguments, this step limit, and at its end a label's field of so many bytes, or none.
#[derive(Clone, Copy)]
pub struct Form {
    pub arguments: usize,
    pub limit: usize,
    pub label_size: Option<usize>,
}

// Where the value of the field at a position stands.
pub fn part_at(packet: &[u8], at: usize) -> Part
    requires { at + 3 ≤ length packet.now }
    ensures { result ≡ part_at packet.now at }
{
    let size = u16::from_be_bytes([packet[at + 1], packet[at + 2]]) as usize;
    Part {
        start: at + 3,
        end: at + 3 + size,
    }
}

// Where the field at a position ends, if that is within the packet.
fn field_end(packet: &[u8], at: usize) -> Option<usize>
    requires { at ≤ length packet.now }
    ensures { result ≡ end_in packet.now at }
{
    if packet.len() - at < 3 {
        return None;
    }
    let part = part_at(packet, at);
    if packet.len() < part.end {
        return None;
    }
    Some(part.end)
}

// Four bytes as a number, high first.
fn four_bytes(packet: &[u8], at: usize) -> usize
    requires { at + 4 ≤ length packet.now }
    ensures { result ≡ high_first 0 (take 4 (drop at packet.now)) }
{
    let bytes = [packet[at], packet[at + 1], packet[at + 2], packet[at + 3]];
    u32::from_be_bytes(bytes) as usize
}

// The fields from a position on, after so many arguments and this limit: at most a label.
fn after_limit(packet: &[u8], at: usize, count: usize, limit: usize) -> Option<Form>
    requires { at ≤ length packet.now }
    ensures { (q : List ℕ) → result ≡ counted count (form_of (with_fields (after_limit q limit) (fields_from packet.now at))) }
{
    let mut form = Form {
        arguments: count,
        limit: limit,
        label_size: None,
    };
    if at < packet.len() {
        let end = field_end(packet, at)?;
        if packet[at] != 4 || end != packet.len() {
            return None;
        }
        form.label_size = Some(end - at);
    }
    Some(form)
}

// The fields from a position on, after so many arguments: at most one limit, then at most one label.
fn after_arguments(packet: &[u8], at: usize, count: usize) -> Option<Form>
    requires { at ≤ length packet.now }
    ensures { (q : List ℕ) → result ≡ counted count (form_of (with_fields (after_arguments q) (fields_from packet.now at))) }
{
    if at == packet.len() || packet[at] != 3 {
        return after_limit(packet, at, count, 100000);
    }
    let end = field_end(packet, at)?;
    if end != at + 3 + 4 {
        return None;
    }
    let limit = four_bytes(packet, at + 3);
    if 1000000 < limit {
        return None;
    }
    after_limit(packet, end, count, limit)
}

// The fields from a position on, after the rule: at most eight arguments, then at most one limit, then at most one label.
fn after_rule(packet: &[u8], from: usize) -> Option<Form>
    requires { from ≤ length packet.now }
    ensures { (q : List ℕ) → result ≡ form_of (with_fields (after_rule q 8) (fields_from packet.now from)) }
{
    let mut at = from;
    for count in 0..8 {
        if at == packet.len() || packet[at] != 2 {
            return after_arguments(packet, at, count);
        }
        at = field_end(packet, at)?;
    }
    after_arguments(packet, at, 8)
}

// Reads the form of a packet, if it is whole.
pub fn read_packet(packet: &[u8]) -> Option<Form>
    ensures { result ≡ form_of (reading.packet packet.now) }
{
    if 16384 < packet.len() {
        return None;
    }
    let end = field_end(packet, 0)?;
    if packet[0] != 1 {
        return None;
    }
    after_rule(packet, end)
}
