// A packet run and told: the checks 1, 6, 5 and 4 of a packet, and then the stages (the crate `stages`). The definition and its theorems are in the crate
// `running`; Run and `stopped` (the crates `run` and `stops`) give each its part of what is told.
//
// The stages share one index of the table's nodes, which is empty at first, as the table is. It is in five sizes, so that a table pays for an index about as
// long as it needs. Each size is a call of its own, so that a short table does not touch the room of a long index.
#![tactic(auto)]

ghost use Rattle.std.specs.Prelude.{◌≡◌, None, Err};
ghost use Rattle.table.specs.Outcome.{whole_out};
ghost use Rattle.index.specs.Index.{Serves};
ghost use Rattle.packet.specs.Code.{packet_at};
ghost use Rattle.running.specs.Tell.{tell_stages, tell};
ghost use Rattle.stages.specs.Asked.{Passed};

use packet::Form;
use running::Told;
use table::Refusal;

// The answer of a packet that a check refuses.
fn refused(refusal: Refusal) -> Told
    ensures { result ≡ record { ran = Err refusal; stop = None } }
{
    Told {
        ran: Err(refusal),
        stop: None,
    }
}

// The stages on a packet of this form that passed the checks, with an index of N entries that serves the table.
#[inline(never)]
fn tell_in<const N: usize>(
    table: &mut [u32],
    stack: &mut [u32],
    out: &mut [u8],
    packet: &[u8],
    form: Form,
) -> Told
    requires { Serves N table.old × Passed table.old stack.old out.old packet.now form.arguments form.limit }
    ensures { whole_out result table.new stack.new out.new
        ≡ tell_stages table.old stack.old out.old
        (packet_at packet.now form.arguments form.limit None) }
{
    let mut index = [0u16; N];
    stages::run_stages(table, stack, out, packet, form, &mut index, N / 3 * 2)
}

// The same, with an index for the table's length.
fn tell_checked(
    table: &mut [u32],
    stack: &mut [u32],
    out: &mut [u8],
    packet: &[u8],
    form: Form,
) -> Told
    requires { Passed table.old stack.old out.old packet.now form.arguments form.limit }
    ensures { whole_out result table.new stack.new out.new
        ≡ tell_stages table.old stack.old out.old
        (packet_at packet.now form.arguments form.limit None) }
{
    match table.len() {
        0..=128 => tell_in::<192>(table, stack, out, packet, form),
        ..=512 => tell_in::<768>(table, stack, out, packet, form),
        ..=2048 => tell_in::<3072>(table, stack, out, packet, form),
        ..=16384 => tell_in::<24576>(table, stack, out, packet, form),
        _ => tell_in::<196608>(table, stack, out, packet, form),
    }
}

// Runs a packet with the table taken as empty, and tells where applying stopped.
pub fn tell(table: &mut [u32], stack: &mut [u32], out: &mut [u8], packet: &[u8]) -> Told
    ensures { whole_out result table.new stack.new out.new
        ≡ tell table.old stack.old out.old packet.now }
{
    if !packet_checks::lengths_fit(table, stack, out) {
        return refused(Refusal::Limits);
    }
    let Some(form) = packet::read_packet(packet) else {
        return refused(Refusal::Packet);
    };
    if let Err(refusal) = packet_checks::check_parts(packet, form) {
        return refused(refusal);
    }
    tell_checked(table, stack, out, packet, form)
}
