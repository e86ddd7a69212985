// Run: a packet run and told (the crate `teller`), without where it stopped. The definition and its theorems are in the crate `running`.
#![tactic(auto)]

ghost use Rattle.std.specs.Prelude.{◌≡◌};
ghost use Rattle.table.specs.Outcome.{whole_out};
ghost use Rattle.running.specs.Run.{run};

use running::Ran;
use table::Refusal;

// Runs a packet with the table taken as empty.
pub fn run(
    table: &mut [u32],
    stack: &mut [u32],
    out: &mut [u8],
    packet: &[u8],
) -> Result<Ran, Refusal>
    ensures { whole_out result table.new stack.new out.new
        ≡ run table.old stack.old out.old packet.now }
{
    teller::tell(table, stack, out, packet).ran
}
