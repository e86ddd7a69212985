// A week of windows, the packet at a minute of it and the minutes until the next window begins, as definitions, in specs/, and their theorems, in proofs/.
// The code is in the crates `week_check`, `windows` and `week_numbers`. Of the engine only the refusals are used.
#![tactic(auto)]

// A place of a day: a window, from its first minute up to its end, with the number of a packet; or three zeros, where the place is unused.
#[derive(Clone, Copy)]
pub struct Window {
    pub first: u32,
    pub end: u32,
    pub packet: u32,
}
