// Runs the packet of document 01, its examples that are not starred, and those of request [2] of document 02, with the room that the program
// lends, and prints for each the line that the program prints. The lines that it must print stand in `stdout`, beside src/, and are the papers'.
// The starred lines are proved in specs/ and proofs/.
#![tactic(auto)]

use std::io;

const PACKETS: [&[u8]; 7] = [
    // "its packet's line is 0 10 6 10" ([8])
    b"\x01\x00\x06\x02\x01\x03\x00\x03\x00\x02\x00\x010",
    // "Rule 02 03 00 without arguments": 21010 is three trees, 0, 10 and itself.
    b"\x01\x00\x03\x02\x03\x00",
    // The rule 212101021010 on itself: "[2]'s endless line gives 7 again" ([8]), without tag 3 and with 10,000 there. It is the tree of the rule
    // 02 01 03 00 03 00.
    b"\x01\x00\x06\x02\x01\x03\x00\x03\x00\x02\x00\x0c212101021010",
    b"\x01\x00\x06\x02\x01\x03\x00\x03\x00\x02\x00\x0c212101021010\x03\x00\x04\x00\x00\x27\x10",
    // "02 03 01 is 5"
    b"\x01\x00\x03\x02\x03\x01",
    // "a seventeenth nested abstraction is 5"
    b"\x01\x00\x12\x02\x02\x02\x02\x02\x02\x02\x02\x02\x02\x02\x02\x02\x02\x02\x02\x02\x00",
    // "nine arguments are 6"
    b"\x01\x00\x03\x02\x03\x00\x02\x00\x010\x02\x00\x010\x02\x00\x010\x02\x00\x010\x02\x00\x010\x02\x00\x010\x02\x00\x010\x02\x00\x010\x02\x00\x010",
];

fn main(rt: HostRuntime) -> io::Result<()> {
    let mut output = io::writer(&rt);
    for packet in PACKETS {
        lines::answer(&mut output, packet, run::run)?;
    }
    Ok(())
}
