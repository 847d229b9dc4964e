// Prints the table of the FCS from the bit rule, one decimal entry a line. The table in crates/fcs is not looked at.
#![tactic(auto)]

use std::io;

fn main(rt: HostRuntime) -> io::Result<()> {
    for byte in 0..=u8::MAX {
        println!(rt; "{}", fcs::entry_by_bits(byte))?;
    }
    Ok(())
}
