//! Runs each operation on a machine of literals that are all constants, and compares it line by line
//! with the machine of numbers; worked rows beside them. Then it counts the gates that each operation
//! adds to a circuit.
#![tactic(auto)]

mod cases;
mod comparisons;
mod draws;
mod failures;
mod gates;
mod literals;
mod operations;
mod rows;
mod runs;

use std::io;

fn main(rt: HostRuntime) -> io::Result<()> {
    let alloc = rt.alloc();
    rows::print(&rt, alloc)?;
    operations::print(&rt, alloc)?;
    gates::print(&rt, alloc)
}
