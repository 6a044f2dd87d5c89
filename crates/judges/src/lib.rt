// Checks 1 to 6 and 8 of document 01. A check gives the fault that it finds; `check_list` gives its place too.
// What is a fault is defined in circuit/specs (Faults, TableFaults). No entry for users: those that judge call these.
#![tactic(auto)]

pub mod faults;
pub mod table_faults;
