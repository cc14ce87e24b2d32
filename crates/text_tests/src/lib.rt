//! Tests of `scripts` that are written back and compared, and of `histories` that are read back and judged, by calls
//! that no run of the program makes.
#![tactic(auto)]

#[cfg(test)]
mod histories;
#[cfg(test)]
mod scripts;
