//! Tests of the whole program over `ends` and `gates` in memory, which use `words`, and of threads that really run side
//! by side (`letters`).
#![tactic(auto)]

#[cfg(test)]
mod ends;
#[cfg(test)]
mod gates;
#[cfg(test)]
mod letters;
#[cfg(test)]
mod words;
