//! Tests of the parts below the actors: of sources and sinks (`outside`), and of calls that no run of the program
//! makes, of `values`, `items`, `rounds`, `homes`, `locks`, and votes and decisions (`votes`).
#![tactic(auto)]

#[cfg(test)]
mod homes;
#[cfg(test)]
mod items;
#[cfg(test)]
mod locks;
#[cfg(test)]
mod outside;
#[cfg(test)]
mod rounds;
#[cfg(test)]
mod values;
#[cfg(test)]
mod votes;
