//! Worked cases of what no clause says, over the public functions of the crates below: texts,
//! frames and parts of messages, terms and what a stock node says, what an audit keeps, and threads
//! over one node.
#![tactic(auto)]

#[cfg(test)]
mod audit;
#[cfg(test)]
mod bodies;
#[cfg(test)]
mod cookies;
#[cfg(test)]
mod cuts;
#[cfg(test)]
mod digits;
#[cfg(test)]
mod edges;
#[cfg(test)]
mod frames;
#[cfg(test)]
mod made;
#[cfg(test)]
mod monitors;
#[cfg(test)]
mod parts;
#[cfg(test)]
mod said;
#[cfg(test)]
mod signals;
#[cfg(test)]
mod steps;
#[cfg(test)]
mod terms;
#[cfg(test)]
mod threads;
#[cfg(test)]
mod types;
#[cfg(test)]
mod values;
