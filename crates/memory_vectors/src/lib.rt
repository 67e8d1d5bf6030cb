//! Worked values of memory and of arithmetic, as tests over the crate that has both.
#![tactic(auto)]

#[cfg(test)]
mod arithmetic;
#[cfg(test)]
mod blocks;
#[cfg(test)]
mod traps;
#[cfg(test)]
mod words;
