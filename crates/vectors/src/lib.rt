//! The worked rows, as tests over the crates of the program.
#![tactic(auto)]

#[cfg(test)]
mod checking;
#[cfg(test)]
mod launching;
#[cfg(test)]
mod printing;
#[cfg(test)]
mod reading;
#[cfg(test)]
mod refused;
#[cfg(test)]
mod replaying;
#[cfg(test)]
mod running;
#[cfg(test)]
mod shaping;
#[cfg(test)]
mod stepping;
#[cfg(test)]
mod texts;
