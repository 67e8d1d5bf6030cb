//! Worked texts of modules and of parts of modules, as tests over the crates that read them.
#![tactic(auto)]

#[cfg(test)]
mod blocks;
#[cfg(test)]
mod items;
#[cfg(test)]
mod refused;
#[cfg(test)]
mod tokens;
