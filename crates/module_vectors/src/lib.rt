//! Worked modules, as tests over the crates that look up their names, lay out their types, and say what is refused of their names.
#![tactic(auto)]

#[cfg(test)]
mod bare;
#[cfg(test)]
mod building;
#[cfg(test)]
mod circles;
#[cfg(test)]
mod items;
#[cfg(test)]
mod layouts;
#[cfg(test)]
mod phis;
#[cfg(test)]
mod places;
#[cfg(test)]
mod told;
