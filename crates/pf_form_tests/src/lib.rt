//! Tests of forms and of what is said by them: axioms, lane operations, lane code, bounds of terms.
#![tactic(auto)]

#[cfg(test)]
mod axioms;
#[cfg(test)]
mod forms;
#[cfg(test)]
mod lane_code;
#[cfg(test)]
mod laneops;
#[cfg(test)]
mod term_bounds;
