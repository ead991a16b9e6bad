//! Tests of texts and of what they say: numbers, terms, kernels, images and programs.
#![tactic(auto)]

#[cfg(test)]
mod faults;
#[cfg(test)]
mod images;
#[cfg(test)]
mod ints;
#[cfg(test)]
mod kernels;
#[cfg(test)]
mod tables;
#[cfg(test)]
mod terms;
#[cfg(test)]
mod texts;
