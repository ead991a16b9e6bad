//! Tests of instructions and of the machine: rows of programs, and texts and kernels on images.
#![tactic(auto)]

#[cfg(test)]
mod avx2_programs;
#[cfg(test)]
mod hvx_programs;
#[cfg(test)]
mod machine;
#[cfg(test)]
mod neon;
#[cfg(test)]
mod neon_programs;
#[cfg(test)]
mod programs;
#[cfg(test)]
mod rows;
#[cfg(test)]
mod runs;
