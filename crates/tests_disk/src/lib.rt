//! Tests of the disk layer that only Rust can ask: disks that keep no promise, and places of
//! extents. What a line can ask of disks, bodies and segments stands in `tests/layers`.
#![tactic(auto)]

#[cfg(test)]
mod lossy;
#[cfg(test)]
mod space;
