//! Tests of disks in files, by public calls.
#![tactic(auto)]

#[cfg(test)]
mod filedisk;
