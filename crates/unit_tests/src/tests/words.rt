//! What no clause says: that good input is taken, at its limits.

mod leases;
mod spans_of_keys;
mod words;
