//! The tests of the libraries, through their public calls. A crate with tests is proved twice, with
//! them and without, so they are in a crate of their own.
#![tactic(auto)]

#[cfg(test)]
mod tests;
