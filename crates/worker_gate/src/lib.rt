//! Points of a transaction at which a gate is told, so that a test can hold one thread until another has come as far
//! as it should, and whoever measures can count.
#![tactic(auto)]

pub mod gate;

pub use gate::{Gate, OpenGate, Point, Stage};
