//! What the plain solver finds for small instances, decoded and judged.

mod nets;
mod plans;
mod scenes;
