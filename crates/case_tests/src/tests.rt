//! Tests of made cases.

mod printed;
mod scenes;
