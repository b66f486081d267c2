//! Tests of gaps and of sweep tables, on networks drawn by hand.

mod limits;
mod nets;
mod plain;
mod stations;
mod sweeps;
mod walks;
