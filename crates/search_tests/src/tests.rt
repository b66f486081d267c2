//! Tests of solvers by formulas, written for any solver, and both solvers on all of them.

mod drops;
mod formulas;
mod learning;
mod plain;
mod rhythm;
mod scenes;
mod watch;
