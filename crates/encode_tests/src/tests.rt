//! Tests of formulas and of the numbers of their variables.

mod cones;
mod limits;
mod lists;
mod maps;
mod nets;
mod refusals;
mod sizes;
mod small;
mod writer;
