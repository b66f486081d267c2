//! Tests of the tasks, and the solvers and instances that they take.

mod documents;
mod endings;
mod outcomes;
mod pairs;
mod rows;
mod solvers;
mod verdicts;
