//! Tests of the grid, on documents.

mod limits;
mod rows;
mod scenes;
mod texts;
