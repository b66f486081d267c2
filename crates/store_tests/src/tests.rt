//! Tests of the store, and the scenes that they stand on.

mod compacting;
mod facts;
mod forcing;
mod numbers;
mod rows;
mod scene;
