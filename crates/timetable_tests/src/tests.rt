//! Tests of the reader of timetables.

mod days;
mod pairs;
mod rows;
mod shapes;
mod texts;
