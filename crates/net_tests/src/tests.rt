//! Tests of the reader of networks: shapes, rules, names, and hostile texts.

mod hostile;
mod names;
mod nets;
mod orders;
mod rules;
mod shapes;
mod texts;
