//! Tests of what `Instance::build` and `Layout::new` refuse, by what is changed, by limits and by order.

mod changes;
mod layouts;
mod limits;
mod orders;
mod parts;
