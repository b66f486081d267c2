//! The rules of networks, each as a test of one item.

mod at;
mod borders;
mod nodes;
mod references;
mod tracks;

pub(crate) use borders::first_bad_border;
pub(crate) use nodes::{
    first_bad_degree, first_bad_pairs, first_bad_tip, first_split_node, has_end,
};
pub(crate) use references::{first_unknown_border, first_unknown_node, first_unknown_station};
pub(crate) use tracks::{
    first_apart, first_bad_length, first_bad_limit, first_listed_twice, first_loop,
};
