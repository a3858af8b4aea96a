// The hops (transitions) in a file, "the hop count with six bytes a hop": how long the field is,
// the hop at a place of it, and the whole field decoded into a hop list or encoded from one.
// It serves `file_fields`, which says where the field lies, `file_read` and `file_encode`. Only
// this crate knows what a hop looks like in a file: another layout, or another number a hop,
// changes this crate and graph's accessors. A hop's line is not in the field: it is taken from the
// list of lines.
// Uses `graph` for hops, `file_lines` for lines and `file_numbers` for numbers.
#![tactic(auto)]

pub mod hops; // hops.rt: the field, and its hops by place
