// What the program prints of a file: its marks, its map and its short graph in sense 1, or its
// refusal, as text in the caller's buffer.
// The graph is checked, searched for rings and marked once. The program `zundrafipo` supplies the
// file and the buffer; a buffer too short for the longest report gets nothing.
// Uses `file_read` for the file's graph, `graph_index` for the graph with its table of first
// places, `walk_rings` for its rings, `reduce_strong` for its marks, its map and its short graph,
// `report_rows` for the lines, and `report_text` for the buffer.
#![tactic(auto)]

pub mod print; // print.rt: the entry `print_file`
