//! The groups of one scope and the processes in them (Kernel manual, `pg`).
#![tactic(auto)]

mod changes;
mod counted;
mod fault;
mod group_members;
mod group_nodes;
mod hashed_rows;
mod incoming;
mod indexed_rows;
mod indexing;
mod laws;
mod leaving;
mod listings;
mod lowering;
mod nested_map;
mod node_indexes;
mod node_lists;
mod node_row;
mod node_rows;
mod process_key;
mod queries;
mod reads;
mod row_counts;
mod row_reads;
mod short_map;
mod small_map;
mod table;

pub use fault::TableFault;
pub use laws::{
    part_of_all_own_rows, part_of_own_rows, rows_of_difference, total_of_counts, total_of_members,
};
pub use table::ScopeTable;
