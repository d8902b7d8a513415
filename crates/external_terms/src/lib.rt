//! The part of Erlang's External Term Format that a link with a node of Erlang/OTP needs: where any
//! term ends, and the
//! terms that such a link is made of, as values and as bytes (External Term Format).
#![tactic(auto)]

mod fault;
mod form;
mod head;
mod laws;
mod piece;
mod skipping;
mod tag;
mod values;
mod writing;

pub use fault::TermFault;
pub use laws::{one_end, one_fault, values_are_terms};
pub use skipping::{skip, skip_terms};
pub use values::{
    PidTerm, ReferenceTerm, after_nil, atom_at, binary_at, list_at, numbers_at, pid_at,
    reference_at, small_integer_at, tuple_at,
};
pub use writing::{
    put_atom, put_binary, put_list, put_nil, put_numbers, put_pid, put_reference,
    put_small_integer, put_tuple,
};
