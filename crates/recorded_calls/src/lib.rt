// What the programs share that replay recorded answers: the parts of a recording, the lists in them, copies with changes, counts, and the calls on a table.
// tools/recorded_tables.py, tools/recorded_updates.py and tools/molecule_vectors.py describe the forms. What reads or copies is there twice: from any reader and on
// a heap (`readers`, `changed`, `Table`), and, as the programs use it, from standard input to a lent room (`parts`, `put_changed`, `InfallibleTable`).
#![tactic(auto)]

mod calls;
mod changes;
mod items;
mod numbers;
mod parts;
mod printed;
mod readers;
mod tally;
#[cfg(test)]
mod tests;

pub use calls::{
    Call, FILL, InfallibleTable, Mark, Table, is_written, is_written_to, replay_calls,
    replay_stdin_calls,
};
pub use changes::{changed, put_changed};
pub use items::Items;
pub use numbers::u128_of;
pub use parts::{InfallibleReplay, each_sparse_stdin_part, each_stdin_part, read_stdin, zeros};
pub use printed::Printed;
pub use readers::{Replay, each_part, each_sparse_part, read_all};
pub use tally::{Tallies, Tally};
