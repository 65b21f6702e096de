//! Commands from trees, and their canonical texts; what items and their texts say.
//!
//! The contract for the layer above: `command` answers the line that a tree is by the command table, or the tree's first
//! fault with its place or keys, and `print` gives a command's canonical text. A command that `command` answers keeps the
//! table's forms and ranges, so that its canonical text is read as the same command. Of numbers, names, jobs, flags, endings,
//! dates and times, a reader (`words.rt`) answers a text's value, or nothing where the text says none, and a printer
//! (`word_printing.rt`) puts a value's text behind another.
//!
//! The definitions are in `specs/`. What texts say: `Written` (what stands at an item), `Words` (what texts say) and `Texts` (the
//! texts of jobs, compare values, dates and times). Commands: `Table` (what each command's keys take), `Values` and `Call` (what
//! the values behind a key are read as), `Reading` (what items give keys), `Fields` (values and what a command's fields hold),
//! `Objects`, `Entries`, `Jobs` and `Control` (each command of its values, and its values again), with `Made` and `Shown` over all
//! of them, `Line` (what a tree is), `Print` (what a command is as text), `Printed` (that this text is read as the command again).
//! That a printed value is read back is shown in `proofs/WordsBack.antt`, that what is read keeps its form and its range in
//! `proofs/Forms.antt`.
#![tactic(auto)]

mod call;
mod commands;
mod control;
mod entries;
mod family;
mod fault;
mod fields;
mod from_tree;
mod jobs;
mod laws;
mod line;
mod objects;
mod printable;
mod printing;
mod reading;
mod row;
mod table;
mod value;
mod values;
mod verb;
mod word_printing;
mod words;
mod written;

pub use commands::command_word;
pub use fault::CmdFault;
pub use from_tree::command;
pub use laws::{printed_command_is_read, shown_values_make_the_command};
pub use line::Line;
pub use printing::print;
pub use row::{Default as RowDefault, Kind as ValueKind, Row, Special};
pub use table::{CHANGES, READS, change_rows, change_word, read_rows, read_word, verb_of};
pub use verb::{ChangeVerb, ReadVerb};
pub use word_printing::{
    push_cmp, push_date, push_job, push_name, push_number, push_time, push_word,
};
pub use words::{
    date_of, ending_of, ending_word, flag_of, flag_word, job_of, number_of, time_of, within,
};
pub use written::{is_bare, is_word, key_of, listed, place_of, text_of};
