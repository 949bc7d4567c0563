//! Lines between a reader and a writer: the bytes that wait, the bytes that are buffered for the writer, a run over
//! lines that are answered, and why it stops.
//! Tests: rb_tests_runs, scripts.rt; tests/cases.py.
#![tactic(auto)]

mod buffers;
mod fault;
mod feed;
mod from_bytes;
mod from_reader;
mod limits;
mod line;
mod no_line;
mod pending;
mod responder;
mod run;
mod sink;
mod source;
mod to_bytes;
mod to_writer;
mod whole;
mod write;

pub use buffers::Buffers;
pub use fault::{ScriptFault, message, status};
pub use feed::first_feed;
pub use from_bytes::FromBytes;
pub use from_reader::FromReader;
pub use limits::{LINE_LIMIT, MOST_BATCHED, MOST_BUFFERED, MOST_READS, READ_SIZE};
pub use line::{is_blank, text_on};
pub use no_line::NoLine;
pub use pending::Pending;
pub use responder::Responder;
pub use run::run_lines;
pub use sink::{Sink, WriteFailed};
pub use source::{ReadFailed, Source};
pub use to_bytes::ToBytes;
pub use to_writer::ToWriter;
pub use whole::whole_or_none;
pub use write::{flush, write_all};
