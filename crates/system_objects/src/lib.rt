//! The system's input, output, files and TCP connections as a source, a sink, a shelf and links.
//!
//! The program uses [`InputSource`], [`OutputSink`], [`FileShelf`] and [`TcpLinks`]. Each keeps the contract of its trait of `av_base`, counts
//! each error of the system as a fault, and tells no bytes; those that the reader, writer, file or stream behind it knows go through
//! unchanged, as the clauses of its own say. What the system really gives and takes is trusted.
//!
//! `again` has a call made again that was interrupted or has to wait, `connection` is a connection of `tcp_links`, `listening` waits for those
//! that others make to it, and `opened_file` is a file of `file_shelf`. Begin reading in `input`.
#![tactic(auto)]

mod again;
mod connection;
mod file_shelf;
#[cfg(test)]
mod hesitant;
mod input;
mod listening;
#[cfg(test)]
mod loopback;
mod opened_file;
mod output;
mod tcp_links;

pub use file_shelf::FileShelf;
pub use input::InputSource;
pub use output::OutputSink;
pub use tcp_links::TcpLinks;
