//! Entries of one directory and files of trees, on which open directories and their editor are built.
//!
//! The code holds the entries of open directories in pieces, filters and copies trees, and builds the tree that
//! a write makes of a directory.
//!
//! Of files there are definitions and laws alone. They state what edits, openings and writes make of files,
//! over lists of entries, tables from ids to such lists, and sets of files.
#![tactic(auto)]

pub mod entries;
pub mod filtered;
pub mod laws;
pub mod open_entries;
pub mod written_tree;
