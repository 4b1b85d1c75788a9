// The text of an edge list: its numbers and lines, read and written.
#![tactic(auto)]

pub mod reading;
pub mod writing;

// Two sites, counted from 0, and the coupling of a bond between them.
#[derive(Clone, Copy)]
pub struct Edge {
    pub from: usize,
    pub to: usize,
    pub coupling: i32,
}

// A number, or a coupling's code, and the place behind it.
#[derive(Clone, Copy)]
pub struct Parsed {
    pub value: usize,
    pub end: usize,
}

// A line: its sites, counted from 0, its coupling's code and the place behind it.
#[derive(Clone, Copy)]
pub struct ParsedLine {
    pub from: usize,
    pub to: usize,
    pub code: u32,
    pub end: usize,
}
