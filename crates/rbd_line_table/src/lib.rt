//! What is known of the lines of a script, by their numbers.
//!
//! ```text
//! let mut begun: LineMap<()> = LineMap::new(alloc);
//! begun.insert(7, ())?;                    // line 7 was begun
//! let seventh = begun.has(7);              // true
//! let eighth = begun.has(8);               // false
//!
//! begun.reserve(8)?;                       // memory is taken here, or refused
//! begun.put(8, ());                        // and no more here
//! ```
//!
//! A [`LineMap`] is a table of pages of 4,096 lines each (own):
//!
//! ```text
//! line 4,099      pages   0   1   2            a page is empty, or has 4,096 places
//!                             │
//!                             ▼
//!                             . . . k . ..     place 3 of page 1: what is known of the line
//! ```
//!
//! # Contracts
//!
//! Contracts see a map by `known_at`, which is what is known of a line, and by `HasRoom`: the
//! line's page was made, so that `put` needs no memory. Each call says both of every line.
//! `specs/Known.antt` has the definitions.
//!
//! # Cost
//!
//! A look-up is two indexes and no hash. The first line of a page takes the memory of its 4,096
//! places; the table of the pages has a few words for each page up to the last one that was made.
//! So a map is for lines that follow one another, and a single high number is dear: line 2³² − 1
//! alone makes a table of 2²⁰ pages. Only `reserve` and `insert` take memory.
#![tactic(auto)]

mod line_map;

pub use line_map::LineMap;
