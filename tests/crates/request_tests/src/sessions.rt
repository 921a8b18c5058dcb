//! Tests of a session, through its public calls: its slots (`slots`), who of its requests waits for
//! whom (`lines`), also where a piece begins again (`again`), and who stands at its look under the
//! lock (`looks`). Each test is a text with a paragraph for each case, which `fixtures` reads. What
//! a row wants was worked out from the rules in prose.
mod again;
mod drive;
mod lines;
mod looks;
mod slots;
