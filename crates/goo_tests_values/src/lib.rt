//! Worked examples of what comes in and goes out: values, notices, bodies, outcomes, lines,
//! endings, command lines and streams, and of books of pieces, rows near a range and rows in pages, against texts and numbers written by hand.
//!
//! It has tests alone, and stands on no registry.
#![tactic(auto)]

#[cfg(test)]
mod bodies;
#[cfg(test)]
mod books;
#[cfg(test)]
mod claims;
#[cfg(test)]
mod command_lines;
#[cfg(test)]
mod edits;
#[cfg(test)]
mod endings;
#[cfg(test)]
mod examples;
#[cfg(test)]
mod lines;
#[cfg(test)]
mod long_books;
#[cfg(test)]
mod lookups;
#[cfg(test)]
mod lots;
#[cfg(test)]
mod notices;
#[cfg(test)]
mod outcomes;
#[cfg(test)]
mod page_lists;
#[cfg(test)]
mod streams;
#[cfg(test)]
mod texts;
#[cfg(test)]
mod values;
