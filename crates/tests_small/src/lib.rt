//! Tests of small crates, from outside: scripts of short commands (`scripts`), files of units (`files`), which trees are translations of
//! programs of wide C (`translations`), and texts of wide C, read and printed (`wide_texts`, `wide_printed`).
#![tactic(auto)]

#[cfg(test)]
mod files;
#[cfg(test)]
mod scripts;
#[cfg(test)]
mod translations;
#[cfg(test)]
mod wide_printed;
#[cfg(test)]
mod wide_texts;
