// Tests of the way from C to Linear with a slot for each register, which no command takes. Each function of the worked programs
// goes through, and so do the largest functions; an endless loop that does nothing remains one; and the text of some functions
// is what the rules of `docs/INTERMEDIATE.md` give by hand.

#[cfg(test)]
mod helpers;
#[cfg(test)]
mod limits;
#[cfg(test)]
mod shown;
#[cfg(test)]
mod worked;
