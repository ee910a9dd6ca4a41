// Tests of the messages about a text that no command shows: runs without a message (`runs`), and how the line of a text is shown
// at any offset (`excerpts`). The others are in `tests/rows`.

#[cfg(test)]
mod excerpts;
#[cfg(test)]
mod helpers;
#[cfg(test)]
mod runs;
