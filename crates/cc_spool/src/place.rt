// The places of a script's files.

use crate::names::ANSWER;

/// The place of a script's file.
#[derive(Clone, Copy, Drop)]
pub(crate) enum Place {
    /// `tmp/ID`: the script, while it is being written.
    Written,
    /// `new/ID`: the script, while it waits.
    Waiting,
    /// `cur/ID`: the script, once it is claimed.
    Claimed,
    /// `cur/ID.answer`: its answer, while it is being written.
    Answer,
    /// `done/ID`: its answer, once it is complete.
    Done,
    /// In the folder itself: only the files with which a start tests the folder.
    Top,
}

impl Place {
    /// The part of the folder that has this place.
    pub(crate) fn part(self) -> &'static str {
        match self {
            Place::Written => "tmp",
            Place::Waiting => "new",
            Place::Claimed | Place::Answer => "cur",
            Place::Done => "done",
            Place::Top => ".",
        }
    }

    /// What comes after the script's name in the file's name.
    pub(crate) fn ending(self) -> &'static str {
        match self {
            Place::Answer => ANSWER,
            _ => "",
        }
    }
}
