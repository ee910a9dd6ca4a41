// A task for a text.

/// The largest number of steps or instructions that a task may have.
pub const MOST_STEPS: u64 = 1_000_000_000;

/// The largest number of words that a task may bound what a run writes by.
pub const MOST_WORDS: u64 = 4_294_967_295;

/// How an image is compiled.
#[derive(Clone, Copy, Debug, Drop, PartialEq, Eq)]
pub enum Kind {
    /// Once the program goes wrong, nothing is promised about the image.
    Plain,
    /// Once the program goes wrong, the image goes on for ever and writes nothing more.
    Checked,
}

/// What the program is asked to do with a text.
#[derive(Drop)]
pub enum Task {
    /// Say whether the text is a program of the profile.
    Check,
    /// Run the program for at most this many steps on these input words.
    Interpret(u64, Vec<u32>),
    /// Compile the program and run its image for at most this many instructions on these input words.
    Run(Kind, u64, Vec<u32>),
    /// As `Interpret`, and count the steps.
    InterpretCounted(u64, Vec<u32>),
    /// As `Run`, and count the instructions.
    RunCounted(Kind, u64, Vec<u32>),
    /// As `Interpret`, and say what the program reads too.
    InterpretObserved(u64, Vec<u32>),
    /// As `Run`, and say what the image reads too.
    RunObserved(Kind, u64, Vec<u32>),
    /// As `Interpret`, and end before the program writes more than so many words: after the steps comes that number, 0 to
    /// 4,294,967,295.
    InterpretWithin(u64, u64, Vec<u32>),
    /// As `Run`, and end before the image writes more than so many words: after the steps comes that number, 0 to 4,294,967,295.
    RunWithin(Kind, u64, u64, Vec<u32>),
    /// Compile the program and list its image.
    Asm(Kind),
    /// Compile the program and write its image as Intel HEX.
    Image(Kind),
    /// Compile the program and say how much memory its image takes.
    Size(Kind),
    /// Compile the program, write its image as Intel HEX, and say how much memory that image takes.
    SizedImage(Kind),
    /// Say whether the program can't go wrong.
    Safe,
}
