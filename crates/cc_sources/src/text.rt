// A text with its name.

/// A text, and the name under which it was requested: a file's name, or `-` for standard input.
#[derive(Drop)]
pub struct NamedText {
    pub name: String,
    pub bytes: Vec<u8>,
}
