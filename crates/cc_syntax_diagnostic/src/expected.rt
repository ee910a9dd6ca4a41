// Which tokens could come in place of an unexpected one.
//
// The parser itself decides: the text before the token is parsed with a candidate after it. If the parser's only fault is then
// that something is missing at the very end, the candidate could come there. So the report agrees with the grammar by
// construction. From the text before the token, only the external declaration around it is kept; earlier declarations are
// complete.

use cc_syntax::{Punctuator, SyntaxFault, Token, TokenKind, parse, place_at};
use std::alloc::{AllocError, Global};

/// What the parser says about a candidate after the text before a token.
#[derive(Clone, Copy, PartialEq, Eq)]
pub enum Reply {
    /// The grammar allows it.
    Accepted,
    /// The grammar allows it, but a limit is exceeded.
    PastLimit,
    /// The grammar does not allow it, or nothing is known.
    Refused,
}

/// The external declaration that has a token, up to that token, and room for a candidate after it.
#[derive(Drop)]
pub struct Prefix {
    text: Vec<u8>,
    length: usize,
}

/// How far the tokens of a text have been read: how many braces are open, and whether the outermost one is that of a function's
/// body.
#[derive(Clone, Copy)]
struct Outline {
    start: usize,
    depth: usize,
    in_body: bool,
    closed_parameters: bool,
}

impl Outline {
    // Reads one token.
    fn pass(&mut self, token: Token) {
        let kind = token.kind;
        if matches!(kind, TokenKind::Punctuator(Punctuator::OpenBrace)) {
            if self.depth == 0 {
                self.in_body = self.closed_parameters;
            }
            self.depth = self.depth.saturating_add(1);
        }
        let is_end = matches!(kind, TokenKind::Punctuator(Punctuator::CloseBrace));
        if is_end {
            self.depth = self.depth.saturating_sub(1);
        }
        let is_semicolon = matches!(kind, TokenKind::Punctuator(Punctuator::Semicolon));
        if self.depth == 0 && (is_semicolon || (is_end && self.in_body)) {
            self.start = token.to;
        }
        self.closed_parameters = matches!(
            kind,
            TokenKind::Punctuator(Punctuator::CloseParenthesis)
        );
    }
}

// The offset at which the external declaration with the token at `at` begins: after the declaration before it.
fn start_of_external(tokens: &[Token], at: usize) -> usize {
    let mut outline = Outline {
        start: 0,
        depth: 0,
        in_body: false,
        closed_parameters: false,
    };
    for token in tokens {
        if token.from < at {
            outline.pass(*token);
        }
    }
    outline.start
}

impl Prefix {
    /// Returns the text before the token at an offset.
    pub fn new(
        alloc: Global,
        text: &[u8],
        tokens: &[Token],
        at: usize,
    ) -> Result<Prefix, AllocError> {
        let start = start_of_external(tokens, at);
        let before = text.get(start..at).unwrap_or(b"");
        let mut text = Vec::from_slice(alloc, before)?;
        text.push(b'\n')?;
        let length = text.len();
        Ok(Prefix { text, length })
    }

    /// What the parser says if a candidate comes next.
    pub fn ask(&mut self, alloc: Global, candidate: &str) -> Result<Reply, AllocError> {
        self.text.truncate(self.length);
        self.text.extend_from_slice(candidate.as_bytes())?;
        let text = self.text.as_slice();
        match parse(alloc, text) {
            Ok(unit) => {
                drop(unit);
                Ok(Reply::Accepted)
            }
            Err(SyntaxFault::OutOfMemory) => Err(AllocError),
            Err(SyntaxFault::Unexpected(place)) if place == place_at(text, text.len()) => Ok(
                Reply::Accepted,
            ),
            Err(SyntaxFault::TooDeep(_)) => Ok(Reply::PastLimit),
            Err(_) => Ok(Reply::Refused),
        }
    }

    fn accepts(&mut self, alloc: Global, candidate: &str) -> Result<bool, AllocError> {
        Ok(self.ask(alloc, candidate)? == Reply::Accepted)
    }

    fn fits(&mut self, alloc: Global, phrase: &Phrase) -> Result<bool, AllocError> {
        for candidate in phrase.candidates {
            if !self.accepts(alloc, candidate)? {
                return Ok(false);
            }
        }
        Ok(true)
    }

    // Adds the words of each phrase that fits.
    fn add(
        &mut self,
        alloc: Global,
        phrases: &[Phrase],
        words: &mut Vec<&'static str>,
    ) -> Result<(), AllocError> {
        for phrase in phrases {
            if self.fits(alloc, phrase)? {
                words.push(phrase.words)?;
            }
        }
        Ok(())
    }

    // Adds the words of the first beginning that fits, and returns what else can be reported.
    fn add_beginning(
        &mut self,
        alloc: Global,
        words: &mut Vec<&'static str>,
    ) -> Result<Others, AllocError> {
        for beginning in BEGINNINGS.iter() {
            if self.fits(alloc, &beginning.phrase)? {
                words.push(beginning.phrase.words)?;
                return Ok(beginning.others);
            }
        }
        Ok(Others::All)
    }

    /// Words for the tokens that could come next; none if nothing is known. After an operand, only what ends the expression is
    /// reported, though operators could come too.
    pub fn expected(&mut self, alloc: Global) -> Result<Vec<&'static str>, AllocError> {
        let mut words: Vec<&'static str> = Vec::new(alloc);
        let others = if self.accepts(alloc, "*")? {
            Others::Ends
        } else {
            self.add_beginning(alloc, &mut words)?
        };
        if let Others::All = others {
            self.add(alloc, &STARTS, &mut words)?;
        }
        self.add(alloc, others.ends(), &mut words)?;
        Ok(words)
    }
}

/// Something that can be reported, and the candidates that must all fit.
#[derive(Clone, Copy)]
struct Phrase {
    words: &'static str,
    candidates: &'static [&'static str],
}

/// What can be reported besides what begins here.
#[derive(Clone, Copy)]
enum Others {
    /// What ends a block.
    BlockEnd,
    /// What ends an expression.
    Ends,
    /// Anything else.
    All,
}

impl Others {
    // What is reported last.
    fn ends(self) -> &'static [Phrase] {
        match self {
            Others::BlockEnd => &BLOCK_END,
            Others::Ends | Others::All => &ENDS,
        }
    }
}

/// What begins here, and what else can be reported.
#[derive(Clone, Copy)]
struct Beginning {
    phrase: Phrase,
    others: Others,
}

static ENDS: [Phrase; 6] = [
    Phrase {
        words: "','",
        candidates: &[","],
    },
    Phrase {
        words: "';'",
        candidates: &[";"],
    },
    Phrase {
        words: "')'",
        candidates: &[")"],
    },
    Phrase {
        words: "']'",
        candidates: &["]"],
    },
    Phrase {
        words: "'}'",
        candidates: &["}"],
    },
    Phrase {
        words: "':'",
        candidates: &[":"],
    },
];

static BLOCK_END: [Phrase; 1] = [Phrase {
    words: "'}'",
    candidates: &["}"],
}];

static STARTS: [Phrase; 5] = [
    Phrase {
        words: "'while'",
        candidates: &["while"],
    },
    Phrase {
        words: "'='",
        candidates: &["="],
    },
    Phrase {
        words: "'('",
        candidates: &["("],
    },
    Phrase {
        words: "'['",
        candidates: &["["],
    },
    Phrase {
        words: "'{'",
        candidates: &["{"],
    },
];

// The first beginning that fits is reported.
static BEGINNINGS: [Beginning; 5] = [
    Beginning {
        phrase: Phrase {
            words: "a statement",
            candidates: &["return", "x", "{"],
        },
        others: Others::BlockEnd,
    },
    Beginning {
        phrase: Phrase {
            words: "an expression",
            candidates: &["x", "1", "("],
        },
        others: Others::Ends,
    },
    Beginning {
        phrase: Phrase {
            words: "a name",
            candidates: &["x"],
        },
        others: Others::All,
    },
    Beginning {
        phrase: Phrase {
            words: "a type",
            candidates: &["int", "unsigned"],
        },
        others: Others::All,
    },
    Beginning {
        phrase: Phrase {
            words: "'int'",
            candidates: &["int"],
        },
        others: Others::All,
    },
];
