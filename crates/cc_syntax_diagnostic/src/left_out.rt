// What this C leaves out of C99, and words of other languages: what to say about each, and what to write instead.
//
// Each table is searched once, by spelling. What it says about a spelling is written after a colon.

/// A spelling, and what to say about it.
pub type Entry = (&'static str, &'static str);

/// What a table says about a word, if it has the word.
pub fn said_of(table: &[Entry], word: &[u8]) -> Option<&'static str> {
    for (spelling, said) in table {
        if spelling.as_bytes() == word {
            return Some(*said);
        }
    }
    None
}

/// What a table says about the first of its spellings that these bytes begin with.
pub fn said_of_prefix(table: &[Entry], bytes: &[u8]) -> Option<&'static str> {
    for (spelling, said) in table {
        if bytes.starts_with(spelling.as_bytes()) {
            return Some(*said);
        }
    }
    None
}

/// What to say about a word of another language, of C's headers or of its libraries, if it is a known one.
pub fn said_of_foreign(word: &[u8]) -> Option<&'static str> {
    said_of(&FOREIGN, word)
}

/// The keywords of C99 (6.4.1) that this C leaves out, and `char`, which it allows only in declarations of byte
/// arrays.
pub static KEYWORDS: [Entry; 26] = [
    ("auto", "there is no auto in this C; leave it out"),
    ("case", "there is no case in this C; write if and else"),
    (
        "char",
        "there is no char in this C but in arrays at file scope, for example unsigned char line[80]; write int",
    ),
    (
        "const",
        "there is no const in this C; leave it out, and write the number where a constant has to be",
    ),
    ("default", "there is no default in this C; write else"),
    (
        "double",
        "there is no double in this C; write int, and count in parts, for example thousandths",
    ),
    ("enum", "there is no enum in this C; write the numbers"),
    (
        "extern",
        "there is no extern in this C; a program is one text, so leave it out",
    ),
    (
        "float",
        "there is no float in this C; write int, and count in parts, for example thousandths",
    ),
    (
        "goto",
        "there is no goto in this C; write a loop, with break or continue",
    ),
    ("inline", "there is no inline in this C; leave it out"),
    (
        "long",
        "there is no long in this C; write int or unsigned alone, of 32 bits",
    ),
    ("register", "there is no register in this C; leave it out"),
    ("restrict", "there is no restrict in this C; leave it out"),
    (
        "short",
        "there is no short in this C; write int or unsigned alone, of 32 bits",
    ),
    ("sizeof", "there is no sizeof in this C; write the number"),
    (
        "static",
        "there is no static in this C; leave it out, and declare at file scope what has to last",
    ),
    (
        "struct",
        "there is no struct in this C; write a variable or an array for each member",
    ),
    (
        "switch",
        "there is no switch in this C; write if and else if",
    ),
    (
        "typedef",
        "there is no typedef in this C; write int or unsigned in its place",
    ),
    (
        "union",
        "there is no union in this C; write a variable or an array for each member",
    ),
    ("volatile", "there is no volatile in this C; leave it out"),
    ("_Bool", "there is no _Bool in this C; write int"),
    (
        "_Complex",
        "there is no _Complex in this C; write two variables",
    ),
    (
        "_Imaginary",
        "there is no _Imaginary in this C; write two variables",
    ),
    (
        "else",
        "it has no 'if', whose statement would have to end directly before it",
    ),
];

/// The operators that form statements in this C, but expressions in C99.
pub static ACTIONS: [Entry; 13] = [
    (
        "=",
        "there is no = inside an expression in this C; write a statement of its own, or == to compare",
    ),
    (
        "+=",
        "there is no += inside an expression in this C; write a statement of its own",
    ),
    (
        "-=",
        "there is no -= inside an expression in this C; write a statement of its own",
    ),
    (
        "*=",
        "there is no *= inside an expression in this C; write a statement of its own",
    ),
    (
        "/=",
        "there is no /= inside an expression in this C; write a statement of its own",
    ),
    (
        "%=",
        "there is no %= inside an expression in this C; write a statement of its own",
    ),
    (
        "<<=",
        "there is no <<= inside an expression in this C; write a statement of its own",
    ),
    (
        ">>=",
        "there is no >>= inside an expression in this C; write a statement of its own",
    ),
    (
        "&=",
        "there is no &= inside an expression in this C; write a statement of its own, or == to compare",
    ),
    (
        "|=",
        "there is no |= inside an expression in this C; write a statement of its own",
    ),
    (
        "^=",
        "there is no ^= inside an expression in this C; write a statement of its own",
    ),
    (
        "++",
        "there is no ++ inside an expression in this C; write a statement of its own, before or after this one",
    ),
    (
        "--",
        "there is no -- inside an expression in this C; write a statement of its own, before or after this one",
    ),
];

// Words of other languages, of C's headers and of its libraries.
static FOREIGN: [Entry; 37] = [
    ("and", "write &&"),
    ("or", "write ||"),
    ("not", "write !"),
    ("xor", "write ^"),
    ("then", "leave it out"),
    ("elif", "write else if"),
    ("elsif", "write else if"),
    ("elseif", "write else if"),
    ("endif", "write }"),
    ("def", "write int or void, and the name"),
    ("fn", "write int or void, and the name"),
    ("func", "write int or void, and the name"),
    ("function", "write int or void, and the name"),
    ("let", "write int or unsigned"),
    ("var", "write int or unsigned"),
    ("bool", "write int"),
    ("string", "there are no strings in this C"),
    ("uint", "write unsigned"),
    ("int8_t", "write int"),
    ("int16_t", "write int"),
    ("int32_t", "write int"),
    ("uint8_t", "write unsigned"),
    ("uint16_t", "write unsigned"),
    ("uint32_t", "write unsigned"),
    (
        "int64_t",
        "write int, or two of them: there are 32 bits and no more in this C",
    ),
    (
        "uint64_t",
        "write unsigned, or two of them: there are 32 bits and no more in this C",
    ),
    ("size_t", "write unsigned"),
    ("true", "write 1"),
    ("false", "write 0"),
    ("NULL", "write 0: there are no pointers in this C"),
    (
        "printf",
        "write_word(x) writes a word, and there is no other output",
    ),
    (
        "putchar",
        "write_word(x) writes a word, and there is no other output",
    ),
    (
        "puts",
        "write_word(x) writes a word, and there is no other output",
    ),
    (
        "scanf",
        "read_word() reads a word, and there is no other input",
    ),
    (
        "getchar",
        "read_word() reads a word, and there is no other input",
    ),
    (
        "malloc",
        "there is no heap in this C; declare an array at file scope",
    ),
    ("exit", "there is no exit in this C; return from main"),
];

/// Bytes that begin no token in this C, and what to say about them. The first entry that the bytes begin with is used.
pub static BYTES: [Entry; 13] = [
    (
        "#include",
        "there is no preprocessor in this C; leave it out: read_word and write_word are built in",
    ),
    (
        "#define",
        "there is no preprocessor in this C; write the number where the name is, or declare a variable",
    ),
    (
        "#",
        "there is no preprocessor in this C; write out what it would make",
    ),
    (
        "\"",
        "there are no strings in this C; write_word(x) writes one word",
    ),
    (
        "'",
        "there are no character constants in this C; write the character's number, 97 for a",
    ),
    (
        "...",
        "there are no variable arguments in this C; give each parameter its type and name",
    ),
    ("\\u", "names have only letters, digits and _ in this C"),
    ("\\U", "names have only letters, digits and _ in this C"),
    (
        ".",
        "there are no structures in this C; write a variable or an array for each member",
    ),
    (
        "\u{feff}",
        "it is a byte order mark; save the text without one",
    ),
    ("\u{a0}", "it is no space of C; write a space"),
    ("\u{d7}", "write *"),
    ("\u{f7}", "write /"),
];

/// Characters outside ASCII, as ranges from a first to a last one, and what to say about them.
pub static CHARACTERS: [(char, char, &str); 12] = [
    (
        '\u{2018}',
        '\u{201b}',
        "it is a quotation mark of prose, and there are no character constants in this C",
    ),
    (
        '\u{201c}',
        '\u{201f}',
        "it is a quotation mark of prose, and there are no strings in this C",
    ),
    ('\u{2010}', '\u{2015}', "it is a dash; write -"),
    ('\u{2212}', '\u{2212}', "it is a minus sign; write -"),
    ('\u{2000}', '\u{200a}', "it is no space of C; write a space"),
    ('\u{202f}', '\u{202f}', "it is no space of C; write a space"),
    ('\u{3000}', '\u{3000}', "it is no space of C; write a space"),
    ('\u{200b}', '\u{200f}', "it has no width; delete it"),
    ('\u{2264}', '\u{2264}', "write <="),
    ('\u{2265}', '\u{2265}', "write >="),
    ('\u{2260}', '\u{2260}', "write !="),
    (
        '\u{80}',
        '\u{10ffff}',
        "names have only letters, digits and _ in this C, and outside comments there is no other",
    ),
];

pub const POINTERS: &str =
    "there are no pointers in this C; write an array at file scope, and an index into it";

pub const STRUCTURES: &str =
    "there are no structures in this C; write a variable or an array for each member";

pub const FLOATING: &str =
    "there are no floating constants in this C; count in parts, for example thousandths";

pub const ROWS: &str =
    "there are no arrays of arrays in this C; write one array, and row * width + column as the index";

pub const LOCAL_ARRAYS: &str =
    "there are no arrays inside a function in this C; declare it at file scope";

pub const ARRAY_PARAMETERS: &str =
    "there are no array parameters in this C; use the array at file scope, and pass an index or a length";

pub const DESIGNATORS: &str = "there are no designators in this C; write each value in its place";

pub const LISTS: &str = "there are no lists inside a list in this C, nor for a single variable";

pub const COMMA: &str =
    "there is no comma operator in this C; write a statement for each, in a block or before the loop";

pub const LABELS: &str = "there are no labels in this C; write a loop, with break or continue";

pub const INNER_FUNCTIONS: &str =
    "there are no functions inside a function; declare it at file scope, before this one";

pub const SINGLE_BYTES: &str =
    "there is no single unsigned char in this C; write [1] after the name, or int for the type";

pub const NO_TARGET: &str =
    "it comes after no variable and no element of an array, and nothing else can be written to";

pub const VOID_CASTS: &str = "there are no casts to void in this C; leave it out";
