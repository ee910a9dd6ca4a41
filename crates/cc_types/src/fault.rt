// Why a parsed unit is refused.

ghost use Rattle.std.specs.Prelude.{◌≡◌};
ghost use Rattle.cc_types.specs.Fault.{fault_number, fault_place};

use cc_ast::Place;
use std::alloc::AllocError;
use thiserror::Error;

/// Why a unit is refused: the rule of scope or type that it breaks or the limit that it exceeds, and the place.
#[derive(Debug, Drop, Error)]
pub enum TypeFault {
    /// 11: a name that is not in scope (C99 6.2.1, 6.5.1), at the name.
    #[error("Unknown")]
    Unknown(Place),
    /// 12: a second declaration of an object, a parameter or a local in one scope (the parameters of a declared function are a
    /// scope too); a second definition of a function; a declaration that contradicts an earlier one or a builtin; or a definition
    /// of a builtin (C99 6.7, 6.9). At the later name.
    #[error("Redeclared")]
    Redeclared(Place),
    /// 13: an object that is called (C99 6.5.2.2), a function or an array used as a value, or something indexed that is not an
    /// array (6.5.2.1), at the name; or a constant expression that contains a name or a call, or that goes wrong (6.6), at its
    /// first token.
    #[error("WrongKind")]
    WrongKind(Place),
    /// 14: a wrong number of arguments (C99 6.5.2.2), at the function's name; or an array whose length is below 1 (6.7.5.2),
    /// which has fewer elements than its list has values (6.7.8), or which has neither a length nor a list, at the array's name.
    #[error("WrongCount")]
    WrongCount(Place),
    /// 15: the value of a `void` call is used (C99 6.3.2.2), at the function's name.
    #[error("VoidValue")]
    VoidValue(Place),
    /// 16: a `return` with a value in a `void` function, or without a value in any other function (C99 6.8.6.4), at the keyword
    /// `return`.
    #[error("BadReturn")]
    BadReturn(Place),
    /// 17: an array without an index, or a function, as the target of an assignment (C99 6.5.16), at the name.
    #[error("BadAssign")]
    BadAssign(Place),
    /// 18: `break` or `continue` outside a loop (C99 6.8.6.2, 6.8.6.3), at that keyword.
    #[error("BadBreak")]
    BadBreak(Place),
    /// 19: no definition of `main` that returns `int` and has no parameters (C99 5.1.2.2.1), at the end of the text.
    #[error("NoMain")]
    NoMain(Place),
    /// 20: a function that is called and never defined (C99 6.9), at the name in its first call.
    #[error("Undefined")]
    Undefined(Place),
    /// 21: more than 8 parameters, at the function's name; or more than 256 locals in one function, more than 64 defined
    /// functions, or more than 65,536 words of all objects together, at the name that exceeds the limit (C99 5.2.4.1 leaves
    /// limits open).
    #[error("TooMany")]
    TooMany(Place),
    /// 40: memory ran out.
    #[error("OutOfMemory")]
    OutOfMemory,
}

impl TypeFault {
    /// The number of the fault: 11 to 21, or 40.
    pub fn number(&self) -> u32
        ensures { result ≡ fault_number self.now }
    {
        match self {
            TypeFault::Unknown(_) => 11,
            TypeFault::Redeclared(_) => 12,
            TypeFault::WrongKind(_) => 13,
            TypeFault::WrongCount(_) => 14,
            TypeFault::VoidValue(_) => 15,
            TypeFault::BadReturn(_) => 16,
            TypeFault::BadAssign(_) => 17,
            TypeFault::BadBreak(_) => 18,
            TypeFault::NoMain(_) => 19,
            TypeFault::Undefined(_) => 20,
            TypeFault::TooMany(_) => 21,
            TypeFault::OutOfMemory => 40,
        }
    }

    /// The place of the fault; `None` only for `OutOfMemory`.
    pub fn place(&self) -> Option<Place>
        ensures { result ≡ fault_place self.now }
    {
        match self {
            TypeFault::Unknown(place)
            | TypeFault::Redeclared(place)
            | TypeFault::WrongKind(place)
            | TypeFault::WrongCount(place)
            | TypeFault::VoidValue(place)
            | TypeFault::BadReturn(place)
            | TypeFault::BadAssign(place)
            | TypeFault::BadBreak(place)
            | TypeFault::NoMain(place)
            | TypeFault::Undefined(place)
            | TypeFault::TooMany(place) => Some(*place),
            TypeFault::OutOfMemory => None,
        }
    }
}

impl From<AllocError> for TypeFault {
    ghost use Rattle.cc_types.specs.declared.fault.TypeFault.TheVariants.{OutOfMemory};

    ghost from_gives = { λ _ e. e ≡ OutOfMemory };

    fn from(_error: AllocError) -> Self {
        TypeFault::OutOfMemory
    }
}
