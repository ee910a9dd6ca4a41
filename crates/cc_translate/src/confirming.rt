// Whether a text is a translation of the wide text that it carries.

ghost use Rattle.std.specs.Prelude.{IfOk, IfSome};
ghost use Rattle.cc_translate.specs.Translates.{IsConfirmed};

use crate::carrying::carried;
use crate::translating::{Difference, compare};
use cc_tokens::SyntaxFault;
use cc_types::TypeFault;
use cc_wide_text::read;
use std::alloc::{AllocError, Global};

/// Returns the wide text that a text of the profile carries, if the text is a translation of it: this is decided anew, so whoever made
/// the text need not be trusted. `None` if it carries none, or is no translation of what it carries. `AllocError` if memory runs out.
pub fn confirmed(alloc: Global, text: &[u8]) -> Result<Option<Vec<u8>>, AllocError>
    ensures { IfOk result (λ found. IfSome found (λ wide. IsConfirmed wide.items text.now)) }
{
    let Some(wide) = carried(alloc, text)? else {
        return Ok(None);
    };
    let found = match read(alloc, wide.as_slice()) {
        Ok(found) => found,
        Err(SyntaxFault::OutOfMemory) => return Err(AllocError),
        Err(_) => return Ok(None),
    };
    match compare(alloc, found.unit().externals(), text) {
        Ok(()) => Ok(Some(wide)),
        Err(
            Difference::Syntax(SyntaxFault::OutOfMemory)
            | Difference::Typing(TypeFault::OutOfMemory),
        ) => Err(AllocError),
        Err(_) => Ok(None),
    }
}

#[cfg(test)]
mod tests {
    use super::*;
    use crate::translating::translate;
    use std::test::Fail;

    #[test]
    fn translations_are_confirmed(rt: HostRuntime) -> Result<(), Fail> {
        let wide =
            b"int main(void)\n{\n switch (read_word()) { case 'a': return 1; default: return 2; }\n}";
        let done = translate(rt.alloc(), wide)?;
        let is_confirmed = match confirmed(rt.alloc(), done.text())? {
            Some(found) => found.as_slice() == wide.as_slice(),
            None => false,
        };
        assert!(rt; is_confirmed);
        Ok(())
    }

    #[test]
    fn lies_are_not_confirmed(rt: HostRuntime) -> Result<(), Fail> {
        let other = b"int main(void){return 2;} //|int main(void){return 1;}";
        assert!(rt; confirmed(rt.alloc(), other)?.is_none());
        let same = b"int main(void){return (1);} //|int main(void){return 1;}";
        assert!(rt; confirmed(rt.alloc(), same)?.is_some());
        assert!(rt; confirmed(rt.alloc(), b"int main(void){return 1;}")?.is_none());
        Ok(())
    }
}
