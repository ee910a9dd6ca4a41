// Translations of programs of wide C, written by hand.

use cc_ast::Unit;
use cc_syntax::parse;
use cc_wide_check::{is_translation, keeps_labels};
use std::alloc::Global;
use std::test::Fail;

// A program with the marks of a switch, and what C99 (6.8.4.2) makes of it, written by hand.
const MARKED: &[u8] =
    b"int main(void){while(__switch)while(read_word()){__case=1;write_word(10);__case=2;__case=3;write_word(20);break;__default;write_word(30);}return 0;}";

const PRINTED: &[u8] =
    b"int main(void){unsigned __s;{__s=read_word();__s=__s==1u?1u:__s==2u?2u:__s==3u?2u:3u;do{if(__s<=1u){write_word(10);}if(__s<=2u){write_word(20);break;}if(__s<=3u){write_word(30);}}while(0);}return 0;}";

const WRONG_BOUND: &[u8] =
    b"int main(void){unsigned __s;{__s=read_word();__s=__s==1u?1u:__s==2u?2u:__s==3u?2u:3u;do{if(__s<=1u){write_word(10);}if(__s<=1u){write_word(20);break;}if(__s<=3u){write_word(30);}}while(0);}return 0;}";

const WRONG_WORD: &[u8] =
    b"int main(void){unsigned __s;{__s=read_word();__s=__s==1u?1u:__s==2u?2u:__s==4u?2u:3u;do{if(__s<=1u){write_word(10);}if(__s<=2u){write_word(20);break;}if(__s<=3u){write_word(30);}}while(0);}return 0;}";

const WITHOUT_BREAK: &[u8] =
    b"int main(void){unsigned __s;{__s=read_word();__s=__s==1u?1u:__s==2u?2u:__s==3u?2u:3u;do{if(__s<=1u){write_word(10);}if(__s<=2u){write_word(20);}if(__s<=3u){write_word(30);}}while(0);}return 0;}";

// A `continue` in a switch in a loop.
const MARKED_LOOP: &[u8] =
    b"int main(void){int n=0;while(n<9){while(__switch)while(n){__case=4;continue;__default;n=n+1;}n=n+2;}return 0;}";

const PRINTED_LOOP: &[u8] =
    b"int main(void){unsigned __s;int n=0;while(n<9){{__s=n;__s=__s==4u?1u:2u;do{if(__s<=1u){{__s=0u;break;}}if(__s<=2u){n=n+1;}}while(0);if(__s==0u)continue;}n=n+2;}return 0;}";

const WITHOUT_CONTINUE: &[u8] =
    b"int main(void){unsigned __s;int n=0;while(n<9){{__s=n;__s=__s==4u?1u:2u;do{if(__s<=1u){{__s=0u;break;}}if(__s<=2u){n=n+1;}}while(0);}n=n+2;}return 0;}";

// A label twice.
const TWICE: &[u8] =
    b"int main(void){while(__switch)while(1){__case=1;return 1;__case=3-2;return 2;}return 0;}";

fn parsed(alloc: Global, text: &[u8]) -> Option<Unit> {
    match parse(alloc, text) {
        Ok(unit) => Some(unit),
        Err(_) => None,
    }
}

fn is_taken(alloc: Global, marked: &[u8], printed: &[u8]) -> Option<bool> {
    let marked = parsed(alloc, marked)?;
    let printed = parsed(alloc, printed)?;
    Some(is_translation(marked.externals(), printed.externals()))
}

fn has_rules(alloc: Global, marked: &[u8]) -> Option<bool> {
    let marked = parsed(alloc, marked)?;
    Some(keeps_labels(marked.externals()))
}

#[test]
fn translations_are_recognised(rt: HostRuntime) -> Result<(), Fail> {
    let alloc = rt.alloc();
    assert!(rt; is_taken(alloc, MARKED, PRINTED) == Some(true));
    assert!(rt; is_taken(alloc, MARKED, WRONG_BOUND) == Some(false));
    assert!(rt; is_taken(alloc, MARKED, WRONG_WORD) == Some(false));
    assert!(rt; is_taken(alloc, MARKED, WITHOUT_BREAK) == Some(false));
    assert!(rt; is_taken(alloc, MARKED_LOOP, PRINTED_LOOP) == Some(true));
    assert!(rt; is_taken(alloc, MARKED_LOOP, WITHOUT_CONTINUE) == Some(false));
    Ok(())
}

#[test]
fn labels_are_judged(rt: HostRuntime) -> Result<(), Fail> {
    let alloc = rt.alloc();
    assert!(rt; has_rules(alloc, MARKED) == Some(true));
    assert!(rt; has_rules(alloc, TWICE) == Some(false));
    Ok(())
}
