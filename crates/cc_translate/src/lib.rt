//! A text of wide C as a text of the profile, which is proved to do the same.
//!
//! `cc_wide_text` reads the wide text, `cc_wide_print` prints it, and `parse` and `check` read what has been printed, as any text of
//! the profile. Nobody trusts the printer: `cc_wide_check` decides from the two trees whether the one is a translation of the other.
//! If it is not, the text is refused with 42.
//!
//! - `translating`: the one call, with and without the wide text in comments.
//! - `carrying`: the wide text that a text of the profile carries.
//! - `confirming`: whether a text is a translation of what it carries.
//! - `fault`: why a text is not translated.
#![tactic(auto)]

mod carrying;
mod confirming;
mod fault;
mod laws;
mod translating;

pub use carrying::carried;
pub use confirming::confirmed;
pub use fault::TranslateFault;
pub use laws::translated_texts_do_the_same;
pub use translating::{Translation, translate, translate_bare};
