// What holds for translations.

ghost use Rattle.cc_translate.specs.Translates.{FollowersFollow, TranslationsDo};

use cc_syntax::trees_are_determined;
use cc_tokens::tokens_are_determined;
use cc_wide::translations_do_the_same;
use cc_wide_text::wide_trees_are_one;

/// Shows that a translation does what the wide text does, and that whatever follows the former in a mode follows the latter.
pub fn translated_texts_do_the_same()
    ensures same { TranslationsDo }
    ensures follow { FollowersFollow }
{
    tokens_are_determined();
    trees_are_determined();
    wide_trees_are_one();
    translations_do_the_same();
}
