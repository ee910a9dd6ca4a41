// What holds for texts from before there were arrays of `unsigned char`, according to the clauses of that time and to those of today.

ghost use Rattle.cc_earlier.specs.Texts.{EarlierTreesStay, NoTreeIsNew, EarlierRulesStay, EarlierMeaningStays};
ghost use Rattle.cc_earlier.specs.Images.{EarlierImagesAgree, EarlierImagesAgreeInWords, EarlierProgramsStay, EarlierUnitsStay, NoAgreementIsNew, NoWordsAgreementIsNew};

use cc_syntax::trees_are_determined;
use cc_tokens::tokens_are_determined;

/// A text that had a tree before there were arrays of `unsigned char` still has it and no other one. It keeps the rules and limits that
/// it kept, and each clause of the meaning does the same on it as before. A text without the word `char` has no tree now that it did not
/// have then.
pub fn earlier_texts_stay()
    ensures trees { EarlierTreesStay }
    ensures none_new { NoTreeIsNew }
    ensures rules { EarlierRulesStay }
    ensures meaning { EarlierMeaningStays }
{
    tokens_are_determined();
    trees_are_determined();
}

/// A text that had a typed unit before there were arrays of `unsigned char` still has it, and its program does what it did. An image that
/// agreed with the text still agrees with it. If a text does not have the word `char`, no image agrees with it now that did not agree
/// then. Both hold with reads, and in the words alone.
pub fn earlier_images_agree()
    ensures units { EarlierUnitsStay }
    ensures programs { EarlierProgramsStay }
    ensures images { EarlierImagesAgree }
    ensures none_new { NoAgreementIsNew }
    ensures images_in_words { EarlierImagesAgreeInWords }
    ensures none_new_in_words { NoWordsAgreementIsNew }
{
    tokens_are_determined();
    earlier_texts_stay();
}
