// Texts from before there were arrays of `unsigned char` keep their meaning: the contracts of these calls are the laws, and the
// calls do nothing.

use cc_earlier::{earlier_images_agree, earlier_texts_stay};

#[test]
fn laws() {
    earlier_texts_stay();
    earlier_images_agree();
}
