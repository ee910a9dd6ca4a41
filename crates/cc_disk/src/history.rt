// A history that only contracts read. It takes no memory, and its methods do nothing at run time.

ghost use Rattle.std.specs.Prelude.{◌≡◌, List, [], ◌∷◌, ◌++◌};
ghost use Rattle.std.specs.Borrow.{ftrue};

use std::marker::{Model, PhantomData};

/// What has happened so far, newest last. A clause sees it as `items`.
#[derive(Drop)]
pub struct History<T> {
    of: PhantomData<T>,
    pub ghost items: { List T },
}

impl<T> Model for History<T> {
    ghost also_owns = { λ _. ftrue };
}

impl<T> History<T> {
    /// Returns a history in which nothing has happened.
    pub fn new() -> History<T>
        ensures { result.items ≡ [] }
    {
        History { of: PhantomData }
    }

    /// Returns the history with one more event.
    pub fn and(&self, newest: &T) -> History<T>
        ensures { result.items ≡ self.now.items ++ newest.now ∷ [] }
    {
        History { of: PhantomData }
    }
}
