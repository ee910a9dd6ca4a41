// How many tokens of a full expression have been read.

ghost use Rattle.std.specs.Prelude.{◌≡◌, ◌≤◌, suc, MatchOption};

/// The largest number of tokens that a full expression may have.
pub const MOST_TOKENS: usize = 512;

/// How many tokens of the full expression have been read; never more than the limit.
#[derive(Clone, Copy)]
pub struct Count {
    pub tokens: usize,
    ghost limit: { tokens ≤ 512 },
}

impl Count {
    /// The count after one more token, or `None` if that exceeds the limit.
    pub fn next(self) -> Option<Count>
        ensures { MatchOption result (512 ≤ self.tokens) (λ more. more.tokens ≡ suc self.tokens) }
    {
        if self.tokens < MOST_TOKENS {
            Some(Count {
                tokens: self.tokens + 1,
            })
        } else {
            None
        }
    }
}
