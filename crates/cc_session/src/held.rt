// How far a script may go: the bound on its lines, and the bound on the bytes of the receipts that its client got for them. Both
// are counted as the script goes on.

ghost use Rattle.cc_history.specs.History.{MemberView};
ghost use Rattle.cc_session.specs.Playing.{Grows};
ghost use Rattle.cc_session.specs.internal.Steps.{CountsSince, IsLimit};

use crate::patience::Patience;
use cc_script::ScriptFault;
use cc_service::{Client, Named};

// If a script has a bound, another line begins only if the script's receipts hold at most this many bytes.
const MOST_HELD: u64 = 268_435_456;

// The bytes of the receipts that a client got since a script was begun, and how many receipts the client had when they were last
// counted.
#[derive(Drop)]
pub(crate) struct Held {
    seen: usize,
    bytes: u64,
}

impl Held {
    // The count for a script that has not begun.
    #[tactic(auto, using(crate::proofs::Weighing::counts_none))]
    pub(crate) fn new<N: Named>(client: &Client<N>) -> Held
        ensures { CountsSince client.now.member.receipts client.now.member.receipts result }
    {
        Held {
            seen: client.receipts().len(),
            bytes: 0,
        }
    }

    // Counts the receipts that the client has got since they were last counted.
    #[tactic(auto, using(crate::proofs::Weighing::counts_on))]
    pub(crate) fn count<N: Named>(&mut self, client: &Client<N>)
        ensures { (first old : MemberView) → CountsSince first.receipts old.receipts self.old → Grows old client.now.member
            → CountsSince first.receipts client.now.member.receipts self.new }
    {
        self.bytes = self.bytes.saturating_add(client.held_since(self.seen));
        self.seen = client.receipts().len();
    }

    // The fault that ends a script after this many lines if more of the script is left; none if another line may be done.
    #[tactic(auto, using(crate::proofs::Weighing::much, crate::proofs::Weighing::light))]
    pub(crate) fn limit<P: Patience>(
        &self,
        most: Option<usize>,
        lines: usize,
        patience: &P,
    ) -> Option<ScriptFault>
        ensures { (first now : MemberView) → CountsSince first.receipts now.receipts self.now → IsLimit most first lines now result }
    {
        match most {
            Some(most) if most == lines || MOST_HELD < self.bytes => {
                Some(ScriptFault::ScriptTooLong)
            }
            Some(_) if 0 < lines && patience.is_out() => Some(ScriptFault::Stopped),
            Some(_) | None => None,
        }
    }
}
