//! Calls of sessions, and how the desk carries them out.
ghost use Rattle.std.specs.Prelude.{◌≡◌, ◌+◌, ◌≤◌};

use crate::asked::{Answer, SessionCall};
use crate::front::{Front, Own};
use crate::purse::Purse;
use crate::terms::Terms;
use std::alloc::Global;
use std::sync::ledger::Share;
use vpg_desk::Desk;
use vpg_faults::{Refuses, Returned};

/// The desk's result of a call, and its answer.
pub struct Made<T> {
    pub(crate) given: T,
    pub(crate) answer: Answer,
}

/// The token that the desk gave, and the share that goes with it.
pub struct Issued<L: Terms, T> {
    pub(crate) token: T,
    pub(crate) share: Share<L>,
}

/// A call as the log keeps it, with the front that the log has to have for it, and the allocator of a call that changes
/// the page, for its sheet.
pub struct Asked<L: Terms> {
    pub(crate) call: SessionCall,
    pub(crate) own: Option<Own<L>>,
    pub(crate) sheet: Option<Global>,
}

/// A desk's result, which becomes a `G` once its call is in the log.
pub trait AtFront<L: Terms, G> {
    ghost use Rattle.std.specs.Prelude.{◌≡◌, List};
    ghost use Rattle.vpg_desk.specs.Book.{Reply};
    ghost use Rattle.vpg_desk.specs.History.{Event};
    ghost use Rattle.vpg_office.specs.Token.{EndsWith};

    /// The reply that gives it.
    ghost Fits: { Self → Reply → Type 0 };

    /// Its value at a front.
    ghost placed: { Self → List Event → G };

    /// Returns it at the front that ends with its call.
    fn at(self, front: &Front<L>) -> G
        requires { EndsWith (Fits self) front.now }
        ensures { result ≡ placed self front.now };
}

impl<L: Terms, T> AtFront<L, T> for T {
    ghost use Rattle.std.specs.Prelude.{⊤};

    ghost Fits = { λ value reply. ⊤ };

    ghost placed = { λ value front. value };

    fn at(self, _front: &Front<L>) -> T {
        self
    }
}

/// A call that a session makes.
pub trait Call<L: Terms> {
    ghost use Rattle.std.specs.Prelude.{◌≡◌, ◌≤◌, List, Option, None, ⊤, IfOk, IfErr, IfSome, OnErr};
    ghost use Rattle.vpg_desk.specs.Book as book;
    ghost use Rattle.vpg_desk.specs.History.{Event};
    ghost use Rattle.vpg_faults.specs.Refusals.{told_by};
    ghost use Rattle.vpg_desk.specs.State.{IsOpened};
    ghost use Rattle.vpg_office.specs.Fronts.{family_between};
    ghost use Rattle.vpg_office.specs.Made.{IsLast, IsMade, IsRefused};
    ghost use Rattle.vpg_office.specs.Story.{call_of, reply_of};
    ghost use Rattle.vpg_office.specs.declared.asked.SessionCall.{SessionCall};
    ghost use Rattle.vpg_office.specs.declared.front.Own.{Own};

    /// The value that the caller gets.
    type Given;

    /// The desk's result.
    type Made: AtFront<L, Self::Given>;

    /// Why the desk refuses it.
    type Refused: Refuses;

    /// The call as the log keeps it.
    ghost asks: { Self → SessionCall };

    /// The desk's call, if it is made.
    ghost means: { Self → book.Call };

    /// The desk's reply to it.
    ghost replies: { Self.Given → book.Reply };

    /// The front that the log has to have: that of the call's token.
    ghost owns: { Self → Option (Own L) } = { λ c. None };

    /// When it may be made.
    ghost Takes: { Self → Type 0 } = { λ c. ⊤ };

    /// Further facts about what the caller gets, by the front that ends with the call.
    ghost Gives: { Self → List Event → Self.Given → Type 0 } = { λ c front given. ⊤ };

    /// Returns the call as the log keeps it.
    fn asked(&self) -> Asked<L>
        ensures call { result.call ≡ asks self.now }
        ensures own { result.own ≡ owns self.now };

    /// Carries the call out. If it isn't made, desk and purse stay, and it comes back, with the desk's fault, or with
    /// none if memory ran out.
    fn carry_out(
        self,
        desk: &mut Desk,
        purse: &mut Purse<L>,
        session: u32,
    ) -> Result<Made<Self::Made>, Returned<Option<Self::Refused>, Self>>
        requires of { (desk.old.game ≡ L.game) × (desk.old.diagram ≡ L.diagram) }
        requires opens { IsOpened L.game L.diagram }
        requires counted { purse.old ≡ desk.old.book.tokens }
        requires few { purse.old ≤ 1048576 }
        requires takes { Takes self }
        ensures made { IfOk result
            (λ m. IsMade L.game L.diagram desk.old session (asks self) m.answer desk.new) }
        ensures means { IfOk result (λ m. call_of (asks self) m.answer ≡ means self) }
        ensures replies { IfOk result
            (λ m. (front : List Event) →
            reply_of (family_between L.game L.diagram) desk.old.book.present m.answer
            ≡ replies (Self.Made.placed m.given front)) }
        ensures fits { IfOk result
            (λ m. Self.Made.Fits m.given
            (reply_of (family_between L.game L.diagram) desk.old.book.present m.answer)) }
        ensures gives { IfOk result
            (λ m. (front : List Event) →
            IsLast (family_between L.game L.diagram) (owns self) desk.old.book (means self)
            (replies (Self.Made.placed m.given front)) front →
            Gives self front (Self.Made.placed m.given front)) }
        ensures counted { purse.new ≡ desk.new.book.tokens }
        ensures refused { IfErr result
            (λ u. IfSome (told_by Self.Refused.refusal_of u.fault)
            (λ refusal. IsRefused L.game L.diagram desk.old (asks self) refusal)) }
        ensures same { OnErr result (desk.new ≡ desk.old) }
        ensures back { IfErr result (λ u. u.value ≡ self) };
}

/// Returns the result of a call that gives a token for a change.
pub(crate) fn issue_token<L: Terms>(
    purse: &mut Purse<L>,
    token: vpg_desk::Undo,
) -> Made<Issued<L, vpg_desk::Undo>>
    requires { purse.old ≤ 1048576 }
    ensures more { purse.new ≡ purse.old + 1 }
    ensures token { result.given.token ≡ token }
    ensures share { (result.given.share.amount ≡ 1) × (result.given.share.parts ≡ 1) }
    ensures answer { result.answer ≡ Answer.Changed result.given.token }
{
    let answer = Answer::Changed {
        serial: token.serial(),
    };
    let share = purse.issue();
    Made {
        given: Issued { token, share },
        answer,
    }
}
