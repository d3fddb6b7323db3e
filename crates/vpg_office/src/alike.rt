//! Past and future pages with the verdicts of the present page.
ghost use Rattle.std.specs.Prelude.{◌≡◌};
ghost use Rattle.vpg_desk.specs.Book.{Book};
ghost use Rattle.vpg_desk.specs.Desk.{family_of};
ghost use Rattle.vpg_desk.specs.Setting.{Setting};
ghost use Rattle.vpg_office.specs.Told.{AgreeOnTops, AreAlike, Leads};
ghost use Rattle.vpg_office.specs.declared.asked.SessionCall.{SessionCall as Call};

use crate::asked::Answer;

/// Two numbers of pages known to have the present page's verdicts: the newest past ones, and the nearest future ones.
#[derive(Clone, Copy)]
pub struct Alike {
    pub(crate) past: u32,
    pub(crate) future: u32,
}

impl Alike {
    /// Returns how many are known after a call with this answer that left the verdicts.
    pub(crate) fn after(self, answer: &Answer) -> Alike
        ensures { (setting : Setting) (old new : Book) (asked : Call) →
            Leads (family_of setting) old asked answer.now new →
            AgreeOnTops (family_of setting) old.present new.present →
            AreAlike (family_of setting) old self → AreAlike (family_of setting) new result }
    {
        match answer {
            Answer::Changed { .. } => Alike {
                past: self.past.saturating_add(1),
                future: 0,
            },
            Answer::Undone { .. } => Alike {
                past: self.past.saturating_sub(1),
                future: self.future.saturating_add(1),
            },
            Answer::Redone { .. } => Alike {
                past: self.past.saturating_add(1),
                future: self.future.saturating_sub(1),
            },
            _ => self,
        }
    }
}
