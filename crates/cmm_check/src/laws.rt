//! What an accepted report says. Each law stands on the definitions, so that its function does nothing.

ghost use Rattle.std.specs.Prelude.{◌≡◌, Bool, List, ℕ, All};
ghost use Rattle.cmm_types.specs.declared.event.Answer.{Answer};
ghost use Rattle.cmm_types.specs.declared.plan.Scenario.{Scenario};
ghost use Rattle.cmm_types.specs.InRange.{ScenarioInRange};
ghost use Rattle.cmm_report.specs.Report.{GuestReport, report_of};
ghost use Rattle.cmm_report.specs.JournalLines.{JournalFits, SameJournals};
ghost use Rattle.cmm_check.specs.declared.verdict.Verdict.TheVariants.{Accepted};
ghost use Rattle.cmm_check.specs.Accepted.{AreAnswers, AreLegalGuests, LegalReport};
ghost use Rattle.cmm_check.specs.Verdict.{verdict_of};

/// An accepted report is the text of journals that are legal, and of no others: whatever journals it is the text of,
/// they have the processors, numbers and replies of those.
pub fn accepted_reports_are_legal()
    ensures legal { (plan : Scenario) (report : List ℕ) → verdict_of plan report ≡ Accepted → LegalReport plan report }
    ensures no_others { (plan : Scenario) (run : Bool) (answers : List Answer) (guests : List GuestReport) → ScenarioInRange plan → All JournalFits guests
        → verdict_of plan (report_of run answers guests) ≡ Accepted → (legal : List GuestReport) × (a_run : Bool) × AreLegalGuests a_run plan.guests legal × SameJournals guests legal }
{}

/// The text of any answers and journals that are legal is accepted.
pub fn legal_reports_are_accepted()
    ensures { (plan : Scenario) (run : Bool) (answers : List Answer) (guests : List GuestReport) → ScenarioInRange plan → AreAnswers run plan answers
        → AreLegalGuests run plan.guests guests → verdict_of plan (report_of run answers guests) ≡ Accepted }
{}
