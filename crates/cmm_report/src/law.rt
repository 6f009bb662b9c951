//! What the text of a journal and the text of a report determine. Each law stands on the definitions, so that its
//! function does nothing.

ghost use Rattle.std.specs.Prelude.{◌≡◌, Bool, List, All};
ghost use Rattle.cmm_types.specs.declared.event.Answer.{Answer};
ghost use Rattle.cmm_types.specs.declared.command.Entry.{Entry};
ghost use Rattle.cmm_report.specs.Report.{GuestReport, journal_text, report_of};
ghost use Rattle.cmm_report.specs.JournalLines.{EntryFits, SameLines, JournalFits, SameJournals};

/// Journals with one text have the same processor, number and reply at each place, and those alone make the text:
/// it leaves the commands out. A reply of no bytes is told from a plain `ok` by the space behind that word.
pub fn text_determines_journal()
    ensures determines { (journal other : List Entry) → All EntryFits journal → All EntryFits other → journal_text journal ≡ journal_text other → SameLines journal other }
    ensures no_more { (journal other : List Entry) → SameLines journal other → journal_text journal ≡ journal_text other }
{}

/// Reports with one text are of as many guests, and each guest's journals have the same lines, whatever the reports
/// say before and between: the kind of a line is known by its first letters.
pub fn text_determines_journals()
    ensures { (run other_run : Bool) (answers other_answers : List Answer) (guests others : List GuestReport) → All JournalFits guests → All JournalFits others
        → report_of run answers guests ≡ report_of other_run other_answers others → SameJournals guests others }
{}
