//! The law of verdicts.

ghost use Rattle.ep_drive.specs.Laws.{AtMostOneVerdict};

/// Does nothing: its contract states that words and a directory come to at most one verdict, so that a call whose words
/// and files are known has one refusal, with its file, cause and line, or one job.
pub fn laws_of_verdicts()
    ensures { AtMostOneVerdict }
{}
