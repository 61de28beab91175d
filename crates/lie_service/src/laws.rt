//! Laws of what serving leaves. Each is the contract of a function that does nothing.
ghost use Rattle.lie_service.specs.Entries.{ClosedConnectionsAreAnswers};
ghost use Rattle.lie_service.specs.Headline.{GoodAnswersAreReports};

/// A good answer is one to a request for the desk, and its body is the report of the symmetries of the request's body, where the request
/// is an analysis or a new study, or a study over honest rows.
pub fn good_answers_are_reports()
    ensures { GoodAnswersAreReports }
{}

/// Each connection that is served leaves one entry among the closed ones: the answer that is due to its bytes by the rows that the
/// connections before left, or the one for want of memory, or a part from the front of one of these; and none to no byte. At most as many
/// are answers 503 as the keeper failed, and at most as many are cut as the link failed or found no memory.
pub fn closed_connections_are_answers()
    ensures { ClosedConnectionsAreAnswers }
{}
