// What the texts of reports say.
ghost use Rattle.lie_read_report.specs.ReadReports.{HaveOneReport};

/// One text has one report: well formed reports with the same text are the same.
pub fn texts_have_one_report()
    ensures { HaveOneReport }
{}
