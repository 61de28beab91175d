//! Laws of canonical texts.
ghost use Rattle.std.specs.Prelude.{◌≡◌};
ghost use Rattle.lie_system.specs.Systems.{SystemRead};
ghost use Rattle.lie_system.specs.Written.{IsWrittenSystem};
ghost use Rattle.lie_system.specs.LeadsAlone.{with_leads};
ghost use Rattle.lie_file.specs.FileGrammar.{IsFile};
ghost use Rattle.lie_canonical.specs.CanonicalText.{canonical_text};

/// The canonical text of a written system, as that of a file is, is the file of that system, where an equation that is a derivative
/// alone has it as its lead.
pub fn canonical_texts_are_files()
    ensures { (s : SystemRead) → IsWrittenSystem s → IsFile (canonical_text s) (with_leads s) }
{}

/// The canonical text of a written system stays the same where an equation that is a derivative alone has it as its lead.
pub fn canonical_texts_stay_with_leads()
    ensures { (s : SystemRead) → IsWrittenSystem s → canonical_text (with_leads s) ≡ canonical_text s }
{}
