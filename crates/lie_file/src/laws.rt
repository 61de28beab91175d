//! Laws of the grammar of equation files.
ghost use Rattle.std.specs.Prelude.{ℕ, List, ◌≡◌, ◌⊎◌, ◌+◌, length};
ghost use Rattle.lie_scan.specs.declared.fault.ReadFail.{ReadFail as AFault};
ghost use Rattle.lie_system.specs.Systems.{SystemRead};
ghost use Rattle.lie_system.specs.Written.{IsWrittenSystem};
ghost use Rattle.lie_file.specs.FileGrammar.{IsFile};
ghost use Rattle.lie_file.specs.FileFaults.{IsFault, IsPlaceIn};
ghost use Rattle.lie_scan.specs.declared.fault.BadFile.{BadFile as ABadFile};
ghost use Rattle.lie_scan.specs.declared.fault.BadKind.TheVariants.{TooLong as IsTooLong};
ghost use Rattle.lie_scan.specs.declared.fault.ReadFail.TheVariants.{Bad as ABad};

/// A text of any length is the file of one system at most.
pub fn files_have_one_system()
    ensures { (bytes : List ℕ) (s t : SystemRead) → IsFile bytes s → IsFile bytes t → s ≡ t }
{}

/// The system of a file has a name for each variable, as reading a field text asks.
pub fn systems_name_each_variable()
    ensures { (bytes : List ℕ) (s : SystemRead) → IsFile bytes s → length s.names ≡ s.space.p + s.space.q }
{}

/// The system of a file can be written: its names are letters that differ, and its equations have two sides within the limits.
pub fn file_systems_are_written()
    ensures { (bytes : List ℕ) (s : SystemRead) → IsFile bytes s → IsWrittenSystem s }
{}

/// A text has one first fault at most.
pub fn texts_have_one_fault()
    ensures { (bytes : List ℕ) (f g : AFault) → IsFault bytes f → IsFault bytes g → f ≡ g }
{}

/// A text is the file of a system and has no fault, or it has a fault.
pub fn texts_have_a_system_or_a_fault()
    ensures { (bytes : List ℕ) → ((s : SystemRead) × IsFile bytes s × ((f : AFault) → IsFault bytes f → ⊥))
        ⊎ ((f : AFault) × IsFault bytes f) }
{}

/// The place of a fault is one in the text, its line and column counted from what stands before it, unless the text is too long.
pub fn faults_have_places()
    ensures { (bytes : List ℕ) (bad : ABadFile) → IsFault bytes (ABad bad) → ¬ (bad.kind ≡ IsTooLong) → IsPlaceIn bytes bad }
{}
