//! Laws of the grammar of field texts.
ghost use Rattle.std.specs.Prelude.{ℕ, List, ◌≡◌, ◌≤◌, ◌⊎◌, ◌+◌, length};
ghost use Rattle.std.specs.Int.{◌∣◌};
ghost use Rattle.std.specs.List.{AllByRecursion as Every};
ghost use Rattle.lie_math.specs.VectorField.{VectorField};
ghost use Rattle.lie_geometry.specs.Coordinates.{Space};
ghost use Rattle.lie_scan.specs.declared.fault.BadFile.{BadFile as ABadFile};
ghost use Rattle.lie_scan.specs.declared.fault.BadKind.TheVariants.{TooLong as IsTooLong};
ghost use Rattle.lie_scan.specs.declared.fault.ReadFail.{ReadFail as AFault};
ghost use Rattle.lie_scan.specs.declared.fault.ReadFail.TheVariants.{Bad as ABad};
ghost use Rattle.lie_fieldtext.specs.declared.field_term.FieldTerm.{FieldTerm as ATerm};
ghost use Rattle.lie_fieldtext.specs.FieldMeaning.{common_denominator};
ghost use Rattle.lie_fieldtext.specs.FieldGrammar.{IsFieldText};
ghost use Rattle.lie_fieldtext.specs.FieldFaults.{IsFieldFault, IsFieldPlaceIn};

/// A text of any length is that of one field at most.
pub fn texts_have_one_field()
    ensures { (space : Space) (names bytes : List ℕ) (V W : VectorField)
        → IsFieldText space names bytes V → IsFieldText space names bytes W → V ≡ W }
{}

/// A text has one first fault as a field text at most.
pub fn field_texts_have_one_fault()
    ensures { (names bytes : List ℕ) (f g : AFault) → IsFieldFault names bytes f → IsFieldFault names bytes g → f ≡ g }
{}

/// With a name for each variable, a text is that of a field and has no fault, or it has a fault.
pub fn texts_have_a_field_or_a_fault()
    ensures { (space : Space) (names bytes : List ℕ) → length names ≡ space.p + space.q
        → ((V : VectorField) × IsFieldText space names bytes V × ((f : AFault) → IsFieldFault names bytes f → ⊥))
        ⊎ ((f : AFault) × IsFieldFault names bytes f) }
{}

/// The place of a fault is one in the text, its column counted from what stands before it, and what is wrong begins there, unless the
/// text is too long.
pub fn field_faults_have_places()
    ensures { (names bytes : List ℕ) (bad : ABadFile) → IsFieldFault names bytes (ABad bad) → ¬ (bad.kind ≡ IsTooLong)
        → IsFieldPlaceIn names bytes bad }
{}

/// The common denominator of terms is the least: each of their denominators divides it, and it divides each number that they all divide.
pub fn common_denominators_are_least()
    ensures { (terms : List ATerm) → Every (λ t. 1 ≤ t.over) terms
        → Every (λ t. t.over ∣ common_denominator terms) terms
        × ((k : ℕ) → Every (λ t. t.over ∣ k) terms → common_denominator terms ∣ k) }
{}
