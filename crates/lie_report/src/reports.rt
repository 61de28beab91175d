// What a report is.
use lie_bytes::Text;
use lie_jet::{Field, Space};
use lie_lin::LinSystem;
use lie_ring::Ratio;

/// The commutators of generators: for each pair of them, the pairs in lexicographic order, the combination of the generators that is
/// their commutator, as one ratio for each generator.
#[derive(Drop)]
pub struct Table {
    pub entries: Vec<Vec<Ratio>>,
}

/// A basis of a finite set of fields, and the commutators of its members.
#[derive(Drop)]
pub struct Found {
    pub fields: Vec<Field>,
    pub table: Table,
}

/// A report. The names are the letters of the variables, the independent ones first.
#[derive(Drop)]
pub enum Report {
    /// The determining equations.
    Determining {
        names: Text,
        system: LinSystem,
    },
    /// The last state of a run, and the symmetries, where there are finitely many.
    Symmetries {
        names: Text,
        system: LinSystem,
        found: Option<Found>,
    },
    /// The fields whose components have at most the total degree `most`.
    Degree {
        names: Text,
        space: Space,
        most: u8,
        fields: Vec<Field>,
    },
}
