// Leads as keys.
ghost use Rattle.std.specs.Prelude.{◌≡◌};
ghost use Rattle.lie_jet.specs.Derivatives.{derivative_of};
ghost use Rattle.lie_tables.specs.Tables.{lead_of};

use lie_jet::Der;

/// A derivative as a key of a table.
#[derive(Clone, Copy, PartialEq, Eq, Hash, Debug)]
pub struct Lead {
    unknown: u32,
    counts: [u8; 8],
}

/// A derivative as a key.
pub fn key_of(der: &Der) -> Lead
    ensures { result ≡ lead_of (derivative_of der.now) }
{
    Lead {
        unknown: der.unknown,
        counts: der.counts,
    }
}
