// The lines that are put before the output fails.

use crate::{MIN_MEMBER, sample};
use lie_outer::{Bytes, MemorySink};
use lie_work::{Failure, Outcome};
use std::test::Fail;

#[test]
fn lines_are_put_up_to_a_fault(rt: HostRuntime) -> Result<(), Fail> {
    let alloc = rt.alloc();
    let mut out = MemorySink::new(Bytes::of(alloc, b"")?, vec![in alloc; 2]?);
    let outcome = sample(alloc, MIN_MEMBER + 1, 100, &mut out);
    assert!(rt; matches!(outcome, Outcome::Failed(Failure::WriteFault)));
    assert!(rt;
        out.taken()
            .starts_with(b"2: unknowns 0, remaining 0, generators 0\n")
    );
    Ok(())
}
