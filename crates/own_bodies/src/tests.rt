use super::*;
use own_tree::{Binding, Bytes, Mode, Row, Span, Ty};
use std::alloc::{AllocError, Global};
use std::test::*;

/// Bindings by their bodies.
fn bindings_by(alloc: Global, bodies: &[u32]) -> Result<Row<Binding>, AllocError> {
    let mut bindings = Row::new(alloc);
    for body in bodies {
        bindings.push(Binding {
            name: Bytes::new(alloc),
            ty: Ty::Int,
            mode: Mode::Let,
            span: Span { start: 0, end: 1 },
            body: *body,
        })?;
    }
    Ok(bindings)
}

/// A body, and the numbers of its bindings among those of these bodies.
const BODIES: &[u32] = &[1, 0, 1, 2, 1];

const DECLARED: &[(u32, &[u32])] = &[(0, &[1]), (1, &[0, 2, 4]), (2, &[3]), (3, &[])];

#[test]
fn each_body_has_its_bindings(rt: HostRuntime) -> Result<(), Fail> {
    let alloc = rt.alloc();
    let bindings = bindings_by(alloc, BODIES)?;
    let index = BodyBindings::new(alloc, bindings.as_slice(), 3)?;
    for (body, numbers) in DECLARED {
        let alone = bindings_of(alloc, bindings.as_slice(), *body)?;
        assert!(rt; index.numbers(*body) == *numbers && alone.as_slice() == *numbers);
    }
    Ok(())
}
