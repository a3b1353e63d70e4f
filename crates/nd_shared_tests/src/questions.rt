//! Questions to the first version of a tree in rows.
use crate::rows::{ask, list, start};
use pls_vectors::Vector;
use std::alloc::AllocError;

#[test]
fn an_empty_leaf_has_no_point(rt: HostRuntime) -> Result<(), AllocError> {
    let (rows, mut pass) = start(rt.alloc(), 3, 64)?;
    let asked = ask(&rows, &mut pass, &Vector::from_places(3, [3, 1, -2, 0]));
    assert_eq!(&rt; asked, (false, false), "the first version has no point");
    Ok(())
}

#[test]
fn an_empty_leaf_gives_no_point(rt: HostRuntime) -> Result<(), AllocError> {
    let (rows, mut pass) = start(rt.alloc(), 3, 64)?;
    let members = list(rt.alloc(), &rows, &mut pass)?;
    assert!(&rt;
        members.as_slice().is_empty(),
        "the first version has no point"
    );
    Ok(())
}
