//! Bodies of stream 7, of their shapes and not, and what they ask the recipes for.

use crate::shapes::{asked, is_refused};
use gem_shapes::{RecipesRequest, Request, is_known, is_known_stream};
use gl_base::{NoMemory, Row};
use std::alloc::Global;
use std::test::Fail;

// Whether it asks for the recipe of this name.
fn asks(request: &Request<'_>, wanted: &[u8]) -> bool {
    match request {
        Request::OfRecipes(RecipesRequest::Ask(name)) => name.bytes() == wanted,
        _ => false,
    }
}

// Whether it sends a recipe of this name and body.
fn sends(request: &Request<'_>, wanted: &[u8], behind: &[u8]) -> bool {
    match request {
        Request::OfRecipes(RecipesRequest::Send { name, body }) => {
            name.bytes() == wanted && body.bytes() == behind
        }
        _ => false,
    }
}

fn inquires(request: &Request<'_>, wanted: &[u8], long: u32) -> bool {
    match request {
        Request::OfRecipes(RecipesRequest::Inquire { name, length }) => {
            name.bytes() == wanted && *length == long
        }
        _ => false,
    }
}

// Whether it deletes so many recipes.
fn deletes(request: &Request<'_>, count: usize) -> bool {
    match request {
        Request::OfRecipes(RecipesRequest::Delete(names)) => names.len() == count,
        _ => false,
    }
}

fn lists(request: &Request<'_>) -> bool {
    matches!(request, Request::OfRecipes(RecipesRequest::List))
}

// An A of so many bytes.
fn name_of(alloc: Global, long: u8) -> Result<Row<u8>, NoMemory> {
    let mut body = Row::of(alloc, &[0x41, long])?;
    for _ in 0..long {
        body.push(0x52)?;
    }
    Ok(body)
}

// A recipe R1 whose body is a list in so many lists.
fn nested(alloc: Global, deep: u8) -> Result<Row<u8>, NoMemory> {
    let mut body = Row::of(alloc, &[0x01, 0x02, 0x41, 0x02, 0x52, 0x31])?;
    for _ in 0..deep {
        body.extend(&[0x01, 0x01])?;
    }
    body.extend(&[0x01, 0x00])?;
    Ok(body)
}

fn is_name(alloc: Global, long: u8) -> bool {
    match name_of(alloc, long) {
        Ok(body) => !is_refused(alloc, 7, 5, body.as_slice()),
        Err(NoMemory) => false,
    }
}

fn may_nest(alloc: Global, deep: u8) -> bool {
    match nested(alloc, deep) {
        Ok(body) => !is_refused(alloc, 7, 3, body.as_slice()),
        Err(NoMemory) => false,
    }
}

#[test]
fn a_name_has_1_to_80_bytes(rt: HostRuntime) -> Result<(), Fail> {
    let alloc = rt.alloc();
    assert!(rt; asks(&asked(alloc, 7, 5, &[0x41, 0x01, 0x52]), &[0x52]));
    assert!(rt;
        is_refused(alloc, 7, 5, &[0x41, 0x00]) && is_refused(alloc, 7, 5, &[0x21, 0x01, 0x52])
    );
    assert!(rt; is_name(alloc, 80) && !is_name(alloc, 81));
    Ok(())
}

#[test]
fn a_body_is_kept_as_it_came(rt: HostRuntime) -> Result<(), Fail> {
    let alloc = rt.alloc();
    let plain = [0x01, 0x02, 0x41, 0x02, 0x52, 0x31, 0x21, 0x02, 0x01, 0x02];
    assert!(rt;
        sends(
            &asked(alloc, 7, 3, &plain),
            &[0x52, 0x31],
            &[0x21, 0x02, 0x01, 0x02]
        )
    );
    // more length bytes than it needs
    let longer = [
        0x01, 0x02, 0x41, 0x02, 0x52, 0x31, 0x42, 0x00, 0x02, 0x41, 0x42,
    ];
    assert!(rt;
        sends(
            &asked(alloc, 7, 3, &longer),
            &[0x52, 0x31],
            &[0x42, 0x00, 0x02, 0x41, 0x42]
        )
    );
    // and in the head and the name before it
    let before = [0x02, 0x00, 0x02, 0x42, 0x00, 0x02, 0x52, 0x31, 0x21, 0x00];
    assert!(rt; sends(&asked(alloc, 7, 3, &before), &[0x52, 0x31], &[0x21, 0x00]));
    Ok(())
}

#[test]
fn s7f3_has_two_elements(rt: HostRuntime) -> Result<(), Fail> {
    let alloc = rt.alloc();
    let third = [0x01, 0x03, 0x41, 0x02, 0x52, 0x31, 0x21, 0x00, 0x21, 0x00];
    let further = [0x01, 0x02, 0x41, 0x02, 0x52, 0x31, 0x21, 0x00, 0x00];
    let broken = [0x01, 0x02, 0x41, 0x02, 0x52, 0x31, 0x21, 0x02, 0x01];
    assert!(rt; is_refused(alloc, 7, 3, &third) && is_refused(alloc, 7, 3, &further));
    assert!(rt;
        is_refused(alloc, 7, 3, &broken) && is_refused(alloc, 7, 3, &[0x01, 0x01, 0x41, 0x01, 0x52])
    );
    assert!(rt; is_refused(alloc, 7, 3, &[0x01, 0x02, 0x41, 0x00, 0x21, 0x00]));
    Ok(())
}

#[test]
fn a_body_nests_63_deep(rt: HostRuntime) -> Result<(), Fail> {
    let alloc = rt.alloc();
    assert!(rt; may_nest(alloc, 62) && !may_nest(alloc, 63));
    Ok(())
}

#[test]
fn the_others_have_their_shapes(rt: HostRuntime) -> Result<(), Fail> {
    let alloc = rt.alloc();
    let inquiry = [
        0x01, 0x02, 0x41, 0x01, 0x52, 0xB1, 0x04, 0x00, 0x00, 0x00, 0x07,
    ];
    assert!(rt; inquires(&asked(alloc, 7, 1, &inquiry), &[0x52], 7));
    let two = [0x01, 0x02, 0x41, 0x01, 0x52, 0xA5, 0x02, 0x01, 0x02];
    assert!(rt; is_refused(alloc, 7, 1, &two));
    let names = [0x01, 0x02, 0x41, 0x01, 0x52, 0x41, 0x01, 0x52];
    assert!(rt; deletes(&asked(alloc, 7, 17, &[0x01, 0x00]), 0));
    assert!(rt; deletes(&asked(alloc, 7, 17, &names), 2));
    assert!(rt;
        is_refused(alloc, 7, 17, &[0x01, 0x01, 0x41, 0x00]) && is_refused(alloc, 7, 17, &[])
    );
    assert!(rt; lists(&asked(alloc, 7, 19, &[])) && lists(&asked(alloc, 7, 19, &[0x01, 0x00])));
    assert!(rt; is_refused(alloc, 7, 19, &[0x41, 0x00]));
    assert!(rt; is_known_stream(7) && is_known(7, 17) && !is_known(7, 9));
    Ok(())
}
