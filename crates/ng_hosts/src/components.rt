//! The components of an application.

ghost use Rattle.std.specs.Prelude.{◌≡◌, ◌++◌, map, OnOk, IfOk};
ghost use Rattle.ng_hosts.specs.Hosts as spec;

use ng_ast::{Component, Decl};
use std::alloc::{AllocError, Global};

fn push_component<'a>(decl: &'a Decl, found: &mut Vec<&'a Component>) -> Result<(), AllocError>
    ensures { OnOk result (map (λ c. c.now) found.new.items ≡ map (λ c. c.now) found.old.items ++ spec.component_in decl.now) }
{
    match decl {
        Decl::Component(component) => {
            found.push(component)?;
            Ok(())
        }
        Decl::Service(_) => Ok(()),
        Decl::Pipe(_) => Ok(()),
        Decl::Environment(_) => Ok(()),
        Decl::Token(_, _) => Ok(()),
        Decl::Bootstrap(_, _, _) => Ok(()),
    }
}

/// The components among `decls`, in their order. They are lent and not copied. The only error is want of memory.
pub fn components_of(alloc: Global, decls: &[Decl]) -> Result<Vec<&Component>, AllocError>
    ensures { IfOk result (λ found. map (λ c. c.now) found.items ≡ spec.components decls.now) }
{
    let mut found = Vec::new(alloc);
    for decl in decls {
        push_component(decl, &mut found)?;
    }
    Ok(found)
}
