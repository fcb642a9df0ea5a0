//! Functions that are `async`, which no document declares.

use crate::choices::Choices;
use crate::definition::{Kind, Shape};
use crate::tables::{package, reads, told};
use std::alloc::Global;
use std::test::Fail;

fn bare(alloc: Global, shape: Shape) -> Kind {
    Kind {
        shape,
        name: "",
        imports: Vec::new(alloc),
        parts: Vec::new(alloc),
    }
}

#[test]
fn async_functions_are_others(rt: HostRuntime) -> Result<(), Fail> {
    let alloc = rt.alloc();
    let kinds = [bare(alloc, Shape::Func), bare(alloc, Shape::AsyncFunc)];
    let mut choices = Choices::new(0);
    match package(alloc, &mut choices, &kinds) {
        Err(_) => assert!(rt; false, "the kinds make no package"),
        Ok(package) => {
            let found = told(alloc, &package, "k0", "k1")?;
            assert!(rt;
                reads(
                    &found,
                    "expected async function, found function that isn't async"
                )
            );
            let found = told(alloc, &package, "k1", "k0")?;
            assert!(rt;
                reads(
                    &found,
                    "expected function that isn't async, found async function"
                )
            );
        }
    }
    Ok(())
}
