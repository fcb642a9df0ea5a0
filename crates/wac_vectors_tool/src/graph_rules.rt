//! Which kinds and which names pass.

use crate::graph_building::BYTE;
use std::test::Fail;
use wac_graph::{ItemKind, PrimitiveType, Reason, Rules, Type, Types, ValueType};
use wac_tool_graphs::SameRules;

const CHAR: ValueType = ValueType::Primitive(PrimitiveType::Char);

#[test]
fn equal_kinds_pass(rt: HostRuntime) -> Result<(), Fail> {
    let types = Types::new(rt.alloc());
    let rules = SameRules::new(rt.alloc());
    let byte = ItemKind::Value(BYTE);
    assert!(rt; rules.subtype(&types, byte, byte) == Ok(()), "u8");
    for other in [ItemKind::Value(CHAR), ItemKind::Ty(Type::Value(BYTE))] {
        let found = rules.subtype(&types, byte, other);
        assert!(rt; found == Err(Reason(1)), "of {}", other.desc());
    }
    for name in ["", "a", "a:b/c@1.0.0"] {
        assert!(rt; rules.extern_name(name) == Ok(()), "of {name}");
    }
    Ok(())
}
