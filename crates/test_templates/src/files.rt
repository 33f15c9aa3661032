//! What constants hold.

use ng_ast::{Member, MemberKind};
use ng_declare::{Entry, read_file};
use std::test::Fail;

// The first member of a service in JSON, if it is a field and the service is what the file has first.
fn constant(rt: &HostRuntime, text: &str) -> Result<Vec<u8>, Fail> {
    if text.len() > 1048576 {
        return Ok(Vec::new(rt.alloc()));
    }
    if let Ok(entries) = read_file(rt.alloc(), text.as_bytes()) {
        if let Some(Entry::Service(service)) = entries.as_slice().first() {
            if let Some(
                Member {
                    kind: MemberKind::Field(value),
                    ..
                },
            ) = service.members.as_slice().first()
            {
                return Ok(value.json_of(rt.alloc())?);
            }
        }
    }
    Ok(Vec::new(rt.alloc()))
}

#[test]
fn constants(rt: HostRuntime) -> Result<(), Fail> {
    for (text, expected) in [
        (
            "service S { field a = {b: 1, c: 2, b: 3}; }",
            "{\"b\":3,\"c\":2}",
        ),
        ("service S { field a = {'b': 1, b: [-2]}; }", "{\"b\":[-2]}"),
        ("service S { field a = -0; }", "0"),
        (
            "service S { field a = [undefined, 'a\\n']; }",
            "[null,\"a\\n\"]",
        ),
    ] {
        assert_eq!(rt;
            constant(&rt, text)?.as_slice(),
            expected.as_bytes(),
            "{text}"
        );
    }
    Ok(())
}
