ghost use Rattle.std.specs.Prelude.{◌≡◌, IfOk, IsTrue, Some};
ghost use Rattle.std.specs.List.{list_all};
ghost use Rattle.std.specs.Option.{option_map};
ghost use Rattle.ng_semantics.specs.Text.{look, put_at};
ghost use Rattle.ng_semantics.specs.Declared.{initial_in, initial_fields};
ghost use Rattle.ng_semantics.specs.First.{is_whole, names_of};
ghost use Rattle.ng_update.specs.Fields.{entry, world_of, names_in};

use ng_ast::{Member, MemberKind};
use ng_values::{NgText, Value};
use std::alloc::{AllocError, Global};

// A field of the component and what it holds.
#[derive(Drop)]
pub(crate) struct Field {
    name: NgText,
    value: i64,
}

// The fields of a new instance, in the order of the file.
pub(crate) fn initial(alloc: Global, members: &[Member]) -> Result<Vec<Field>, AllocError>
    requires { IsTrue (list_all (λ m. is_whole m.kind) members.now) }
    ensures values { IfOk result (λ fields. world_of fields.items ≡ initial_fields members.now) }
    ensures names { IfOk result (λ fields. names_in fields.items ≡ names_of members.now) }
{
    let mut fields = Vec::new(alloc);
    for member in members {
        fields.push(initial_field(member)?)?;
    }
    Ok(fields)
}

fn initial_field(member: &Member) -> Result<Field, AllocError>
    requires { IsTrue (is_whole member.now.kind) }
    ensures value { IfOk result (λ field. initial_in member.now member.now.kind ≡ Some (entry field)) }
    ensures name { IfOk result (λ field. field.name ≡ member.now.name) }
{
    let name = member.name.copy()?;
    match &member.kind {
        MemberKind::Field(Value::Int(value)) => Ok(Field {
            name,
            value: *value,
        }),
        _ => unreachable!(),
    }
}

// What the field of a name holds. The search goes through the fields one by one.
pub(crate) fn value_of(fields: &[Field], name: &str) -> Option<i64>
    ensures { look name.now (world_of fields.now) ≡ option_map Value.Int result }
{
    for field in fields {
        if name == field.name.as_str() {
            return Some(field.value);
        }
    }
    None
}

// Puts a value into the field of a name. The search goes through the fields one by one.
pub(crate) fn put(fields: &mut [Field], name: &str, value: i64)
    ensures values { world_of fields.new ≡ put_at name.now (Value.Int value) (world_of fields.old) }
    ensures names { names_in fields.new ≡ names_in fields.old }
{
    for i in 0..fields.len() {
        if name == fields[i].name.as_str() {
            fields[i].value = value;
            return;
        }
    }
}
