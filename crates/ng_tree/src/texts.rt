ghost use Rattle.std.specs.Prelude.{◌≡◌, ◌<◌, ◌++◌, [], ◌∷◌, IfOk, OnOk, length, slice_index_or};
ghost use Rattle.std.specs.Fmt.{decimal};
ghost use Rattle.std.specs.List.{flat_map};
ghost use Rattle.ng_tree.specs.Texts.{HasNames, occurrence_text, step_text, path_text, node_text, provide_word, site_text};

use crate::{Names, NodeId, Path, Site, Step};
use itoa::Buffer;
use ng_values::NgText;
use sqlite_items::Items;
use std::alloc::{AllocError, Global};

/// The text of a path: `.` for the view of the root component, and then for each step `/n` for a
/// component, `/n?b` for a branch, `/n[KEY]` for a row, with the key as JSON and `#k` behind it where
/// earlier rows have the same key, and `/n!t` for an outlet. The form is this project's own. It takes
/// time linear in the bytes.
pub fn path_text(alloc: Global, path: &Path) -> Result<Vec<u8>, AllocError>
    ensures { IfOk result (λ text. text.items ≡ path_text path.now) }
{
    let mut out = Vec::new(alloc);
    write_path(alloc, &mut out, path)?;
    Ok(out)
}

/// The text of a site: the path of a component; the path, `:` and the number of a node, or `^` for
/// the host of the root component; `PATH provide TOKEN` or `PATH viewprovide TOKEN` for what a
/// component provides; `env ENVIRONMENT TOKEN` for what an environment provides. The forms are this
/// project's own. It takes time linear in the bytes.
pub fn site_text(alloc: Global, site: &Site, names: &Names) -> Result<Vec<u8>, AllocError>
    requires { HasNames names.now site.now }
    ensures { IfOk result (λ text. text.items ≡ site_text names.now site.now) }
{
    let mut out = Vec::new(alloc);
    match site {
        Site::Component(path) => {
            write_path(alloc, &mut out, path)?;
            Ok(out)
        }
        Site::Element(id) => {
            write_node(alloc, &mut out, id)?;
            Ok(out)
        }
        Site::Service(path, in_view, token) => {
            write_path(alloc, &mut out, path)?;
            out.extend_from_slice(provide_word(*in_view).as_bytes())?;
            out.extend_from_slice(name_at(&names.tokens, *token).as_bytes())?;
            Ok(out)
        }
        Site::Env(environment, token) => {
            out.extend_from_slice(b"env ")?;
            out.extend_from_slice(name_at(&names.environments, *environment).as_bytes())?;
            out.push(b' ')?;
            out.extend_from_slice(name_at(&names.tokens, *token).as_bytes())?;
            Ok(out)
        }
    }
}

fn provide_word(in_view: bool) -> &'static str
    ensures { result.now ≡ provide_word in_view }
{
    if in_view {
        " viewprovide "
    } else {
        " provide "
    }
}

// The name with this number.
fn name_at(names: &Items<NgText>, number: u32) -> &str
    requires { number < length names.now }
    ensures { result.now ≡ slice_index_or names.now number [] }
{
    names.as_slice()[number as usize].as_str()
}

fn write_node(alloc: Global, out: &mut Vec<u8>, id: &NodeId) -> Result<(), AllocError>
    ensures { OnOk result (out.new.items ≡ out.old.items ++ node_text id.now) }
{
    match id {
        NodeId::Root => {
            out.push(b'^')?;
            Ok(())
        }
        NodeId::At(path, n) => {
            write_path(alloc, out, path)?;
            write_number(out, b':', *n)?;
            Ok(())
        }
    }
}

fn write_path(alloc: Global, out: &mut Vec<u8>, path: &Path) -> Result<(), AllocError>
    ensures { OnOk result (out.new.items ≡ out.old.items ++ path_text path.now) }
{
    out.push(b'.')?;
    write_steps(alloc, out, path.items())?;
    Ok(())
}

fn write_steps(alloc: Global, out: &mut Vec<u8>, steps: &[Step]) -> Result<(), AllocError>
    ensures { OnOk result (out.new.items ≡ out.old.items ++ flat_map step_text steps.now) }
{
    for step in steps {
        write_step(alloc, out, step)?;
    }
    Ok(())
}

fn write_step(alloc: Global, out: &mut Vec<u8>, step: &Step) -> Result<(), AllocError>
    ensures { OnOk result (out.new.items ≡ out.old.items ++ step_text step.now) }
{
    match step {
        Step::Child(n) => {
            write_number(out, b'/', *n)?;
            Ok(())
        }
        Step::Branch(n, branch) => {
            write_number(out, b'/', *n)?;
            write_number(out, b'?', *branch)?;
            Ok(())
        }
        Step::Row(n, key, occurrence) => {
            write_number(out, b'/', *n)?;
            out.push(b'[')?;
            out.extend_from_slice(key.json_of(alloc)?.as_slice())?;
            write_occurrence(out, *occurrence)?;
            out.push(b']')?;
            Ok(())
        }
        Step::Outlet(n, template) => {
            write_number(out, b'/', *n)?;
            write_number(out, b'!', *template)?;
            Ok(())
        }
    }
}

// The place of a row among those with its key, where it isn't the first.
fn write_occurrence(out: &mut Vec<u8>, occurrence: u32) -> Result<(), AllocError>
    ensures { OnOk result (out.new.items ≡ out.old.items ++ occurrence_text occurrence) }
{
    if occurrence > 0 {
        write_number(out, b'#', occurrence)?;
    }
    Ok(())
}

// A number after a sign.
fn write_number(out: &mut Vec<u8>, sign: u8, n: u32) -> Result<(), AllocError>
    ensures { OnOk result (out.new.items ≡ out.old.items ++ sign ∷ decimal n) }
{
    let mut digits = Buffer::new();
    out.push(sign)?;
    out.extend_from_slice(digits.format(n).as_bytes())?;
    Ok(())
}
