// The parts of a specification, by their forms.
ghost use Rattle.std.specs.Prelude.{◌≡◌, ◌==◌, position, codes, IfOk};
ghost use Rattle.serde_json.specs.View.{view};
ghost use Rattle.wf_json.specs.Forms.{both, text_form, list_form, port_of, port_form, member_form, list_member};
ghost use Rattle.wf_json.specs.SpecForm.{module_form, position_form, edge_form, entry_form, exit_form, production_form, ports_form, deps_form, version_form};

use crate::form::{FromJson, member, member_list, pair};
use serde_json::Value;
use std::alloc::{AllocError, Global};
use wf_model::{
    DepsPart, EdgePart, EntryPart, ExitPart, ModulePart, Name, PairPart, PortPart, PosPart,
    ProdPart, Seq, VersionPart,
};

/// The place of the first dot.
fn first_dot(text: &[u8]) -> Option<usize>
    ensures { result ≡ position (λ b. b == 46) text.now }
{
    text.iter().position(|b| *b == b'.')
}

/// The position before the first dot and the port after it.
fn port(alloc: Global, text: &[u8]) -> Result<Option<PortPart>, AllocError>
    ensures { IfOk result (λ o. o ≡ port_of text.now) }
{
    let Some(i) = first_dot(text) else {
        return Ok(None);
    };
    let pos = Name::copied(alloc, &text[..i])?;
    let port = Name::copied(alloc, &text[i + 1..])?;
    Ok(Some(PortPart { pos, port }))
}

impl FromJson for PortPart {
    ghost form = { port_form };

    fn from_json(alloc: Global, value: &Value) -> Result<Option<PortPart>, AllocError> {
        match value.as_str() {
            Some(text) => port(alloc, text.as_bytes()),
            None => Ok(None),
        }
    }
}

impl FromJson for PosPart {
    ghost form = { position_form };

    fn from_json(alloc: Global, value: &Value) -> Result<Option<PosPart>, AllocError> {
        let Some((name, module)) = pair::<Name, Name>(alloc, value)? else {
            return Ok(None);
        };
        Ok(Some(PosPart { name, module }))
    }
}

impl FromJson for EdgePart {
    ghost form = { edge_form };

    fn from_json(alloc: Global, value: &Value) -> Result<Option<EdgePart>, AllocError> {
        let Some((from, to)) = pair::<PortPart, PortPart>(alloc, value)? else {
            return Ok(None);
        };
        Ok(Some(EdgePart { from, to }))
    }
}

impl FromJson for EntryPart {
    ghost form = { entry_form };

    fn from_json(alloc: Global, value: &Value) -> Result<Option<EntryPart>, AllocError> {
        let Some((port, to)) = pair::<Name, PortPart>(alloc, value)? else {
            return Ok(None);
        };
        Ok(Some(EntryPart { port, to }))
    }
}

impl FromJson for ExitPart {
    ghost form = { exit_form };

    fn from_json(alloc: Global, value: &Value) -> Result<Option<ExitPart>, AllocError> {
        let Some((from, port)) = pair::<PortPart, Name>(alloc, value)? else {
            return Ok(None);
        };
        Ok(Some(ExitPart { from, port }))
    }
}

impl FromJson for PairPart {
    ghost form = { ports_form };

    fn from_json(alloc: Global, value: &Value) -> Result<Option<PairPart>, AllocError> {
        let Some((input, output)) = pair::<Name, Name>(alloc, value)? else {
            return Ok(None);
        };
        Ok(Some(PairPart { input, output }))
    }
}

/// The lists `in` and `out` of an object.
fn in_and_out<A: FromJson + Drop, B: FromJson + Drop>(
    alloc: Global,
    value: &Value,
) -> Result<Option<(Seq<A>, Seq<B>)>, AllocError>
    ensures { IfOk result (λ o. o ≡ both (list_member (codes "in") A.form (view value.now)) (list_member (codes "out") B.form (view value.now))) }
{
    let Some(inner) = member_list::<A>(alloc, value, "in")? else {
        return Ok(None);
    };
    let Some(outer) = member_list::<B>(alloc, value, "out")? else {
        return Ok(None);
    };
    Ok(Some((inner, outer)))
}

impl FromJson for ModulePart {
    ghost form = { module_form };

    fn from_json(alloc: Global, value: &Value) -> Result<Option<ModulePart>, AllocError> {
        let Some(name) = member::<Name>(alloc, value, "name")? else {
            return Ok(None);
        };
        let Some(ends) = in_and_out::<Name, Name>(alloc, value)? else {
            return Ok(None);
        };
        let (inputs, outputs) = ends;
        Ok(Some(ModulePart {
            name,
            inputs,
            outputs,
        }))
    }
}

/// The head and the body of a production.
fn head_and_body(alloc: Global, value: &Value) -> Result<Option<(Name, Seq<PosPart>)>, AllocError>
    ensures { IfOk result (λ o. o ≡ both (member_form (codes "head") text_form (view value.now))
        (member_form (codes "body") (list_form position_form) (view value.now))) }
{
    let Some(head) = member::<Name>(alloc, value, "head")? else {
        return Ok(None);
    };
    let Some(body) = member::<Seq<PosPart>>(alloc, value, "body")? else {
        return Ok(None);
    };
    Ok(Some((head, body)))
}

/// The edges of a production, and its lists `in` and `out`.
fn links_of(
    alloc: Global,
    value: &Value,
) -> Result<Option<(Seq<EdgePart>, (Seq<EntryPart>, Seq<ExitPart>))>, AllocError>
    ensures { IfOk result (λ o. o ≡ both (list_member (codes "edges") edge_form (view value.now))
        (both (list_member (codes "in") entry_form (view value.now)) (list_member (codes "out") exit_form (view value.now)))) }
{
    let Some(edges) = member_list::<EdgePart>(alloc, value, "edges")? else {
        return Ok(None);
    };
    let Some(ends) = in_and_out::<EntryPart, ExitPart>(alloc, value)? else {
        return Ok(None);
    };
    Ok(Some((edges, ends)))
}

impl FromJson for ProdPart {
    ghost form = { production_form };

    fn from_json(alloc: Global, value: &Value) -> Result<Option<ProdPart>, AllocError> {
        let Some(front) = head_and_body(alloc, value)? else {
            return Ok(None);
        };
        let Some(links) = links_of(alloc, value)? else {
            return Ok(None);
        };
        let (head, body) = front;
        let (edges, (entries, exits)) = links;
        Ok(Some(ProdPart {
            head,
            body,
            edges,
            entries,
            exits,
        }))
    }
}

impl FromJson for DepsPart {
    ghost form = { deps_form };

    fn from_json(alloc: Global, value: &Value) -> Result<Option<DepsPart>, AllocError> {
        let Some(module) = member::<Name>(alloc, value, "module")? else {
            return Ok(None);
        };
        let Some(pairs) = member::<Seq<PairPart>>(alloc, value, "pairs")? else {
            return Ok(None);
        };
        Ok(Some(DepsPart { module, pairs }))
    }
}

impl FromJson for VersionPart {
    ghost form = { version_form };

    fn from_json(alloc: Global, value: &Value) -> Result<Option<VersionPart>, AllocError> {
        let Some((modules, productions)) = pair::<u64, u64>(alloc, value)? else {
            return Ok(None);
        };
        Ok(Some(VersionPart {
            modules,
            productions,
        }))
    }
}
