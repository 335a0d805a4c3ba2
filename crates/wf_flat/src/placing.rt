// For each port of a run the word that says to where it leads.
ghost use Rattle.std.specs.Prelude.{◌≡◌, ◌<◌, ◌≤◌, ◌+◌, ℕ, length, get_or, IfOk, OnOk};
ghost use Rattle.wf_model.specs.Lists.{IsIn};
ghost use Rattle.wf_flat.specs.Table.{IsTableOf};
ghost use Rattle.wf_flat.specs.Graph.{links_among, IsMadeFor};
ghost use Rattle.wf_flat.specs.Numbering.{AreNumbered, AreBegins};
ghost use Rattle.wf_flat.specs.Leading.{AreSmall, IsIndex, AddsLinks, AddsPairs, AddsInstance, NamesRows};

use crate::graph::{Link, add_wiring};
use crate::module_rows::{ROWS, Row, rows_of};
use crate::numbering::{PORTS, begins_of, number_of};
use crate::seen::is_marked;
use crate::table::PlainRun;
use std::alloc::{AllocError, Global};
use wf_spec::{Deps, Grammar};

/// Names no row.
const NOWHERE: u32 = u32::MAX;

/// The ports of a run by number, and to where each leads: for each side of each instance the number of its first port, and last the count of all; for each port its word, and the rows that words name, as in a `PortGraph`.
#[derive(Drop)]
pub struct Ports {
    pub begins: Vec<u32>,
    pub words: Vec<u32>,
    pub rows: Vec<Row>,
}

/// Writes to where the ports lead that links leave.
fn place_links(begins: &[u32], words: &mut Vec<u32>, links: &[Link])
    requires numbered { AreNumbered begins.now links.now }
    requires below { (k : ℕ) → get_or begins.now k 0 ≤ length words.old.items }
    requires small { length words.old.items ≤ 2147483648 }
    ensures count { length words.new.items ≡ length words.old.items }
    ensures added { AddsLinks links.now begins.now words.old.items words.new.items }
{
    for link in links {
        let from = number_of(begins, link.from) as usize;
        words[from] = number_of(begins, link.to);
    }
}

/// Writes that so many ports from one on lead by the rows from one on.
fn place_rows(words: &mut Vec<u32>, first: usize, count: u8, row: u32)
    requires there { first + count ≤ length words.old.items }
    requires few { row + count ≤ 65536 }
    ensures count { length words.new.items ≡ length words.old.items }
    ensures named { NamesRows first count row words.old.items words.new.items }
{
    for i in 0..count {
        words[first + i as usize] = PORTS + (row + u32::from(i));
    }
}

/// Writes to where the inputs of an instance lead that is not open.
fn place_pairs(
    begins: &[u32],
    words: &mut Vec<u32>,
    g: &Grammar,
    run: &PlainRun,
    k: u32,
    leaf: &Deps,
)
    requires run { IsTableOf g.now.core run.now }
    requires there { k < length run.now.instances }
    requires made_for { IsMadeFor g.now.core leaf.now }
    requires begins { AreBegins g.now.core run.now.instances begins.now }
    requires below { (j : ℕ) → get_or begins.now j 0 ≤ length words.old.items }
    ensures count { length words.new.items ≡ length words.old.items }
    ensures added { AddsPairs g.now.core leaf.now run.now.instances k begins.now words.old.items words.new.items }
{
    // A grammar is well-formed: the module of an instance is there.
    let _formed = g.start();
    let m = run.instances()[k as usize].module;
    let Some(rows) = leaf.rows(m) else {
        return;
    };
    let first = begins[k as usize * 2] as usize;
    place_rows(
        words,
        first,
        rows.len() as u8,
        u32::from(m.0) * u32::from(ROWS),
    );
}

/// Writes to where the ports lead that the links of a seen instance leave. The list of links is in use for it.
fn place_instance(
    begins: &[u32],
    words: &mut Vec<u32>,
    links: &mut Vec<Link>,
    g: &Grammar,
    run: &PlainRun,
    k: u32,
    expanded: &[bool],
    leaf: &Deps,
) -> Result<(), AllocError>
    requires run { IsTableOf g.now.core run.now }
    requires there { k < length run.now.instances }
    requires made_for { IsMadeFor g.now.core leaf.now }
    requires begins { AreBegins g.now.core run.now.instances begins.now }
    requires below { (j : ℕ) → get_or begins.now j 0 ≤ length words.old.items }
    requires small { length words.old.items ≤ 2147483648 }
    ensures count { OnOk result (length words.new.items ≡ length words.old.items) }
    ensures added { OnOk result (AddsInstance g.now.core expanded.now leaf.now run.now.instances k begins.now words.old.items words.new.items) }
{
    // A grammar is well-formed: the production of an instance is there.
    let _formed = g.start();
    let x = &run.instances()[k as usize];
    if !is_marked(expanded, x.module) {
        place_pairs(begins, words, g, run, k, leaf);
        return Ok(());
    }
    let Some(p) = x.production else {
        place_pairs(begins, words, g, run, k, leaf);
        return Ok(());
    };
    links.clear();
    add_wiring(links, k, x.first_child, g.production(p))?;
    place_links(begins, words, links);
    Ok(())
}

/// The ports of a run by number, and to where each leads along the links of the instances that are seen, whose numbers are given.
///
/// Cost: linear in the run and the links of its open instances. Holds 8 bytes for each instance and 4 for each port. Fails only for want of memory; more than 2^31 ports count as such.
pub fn ports_of(
    alloc: Global,
    g: &Grammar,
    run: &PlainRun,
    seen: &[u32],
    expanded: &[bool],
    leaf: &Deps,
) -> Result<Ports, AllocError>
    requires run { IsTableOf g.now.core run.now }
    requires made_for { IsMadeFor g.now.core leaf.now }
    requires there { (k : ℕ) → IsIn k seen.now → k < length run.now.instances }
    ensures small { IfOk result (λ p. AreSmall p.words.items p.rows.items) }
    ensures index { IfOk result (λ p. IsIndex (links_among g.now.core expanded.now leaf.now run.now.instances seen.now) p.begins.items p.words.items p.rows.items) }
{
    let rows = rows_of(alloc, g, leaf)?;
    let begins = begins_of(alloc, g, run)?;
    let ports = begins[begins.len() - 1] as usize;
    let mut words = vec![in alloc; NOWHERE; ports]?;
    let mut links = Vec::new(alloc);
    for k in seen {
        place_instance(&begins, &mut words, &mut links, g, run, *k, expanded, leaf)?;
    }
    Ok(Ports {
        begins,
        words,
        rows,
    })
}
