// Edges, entries and exits in each state.
ghost use Rattle.std.specs.Prelude.{◌≡◌, ◌<◌, ◌++◌, IfOk, OnOk, map, flat_map};
ghost use Rattle.wf_model.specs.Meaning.{inner_of, edge_of};
ghost use Rattle.words_model.specs.Lifting.{lift_inner, inner_states, edge_states};
ghost use Rattle.wf_lift.specs.Room.{HasRoom, HaveRoom, EdgesHaveRoom};

use crate::numbers::in_state;
use std::alloc::{AllocError, Global};
use wf_spec::{Edge, Inner, PortNo};

/// A port of a position in a state.
fn lift_inner(one: Inner, states: u8, s: u8) -> Inner
    requires room { HasRoom states (inner_of one) }
    requires state { s < states }
    ensures { inner_of result ≡ lift_inner states s (inner_of one) }
{
    Inner {
        pos: one.pos,
        port: PortNo(in_state(states, s, one.port.0)),
    }
}

/// Appends a port of a position in each state.
fn add_inner(list: &mut Vec<Inner>, one: Inner, states: u8) -> Result<(), AllocError>
    requires { HasRoom states (inner_of one) }
    ensures { OnOk result (map inner_of list.new.items ≡ map inner_of list.old.items ++ inner_states states (inner_of one)) }
{
    for s in 0..states {
        list.push(lift_inner(one, states, s))?;
    }
    Ok(())
}

/// Ports of positions, each in each state.
pub fn lift_inners(alloc: Global, ends: &[Inner], states: u8) -> Result<Vec<Inner>, AllocError>
    requires { HaveRoom states (map inner_of ends.now) }
    ensures { IfOk result (λ list. map inner_of list.items ≡ flat_map (inner_states states) (map inner_of ends.now)) }
{
    let mut list = Vec::new(alloc);
    for one in ends {
        add_inner(&mut list, *one, states)?;
    }
    Ok(list)
}

/// Appends an edge in each state.
fn add_edge(list: &mut Vec<Edge>, edge: Edge, states: u8) -> Result<(), AllocError>
    requires from { HasRoom states (inner_of edge.from) }
    requires to { HasRoom states (inner_of edge.to) }
    ensures { OnOk result (map edge_of list.new.items ≡ map edge_of list.old.items ++ edge_states states (edge_of edge)) }
{
    for s in 0..states {
        list.push(Edge {
            from: lift_inner(edge.from, states, s),
            to: lift_inner(edge.to, states, s),
        })?;
    }
    Ok(())
}

/// Edges, each in each state.
pub fn lift_edges(alloc: Global, edges: &[Edge], states: u8) -> Result<Vec<Edge>, AllocError>
    requires { EdgesHaveRoom states (map edge_of edges.now) }
    ensures { IfOk result (λ list. map edge_of list.items ≡ flat_map (edge_states states) (map edge_of edges.now)) }
{
    let mut list = Vec::new(alloc);
    for edge in edges {
        add_edge(&mut list, *edge, states)?;
    }
    Ok(list)
}
