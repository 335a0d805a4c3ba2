// Labels whose bytes were worked out by hand.
ghost use Rattle.std.specs.Prelude.{IfOk};
ghost use Rattle.wf_label.specs.Values.{HasSteps};

use std::alloc::{AllocError, Global};
use std::test::Fail;
use wf_label::{Label, Place, PlaceStep, write_label};
use wf_spec::{EdgeNo, PortNo, PosNo, Seq};

/// The step to the first position of the start module's first production.
const FIRST: Option<PlaceStep> = Some(PlaceStep {
    chain: None,
    alternative: 0,
    position: PosNo(0),
});

/// Each line: a step, if there is one, a number of continuing steps, and the alternative number of a production, with the bytes of the label of its edge 0.
const EDGES: [(Option<PlaceStep>, Option<u32>, u16, &[u8]); 9] = [
    (None, None, 0, &[0xb0]),
    (None, None, 1, &[0x94]),
    (None, Some(0), 0, &[0xd8]),
    (None, Some(1), 0, &[0xa6]),
    (FIRST, Some(0), 0, &[0xfb]),
    (FIRST, Some(1), 0, &[0xf4, 0xc0]),
    (FIRST, Some(2), 0, &[0xf6, 0xc0]),
    (FIRST, Some(3), 0, &[0xf2, 0x30]),
    (FIRST, Some(100_000), 0, &[0xf0, 0x00, 0x0c, 0x35, 0x0b]),
];

/// The label of edge 0 of a production, of the start module or of the module to which one step leads, and then so many continuing steps.
fn of_edge(
    alloc: Global,
    step: Option<PlaceStep>,
    chain: Option<u32>,
    alternative: u16,
) -> Result<Label, AllocError>
    ensures { IfOk result (λ l. HasSteps 1024 l) }
{
    let mut steps = Vec::new(alloc);
    if let Some(first) = step {
        steps.push(first)?;
    }
    Ok(Label::OfEdge(Place {
        steps: Seq::from_vec(steps),
        chain,
        alternative,
        edge: EdgeNo(0),
    }))
}

/// Whether a label is written as these bytes.
fn is_written(alloc: Global, label: &Label, bytes: &[u8]) -> Result<bool, AllocError>
    requires { HasSteps 1024 label.now }
{
    let written = write_label(alloc, label)?;
    Ok(written.bytes() == bytes)
}

/// Whether the label of such an edge is written as these bytes.
fn is_edge_written(
    alloc: Global,
    step: Option<PlaceStep>,
    chain: Option<u32>,
    alternative: u16,
    bytes: &[u8],
) -> Result<bool, AllocError> {
    let label = of_edge(alloc, step, chain, alternative)?;
    is_written(alloc, &label, bytes)
}

#[test]
fn labels_are_written(rt: HostRuntime) -> Result<(), Fail> {
    assert!(rt; is_written(rt.alloc(), &Label::Input(PortNo(0)), &[0x20])?);
    assert!(rt; is_written(rt.alloc(), &Label::Output(PortNo(0)), &[0x60])?);
    for &(step, chain, alternative, bytes) in &EDGES {
        assert!(rt;
            is_edge_written(rt.alloc(), step, chain, alternative, bytes)?,
            "{chain:?} {alternative}"
        );
    }
    Ok(())
}
