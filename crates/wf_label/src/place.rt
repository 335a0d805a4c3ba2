// The bits of a label, read part by part where it is known what comes next.
ghost use Rattle.std.specs.Prelude.{◌≢◌, ◌^◌, ◌<◌, true, false, None, IfSome, length};
ghost use Rattle.label_model.specs.Continuing.{continuing};
ghost use Rattle.wf_label.specs.Marks.{HasLabel, HasPlace, IsFrontRead, IsChainRead, IsPartRead, IsBegunBy};

use crate::codes::Codes;
use crate::parts::read_alternative;
use crate::reference::LabelRef;
use crate::short::{ShortBytes, ShortReader};
use bit_pack::BitReader;
use wf_spec::{EdgeNo, Grammar, ModNo, PortNo, PosNo, ProdNo, Step};

/// What the first bits of a label tell.
#[derive(Clone, Copy, Debug, PartialEq, Eq)]
pub enum Front {
    /// It is the label of an input of the root.
    Input(PortNo),
    /// It is the label of an output of the root.
    Output(PortNo),
    /// It is the label of an edge, whose place comes next.
    OfEdge,
}

/// What a place tells at a module behind its chain number.
#[derive(Clone, Copy, Debug, PartialEq, Eq)]
pub enum Part {
    /// A step that is not the continuing one, and the module to which it leads.
    Into { step: Step, to: ModNo },
    /// The production and the edge at which the place ends.
    End { production: ProdNo, edge: EdgeNo },
}

/// Reads the first bits of a label: a port of the root, or that a place comes next.
#[inline(always)]
pub fn read_front<R: Codes>(g: &Grammar, bits: &mut R) -> Front
    requires { HasLabel g.now.core (R.reading bits.old).left }
    ensures read { IsFrontRead g.now.core (R.reading bits.old).left result (R.reading bits.new).left }
    ensures fewer { length (R.reading bits.new).left < length (R.reading bits.old).left }
{
    // A grammar is well-formed.
    let _formed = g.start();
    let of_edge = bits.next_bit().unwrap();
    if of_edge {
        return Front::OfEdge;
    }
    let is_output = bits.next_bit().unwrap();
    let port = PortNo(bits.next_number(64).unwrap() as u8);
    if is_output {
        return Front::Output(port);
    }
    Front::Input(port)
}

/// Reads the chain number of a place at a module on a cycle: the number of continuing steps, which is below 2^24.
#[inline(always)]
pub fn read_chain<R: Codes>(g: &Grammar, bits: &mut R, m: ModNo) -> u32
    requires place { HasPlace g.now.core m.0 false (R.reading bits.old).left }
    requires on_cycle { continuing g.now.core m.0 ≢ None }
    ensures read { IsChainRead g.now.core m.0 (R.reading bits.old).left result (R.reading bits.new).left }
    ensures few { result < 2 ^ 24 }
    ensures fewer { length (R.reading bits.new).left < length (R.reading bits.old).left }
{
    bits.next_number(1 << 24).unwrap() as u32
}

/// Reads a step or an ending of a place at a module, behind its chain number if there is one.
#[inline(always)]
pub fn read_part<R: Codes>(g: &Grammar, bits: &mut R, m: ModNo) -> Part
    requires { HasPlace g.now.core m.0 true (R.reading bits.old).left }
    ensures read { IsPartRead g.now.core m.0 (R.reading bits.old).left result (R.reading bits.new).left }
    ensures fewer { length (R.reading bits.new).left < length (R.reading bits.old).left }
{
    // A grammar is well-formed.
    let _formed = g.start();
    let is_step = bits.next_bit().unwrap();
    let production = read_alternative(g, bits, m).unwrap();
    let rule = g.production(production);
    if is_step {
        let positions = rule.positions();
        let i = bits.next_number(positions.len()).unwrap();
        prove!(i < 64);
        let step = Step {
            production,
            position: PosNo(i as u8),
        };
        let to = positions[i].module;
        return Part::Into { step, to };
    }
    let e = bits.next_number(rule.edges().len()).unwrap();
    prove!(e < 4096);
    let edge = EdgeNo(e as u16);
    Part::End { production, edge }
}

impl<'a> LabelRef<'a> {
    /// A reader of the bits of the label, from the first on.
    #[inline(always)]
    pub fn reader(&self) -> BitReader<'a>
        ensures { IsBegunBy self.now result.left }
    {
        BitReader::new(self.bytes())
    }

    /// The same for a label of at most eight bytes, whose bits are held in one word; None where it has more.
    #[inline(always)]
    pub fn short_reader(&self) -> Option<ShortReader<'a>>
        ensures { IfSome result (λ r. IsBegunBy self.now r.left) }
    {
        let short = ShortBytes::of(self.bytes())?;
        Some(ShortReader::new(short, 0))
    }
}
