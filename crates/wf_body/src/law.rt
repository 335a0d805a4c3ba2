// The law of one body.
ghost use Rattle.wf_body.specs.Body.{BodyLaw};

/// What leads to each port of a body: to an input of a position its entry or its edge, to an output of a position the pairs of its module, and to an output of the head its exit.
pub fn body_law()
    ensures { BodyLaw }
{}
