// The sizes of bodies, and the sum of their squares.
ghost use Rattle.std.specs.Prelude.{◌≡◌, ◌<◌, ◌≤◌, ◌*◌, length};
ghost use Rattle.wf_spec.specs.FirstFaults.{each, HoldsThroughout, IsFirstFailing};
ghost use Rattle.wf_form.specs.Rules.{squares};
ghost use Rattle.wf_form.specs.declared.fault.FormFault.TheVariants.{EmptyBody, BodyTooLong};

use wf_model::ProdPart;

/// The first production whose body has no position.
pub fn first_empty_body(productions: &[ProdPart]) -> Option<usize>
    ensures { IsFirstFailing (each productions.now (λ p. 0 < length p.body) EmptyBody) result }
{
    productions.iter().position(|p| p.body.items().is_empty())
}

/// The first production whose body has more than 64 positions.
pub fn first_long_body(productions: &[ProdPart]) -> Option<usize>
    ensures { IsFirstFailing (each productions.now (λ p. length p.body ≤ 64) BodyTooLong) result }
{
    productions.iter().position(|p| p.body.items().len() > 64)
}

fn square_of(rule: &ProdPart) -> usize
    requires { length rule.now.body ≤ 64 }
    ensures value { result ≡ length rule.now.body * length rule.now.body }
    ensures small { result ≤ 4096 }
{
    let len = rule.body.items().len();
    len * len
}

/// The sum of the squares of the lengths of bodies.
pub fn sum_of_squares(productions: &[ProdPart]) -> usize
    requires few { length productions.now ≤ 1024 }
    requires short { HoldsThroughout (each productions.now (λ p. length p.body ≤ 64) BodyTooLong) }
    ensures { result ≡ squares productions.now }
{
    let mut sum = 0;
    for rule in productions {
        sum += square_of(rule);
    }
    sum
}
