// Numbers in a label.
ghost use Rattle.std.specs.Prelude.{◌≡◌, ◌+◌, ◌^◌, ◌<◌, [], ◌∷◌, ◌++◌, length, IfOk, IsErr};
ghost use Rattle.wf_model.specs.Grammar.{IsProductionOf, alternative_of};
ghost use Rattle.bit_pack.specs.Gamma.{gamma};
ghost use Rattle.wf_label.specs.Parts.{HasNoNumber, HasNoAlternative};
ghost use Rattle.wf_translate.specs.Parts.{HasNoLastNumber, IsLastNumber};

use crate::fault::PackLabelFault;
use bit_pack::BitReader;
use wf_spec::{Grammar, ModNo, ProdNo};

/// Reads one bit.
#[inline(always)]
pub(crate) fn read_bit(reader: &mut BitReader<'_>) -> Result<bool, PackLabelFault>
    ensures bit { IfOk result (λ b. reader.old.left ≡ b ∷ reader.new.left) }
    ensures ended { IsErr result → reader.old.left ≡ [] }
{
    match reader.bit() {
        Ok(bit) => Ok(bit),
        Err(_) => Err(PackLabelFault::Malformed),
    }
}

/// Reads the code of a number with one added. The number is below `count`.
#[inline(always)]
pub(crate) fn read_number(reader: &mut BitReader<'_>, count: usize) -> Result<usize, PackLabelFault>
    requires { count < 2 ^ 63 }
    ensures below { IfOk result (λ n. n < count) }
    ensures read { IfOk result (λ n. reader.old.left ≡ gamma (n + 1) ++ reader.new.left) }
    ensures malformed { IsErr result → HasNoNumber count reader.old.left }
{
    match reader.gamma(count as u64) {
        Ok(number) => Ok(number as usize - 1),
        Err(_) => Err(PackLabelFault::Malformed),
    }
}

/// Reads the code of a number with one added, behind which only zero bits are left, fewer than eight. The number is below `count`.
#[inline(always)]
pub(crate) fn read_last(reader: &mut BitReader<'_>, count: usize) -> Result<usize, PackLabelFault>
    requires { count < 2 ^ 63 }
    ensures read { IfOk result (λ n. IsLastNumber count reader.old.left n) }
    ensures malformed { IsErr result → HasNoLastNumber count reader.old.left }
{
    let number = read_number(reader, count)?;
    if reader.padding() {
        Ok(number)
    } else {
        Err(PackLabelFault::Malformed)
    }
}

/// Reads an alternative number of a module, and gives the production.
#[inline(always)]
pub(crate) fn read_alternative(
    g: &Grammar,
    reader: &mut BitReader<'_>,
    m: ModNo,
) -> Result<ProdNo, PackLabelFault>
    requires { m.0 < length g.now.core.modules }
    ensures production { IfOk result (λ p. IsProductionOf g.now.core p.0 m.0) }
    ensures read { IfOk result (λ p. reader.old.left ≡ gamma (alternative_of g.now.core p.0 + 1) ++ reader.new.left) }
    ensures malformed { IsErr result → HasNoAlternative g.now.core m.0 reader.old.left }
{
    let alternatives = g.alternatives(m);
    let a = read_number(reader, alternatives.len())?;
    Ok(alternatives[a])
}
