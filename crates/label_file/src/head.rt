// The head of a label file, cut from its bytes.
ghost use Rattle.std.specs.Prelude.{◌≡◌, ◌++◌, ℕ, List, length, IfOk, IfErr};
ghost use Rattle.wf_model.specs.Lists.{IsIn};
ghost use Rattle.wf_model.specs.Grammar.{Grammar};
ghost use Rattle.label_model.specs.Files.{head_bytes};
ghost use Rattle.label_file.specs.Stored.{IsStoreFault};

use crate::fault::StoreFault;

/// The bytes behind the head, if the digest there is one of these. The head is the same for each grammar.
///
/// Errors: `NotLabels` where the letters or the 32 bytes of a digest are not there, and then `OtherSpec` where the digest is none of these.
///
/// Takes no memory. Cost: one comparison for each digest.
pub(crate) fn behind_head<'a>(digests: &[[u8; 32]], bytes: &'a [u8]) -> Result<&'a [u8], StoreFault>
    ensures head { IfOk result (λ r. (found : List ℕ) × IsIn found digests.now × (length found ≡ 32) × (bytes.now ≡ head_bytes found ++ r.now)) }
    ensures fault { IfErr result (λ f. (g : Grammar) → IsStoreFault g digests.now bytes.now f) }
{
    let Some(behind) = bytes.strip_prefix(b"WFL1") else {
        return Err(StoreFault::NotLabels);
    };
    let Some((found, rest)) = behind.split_first_chunk::<32>() else {
        return Err(StoreFault::NotLabels);
    };
    if !digests.contains(found) {
        return Err(StoreFault::OtherSpec);
    }
    Ok(rest)
}
