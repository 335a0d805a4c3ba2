// The digests of a grammar and of its earlier versions.
ghost use Rattle.std.specs.Prelude.{◌≡◌, ◌≤◌, length, IfOk};
ghost use Rattle.sha2.specs.Sha256.{sha256};
ghost use Rattle.wf_model.specs.Versions.{IsVersion};
ghost use Rattle.wf_json.specs.Digests.{digest_of, digest_of_version, digests_of};
ghost use Rattle.wf_json.specs.Writing.{first_text};

use crate::hashed_text::HashedText;
use crate::writing::put_first;
use std::alloc::{AllocError, Global};
use wf_spec::{Grammar, Version};

/// The SHA-256 of the canonical text of a grammar.
///
/// Errors: want of memory alone. Cost: linear in the text, which is hashed in pieces and not held.
/// Source: NIST, FIPS 180-4, section 6.2.
pub fn digest(alloc: Global, g: &Grammar) -> Result<[u8; 32], AllocError>
    ensures { IfOk result (λ d. d ≡ digest_of g.now.core) }
{
    first_digest(alloc, g, g.modules().len(), g.productions().len())
}

/// The digest of a grammar, and then those of its earlier versions, in order.
///
/// Errors: want of memory alone. Cost: linear in the texts of the grammar and of the versions, which are hashed in pieces and not held.
pub fn digests(alloc: Global, g: &Grammar) -> Result<Vec<[u8; 32]>, AllocError>
    ensures { IfOk result (λ ds. ds.items ≡ digests_of g.now) }
{
    let versions = g.versions();
    let mut digests = Vec::new(alloc);
    let own = digest(alloc, g)?;
    digests.push(own)?;
    for version in versions {
        let earlier = version_digest(alloc, g, *version)?;
        digests.push(earlier)?;
    }
    Ok(digests)
}

/// The digest of an earlier version of a grammar.
fn version_digest(alloc: Global, g: &Grammar, version: Version) -> Result<[u8; 32], AllocError>
    requires { IsVersion g.now.core version.modules version.productions }
    ensures { IfOk result (λ d. d ≡ digest_of_version g.now.core version) }
{
    let modules = version.modules as usize;
    let productions = version.productions as usize;
    first_digest(alloc, g, modules, productions)
}

/// The digest of the text of a grammar with its first modules and its first productions alone.
fn first_digest(
    alloc: Global,
    g: &Grammar,
    modules: usize,
    productions: usize,
) -> Result<[u8; 32], AllocError>
    requires modules { modules ≤ length g.now.core.modules }
    requires productions { productions ≤ length g.now.core.productions }
    ensures { IfOk result (λ d. d ≡ sha256 (first_text g.now.core modules productions)) }
{
    let mut text = HashedText::new(alloc)?;
    put_first(&mut text, g, modules, productions)?;
    Ok(text.digest())
}
