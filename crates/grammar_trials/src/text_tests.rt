// A specification with a link to a port that has a dot in its name, which no grammar has.
use std::alloc::Global;
use std::test::Fail;
use wf_json::read_spec;
use wf_model::Parts;

/// A link to the port x.y of the position u: the first dot ends the position.
const DOTTED: &str =
    r#"{"start":"S","modules":[],"productions":[{"head":"S","body":[],"in":[["a","u.x.y"]]}]}"#;

/// The port that the one entry of the one production leads to.
fn entry_port(parts: &Parts) -> &[u8] {
    for production in parts.productions.items() {
        for entry in production.entries.items() {
            return entry.to.port.bytes();
        }
    }
    b""
}

fn is_dotted_read(alloc: Global) -> Result<bool, Fail> {
    let parts = read_spec(alloc, DOTTED.as_bytes())?;
    Ok(entry_port(&parts) == b"x.y".as_slice())
}

#[test]
fn the_first_dot_ends_a_position(rt: HostRuntime) -> Result<(), Fail> {
    assert!(rt; is_dotted_read(rt.alloc())?);
    Ok(())
}
